ghost use Rattle.std.specs.Prelude.{◌≡◌, IfOk};
ghost use Rattle.alg_model.specs.Bounds.{AtMost};
ghost use Rattle.alg_model.specs.Carriers.{In};
ghost use Rattle.alg_model.specs.Expressions.{PureCarrier, PureValue};
ghost use Rattle.alg_model.specs.Formation.{IsCarrier};
ghost use Rattle.alg_model.specs.Views.{pure_carrier, pure_value};
ghost use Rattle.alg_model.specs.declared.alg.TheConstants.{MAX_INSTANCE_NUMBER};
ghost use Rattle.alg_model.specs.declared.edition.TheConstants.{MAX_LABEL_NUMBER};
ghost use Rattle.alg_classes.specs.Classes.{pure_examples, IsSettledBy, ExamplesAtMost};
ghost use Rattle.alg_classes.specs.Constants.{constant, kept, denied, constant_profile, kept_profile, denied_profile};
ghost use Rattle.alg_classes.specs.Profiles.{IsProfile};

use crate::worse::best;
use crate::{Examples, Profile, apart, has_worse, is_flat, worse_than};
use alg_model::{Carrier, Shaped, Value};
use meta_base::NoMemory;
use std::alloc::Global;

/// The profile of what sends every value of the carrier to this one. It takes no memory.
pub fn constant_profile<C: Shaped>(shaped: &C, value: &Value) -> Profile
    ensures profile { result ≡ constant_profile (C.carrier shaped.now) (pure_value value.now) }
    ensures exact { IsCarrier (C.carrier shaped.now) → In (C.carrier shaped.now) (pure_value value.now) →
        IsProfile (C.carrier shaped.now) (constant (pure_value value.now)) result }
{
    let flat = is_flat(shaped);
    Profile {
        total: true,
        dead: false,
        mono: !has_worse(shaped, value),
        strict: false, // the value is sent to itself
        iso: true,
        canc: flat,
        cond: true,
        narrow: flat,
    }
}

/// The profile of what keeps every value of the carrier. It takes no memory.
pub fn kept_profile<C: Shaped>(shaped: &C) -> Profile
    ensures profile { result ≡ kept_profile (C.carrier shaped.now) }
    ensures exact { IsCarrier (C.carrier shaped.now) → IsProfile (C.carrier shaped.now) kept result }
{
    let flat = is_flat(shaped);
    Profile {
        total: true,
        dead: false,
        mono: true,
        strict: false, // so is every value
        iso: true,
        canc: true,
        cond: flat,
        narrow: flat,
    }
}

/// The profile of what sends every value of a carrier to none. It takes no memory.
#[tactic(auto, using(crate::specs::Constants::denied_is_profile))]
pub fn denied_profile() -> Profile
    ensures profile { result ≡ denied_profile }
    ensures exact { (c : PureCarrier) (v : PureValue) → In c v → IsProfile c denied result }
{
    Profile {
        total: false,
        dead: true,
        mono: true,
        strict: true,
        iso: true,
        canc: true,
        cond: true,
        narrow: true,
    }
}

/// An example for each fact that fails of what sends every value of the carrier to this one. It is
/// refused for want of memory alone.
pub fn constant_examples(
    alloc: Global,
    carrier: &Carrier,
    value: &Value,
) -> Result<Examples, NoMemory>
    requires carrier { IsCarrier (pure_carrier carrier.now) }
    requires value { In (pure_carrier carrier.now) (pure_value value.now) }
    requires small { AtMost MAX_LABEL_NUMBER (pure_value value.now) }
    ensures settled { IfOk result (λ x. IsSettledBy (pure_carrier carrier.now) (constant (pure_value value.now))
        (constant_profile (pure_carrier carrier.now) (pure_value value.now)) (pure_examples x)) }
    ensures bound { IfOk result (λ x. ExamplesAtMost MAX_INSTANCE_NUMBER (pure_examples x)) }
{
    Ok(Examples {
        inside: Some(value.copy(alloc)?),
        outside: None,
        not_mono: worse_than(alloc, carrier, value)?,
        not_strict: Some(value.copy(alloc)?),
        not_iso: None,
        not_canc: apart(alloc, carrier)?,
        not_cond: None,
        not_narrow: apart(alloc, carrier)?,
    })
}

/// An example for each fact that fails of what keeps every value of the carrier. It is refused for want
/// of memory alone.
pub fn kept_examples(alloc: Global, carrier: &Carrier) -> Result<Examples, NoMemory>
    requires { IsCarrier (pure_carrier carrier.now) }
    ensures settled { IfOk result (λ x. IsSettledBy (pure_carrier carrier.now) kept
        (kept_profile (pure_carrier carrier.now)) (pure_examples x)) }
    ensures bound { IfOk result (λ x. ExamplesAtMost MAX_INSTANCE_NUMBER (pure_examples x)) }
{
    Ok(Examples {
        inside: Some(best(alloc, carrier)?),
        outside: None,
        not_mono: None,
        not_strict: Some(best(alloc, carrier)?),
        not_iso: None,
        not_canc: None,
        not_cond: apart(alloc, carrier)?,
        not_narrow: apart(alloc, carrier)?,
    })
}
