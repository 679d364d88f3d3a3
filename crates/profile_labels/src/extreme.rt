ghost use Rattle.std.specs.Prelude.{◌≡◌, IfOk};
ghost use Rattle.alg_model.specs.Carriers.{carrier_of};
ghost use Rattle.alg_model.specs.Formation.{IsFormed};
ghost use Rattle.alg_model.specs.Views.{expression_of, pure_value};
ghost use Rattle.alg_classes.specs.Constants.{constant_profile};
ghost use Rattle.profile_labels.specs.Extremes.{HasExtreme, has_worst};
ghost use Rattle.profile_labels.specs.Outlines.{extreme_of};

use crate::part::Part;
use alg_classes::{Profile, best, kept_profile, worst};
use alg_model::{Form, Shaped, Tree, Value};
use meta_base::NoMemory;
use std::alloc::Global;

/// An end of the order of a carrier. Of all constants, those at its ends have each profile.
#[derive(Clone, Copy, Debug)]
pub(crate) enum Extreme {
    Best,
    Worst,
}

impl Extreme {
    // The profile of what sends every value of the part to the one at this end. It takes no memory.
    pub(crate) fn profile(self, part: &Tree) -> Profile
        requires formed { IsFormed (expression_of part.now) }
        requires there { HasExtreme (carrier_of (expression_of part.now)) self }
        ensures { result ≡ constant_profile (carrier_of (expression_of part.now))
            (extreme_of (carrier_of (expression_of part.now)) self) }
    {
        let kept = kept_profile(part);
        let flat = kept.narrow;
        Profile {
            mono: match self {
                Extreme::Best => flat,
                Extreme::Worst => true,
            },
            canc: flat,
            cond: true,
            ..kept
        }
    }

    // The value of the part at this end; the best one, where there is no worst.
    pub(crate) fn value(self, alloc: Global, part: &Part<'_>) -> Result<Value, NoMemory>
        ensures { IfOk result (λ v. pure_value v ≡ extreme_of (carrier_of part.now) self) }
    {
        let carrier = part.carrier(alloc)?;
        if let Extreme::Worst = self {
            if let Some(value) = worst(alloc, &carrier)? {
                return Ok(value);
            }
        }
        best(alloc, &carrier)
    }
}

// Whether the carrier has a worst value. It takes no memory.
pub(crate) fn has_worst<C: Shaped>(shaped: &C) -> bool
    ensures { result ≡ has_worst (C.carrier shaped.now) }
{
    match shaped.form() {
        Form::Whole | Form::Seqs(_) => false,
        Form::Pair(c, d) => has_worst(c) && has_worst(d),
        Form::Side(_, d) => has_worst(d),
        Form::UpTo(_)
        | Form::DownFrom(_)
        | Form::SimSeqs(_)
        | Form::Sets(_)
        | Form::One
        | Form::Named(_, _) => true,
    }
}
