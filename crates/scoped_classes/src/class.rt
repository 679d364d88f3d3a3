ghost use Rattle.std.specs.Prelude.{◌≡◌, IfOk};
ghost use Rattle.alg_model.specs.Bounds.{AtMost, greatest_number};
ghost use Rattle.alg_model.specs.Carriers.{carrier_of, In};
ghost use Rattle.alg_model.specs.Expressions.{Expression, scoped};
ghost use Rattle.alg_model.specs.Expressions as pure;
ghost use Rattle.alg_model.specs.Formation.{IsFormed, IsCarrier};
ghost use Rattle.alg_model.specs.Views.{pure_carrier, pure_label, pure_value};
ghost use Rattle.alg_model.specs.declared.edition.Edition.{Edition};
ghost use Rattle.alg_model.specs.declared.edition.TheConstants.{MAX_LABEL_NUMBER};
ghost use Rattle.alg_classes.specs.Classes.{ClassOf, alg_in};
ghost use Rattle.scoped_classes.specs.Scoped as rule;

use alg_classes::{
    Class, Profile, constant_examples, constant_profile, kept_examples, kept_profile,
    pair_examples, pair_profile,
};
use alg_model::{Carrier, Label, Shaped, Value};
use meta_base::NoMemory;
use std::alloc::Global;

/// The profile of a scoped label that acts on the first part by a label with this profile, and sets the
/// second part, of this carrier, to the value. It takes no memory.
#[tactic(auto, using(crate::specs::ScopedLaws::outer_rule_is_exact))]
pub fn outer_profile<C: Shaped>(x: &Profile, second: &C, value: &Value) -> Profile
    ensures rule { result ≡ rule.outer_rule (C.carrier second.now) (pure_value value.now) x.now }
    ensures exact { rule.IsOuterProfile (C.carrier second.now) (pure_value value.now) x.now result }
{
    pair_profile(x, &constant_profile(second, value))
}

/// The profile of a scoped label that keeps the first part, of this carrier, and acts on the second by a
/// label with this profile. It takes no memory.
#[tactic(auto, using(crate::specs::ScopedLaws::inner_rule_is_exact))]
pub fn inner_profile<C: Shaped>(first: &C, y: &Profile) -> Profile
    ensures rule { result ≡ rule.inner_rule (C.carrier first.now) y.now }
    ensures exact { rule.IsInnerProfile (C.carrier first.now) y.now result }
{
    pair_profile(&kept_profile(first), y)
}

/// For whoever wants classes with their examples; the program needs none. The class of a scoped label that acts on the
/// first part as the class's label does, and sets the second part, of this carrier, to the value. It is refused for
/// want of memory alone.
pub fn outer_class(
    alloc: Global,
    x: &Class,
    second: &Carrier,
    value: &Value,
) -> Result<Class, NoMemory>
    requires carrier { IsCarrier (pure_carrier second.now) }
    requires value { In (pure_carrier second.now) (pure_value value.now) }
    requires small { AtMost MAX_LABEL_NUMBER (pure_value value.now) }
    ensures profile { IfOk result (λ z.
        z.profile ≡ rule.outer_rule (pure_carrier second.now) (pure_value value.now) x.now.profile) }
    ensures label { IfOk result (λ z.
        pure_label z.label ≡ pure.outer (pure_label x.now.label) (pure_value value.now)) }
    ensures class { (a b : Expression) (e : Edition) → IsFormed (scoped a b) → pure_carrier second.now ≡ carrier_of b →
        AtMost (greatest_number e) (pure_value value.now) → ClassOf (alg_in a e) x.now →
        IfOk result (ClassOf (alg_in (scoped a b) e)) }
{
    let set = constant_examples(alloc, second, value)?;
    Ok(Class {
        profile: outer_profile(&x.profile, second, value),
        label: outer_label(alloc, &x.label, value)?,
        examples: pair_examples(alloc, &x.examples, &set)?,
    })
}

/// For whoever wants classes with their examples; the program needs none. The class of a scoped label that keeps the
/// first part, of this carrier, and acts on the second as the class's label does. It is refused for want of memory
/// alone.
pub fn inner_class(alloc: Global, first: &Carrier, y: &Class) -> Result<Class, NoMemory>
    requires { IsCarrier (pure_carrier first.now) }
    ensures profile { IfOk result (λ z. z.profile ≡ rule.inner_rule (pure_carrier first.now) y.now.profile) }
    ensures label { IfOk result (λ z. pure_label z.label ≡ pure.inner (pure_label y.now.label)) }
    ensures class { (a b : Expression) (e : Edition) → IsFormed (scoped a b) → pure_carrier first.now ≡ carrier_of a →
        ClassOf (alg_in b e) y.now → IfOk result (ClassOf (alg_in (scoped a b) e)) }
{
    let kept = kept_examples(alloc, first)?;
    Ok(Class {
        profile: inner_profile(first, &y.profile),
        label: inner_label(alloc, &y.label)?,
        examples: pair_examples(alloc, &kept, &y.examples)?,
    })
}

fn outer_label(alloc: Global, l: &Label, value: &Value) -> Result<Label, NoMemory>
    ensures { IfOk result (λ k. pure_label k ≡ pure.outer (pure_label l.now) (pure_value value.now)) }
{
    Ok(Label::Outer(Box::new(alloc, l.copy(alloc)?)?, value.copy(alloc)?))
}

fn inner_label(alloc: Global, m: &Label) -> Result<Label, NoMemory>
    ensures { IfOk result (λ k. pure_label k ≡ pure.inner (pure_label m.now)) }
{
    Ok(Label::Inner(Box::new(alloc, m.copy(alloc)?)?))
}
