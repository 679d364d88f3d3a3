ghost use Rattle.std.specs.Prelude.{◌≡◌, IfOk, OnOk};
ghost use Rattle.alg_model.specs.Bounds.{AtMost, ExpressionAtMost, greatest_number};
ghost use Rattle.alg_model.specs.Carriers.{carrier_of, In};
ghost use Rattle.alg_model.specs.Expressions.{Expression, left};
ghost use Rattle.alg_model.specs.Expressions as pure;
ghost use Rattle.alg_model.specs.Formation.{IsFormed, IsCarrier};
ghost use Rattle.alg_model.specs.Views.{pure_carrier, pure_label, pure_value};
ghost use Rattle.alg_model.specs.declared.edition.Edition.{Edition};
ghost use Rattle.alg_model.specs.declared.edition.TheConstants.{MAX_LABEL_NUMBER};
ghost use Rattle.alg_classes.specs.Classes.{ClassOf, Covers, alg_in};
ghost use Rattle.alg_classes.specs.Constants.{constant_profile};
ghost use Rattle.alg_classes.specs.Growth.{Grown, Only};
ghost use Rattle.alg_classes.specs.Profiles.{ProfileOf};
ghost use Rattle.union_classes.specs.Made.{OfConstants};

use alg_classes::{Class, ClassList, Profile, best, constant_examples, constant_profile, worst};
use alg_model::{Carrier, Label, Shaped, Value};
use meta_base::NoMemory;
use std::alloc::Global;

/// The profile of a left product's label, which sends every value to this one. The carrier is that of its
/// part. It takes no memory.
pub fn const_profile<C: Shaped>(shaped: &C, value: &Value) -> Profile
    ensures rule { result ≡ constant_profile (C.carrier shaped.now) (pure_value value.now) }
    ensures exact { (a : Expression) → IsFormed (left a) → C.carrier shaped.now ≡ carrier_of a →
        In (carrier_of a) (pure_value value.now) → ProfileOf (left a) (pure.const_label (pure_value value.now)) result }
{
    constant_profile(shaped, value)
}

fn const_label(alloc: Global, value: &Value) -> Result<Label, NoMemory>
    ensures { IfOk result (λ label. pure_label label ≡ pure.const_label (pure_value value.now)) }
{
    Ok(Label::Const(value.copy(alloc)?))
}

/// For whoever wants classes with their examples; the program needs none. The class of a left product's label, which
/// sends every value to this one. The carrier is that of its part. It is refused for want of memory alone.
pub fn const_class(alloc: Global, carrier: &Carrier, value: &Value) -> Result<Class, NoMemory>
    requires carrier { IsCarrier (pure_carrier carrier.now) }
    requires value { In (pure_carrier carrier.now) (pure_value value.now) }
    requires small { AtMost MAX_LABEL_NUMBER (pure_value value.now) }
    ensures profile { IfOk result (λ class.
        class.profile ≡ constant_profile (pure_carrier carrier.now) (pure_value value.now)) }
    ensures label { IfOk result (λ class. pure_label class.label ≡ pure.const_label (pure_value value.now)) }
    ensures class { (a : Expression) (e : Edition) → pure_carrier carrier.now ≡ carrier_of a →
        AtMost (greatest_number e) (pure_value value.now) → IfOk result (ClassOf (alg_in (left a) e)) }
{
    Ok(Class {
        profile: const_profile(carrier, value),
        label: const_label(alloc, value)?,
        examples: constant_examples(alloc, carrier, value)?,
    })
}

// Adds the class of the label of this value, unless its profile is there: then it isn't made.
fn add_const(
    alloc: Global,
    lefts: &mut ClassList,
    carrier: &Carrier,
    value: &Value,
) -> Result<(), NoMemory>
    requires carrier { IsCarrier (pure_carrier carrier.now) }
    requires value { In (pure_carrier carrier.now) (pure_value value.now) }
    requires small { AtMost MAX_LABEL_NUMBER (pure_value value.now) }
    ensures { (a : Expression) (e : Edition) → pure_carrier carrier.now ≡ carrier_of a →
        AtMost (greatest_number e) (pure_value value.now) → OnOk result
        (Grown (ClassOf (alg_in (left a) e))
        (Only (constant_profile (pure_carrier carrier.now) (pure_value value.now))) lefts.old lefts.new) }
{
    if lefts.has(&const_profile(carrier, value)) {
        return Ok(());
    }
    lefts.add(const_class(alloc, carrier, value)?)
}

// Adds the classes of all the labels. There are as many as the carrier has values, but two do: only whether a
// value has a worse one tells in the profile.
fn add_consts(alloc: Global, lefts: &mut ClassList, carrier: &Carrier) -> Result<(), NoMemory>
    requires { IsCarrier (pure_carrier carrier.now) }
    ensures { (a : Expression) (e : Edition) → ExpressionAtMost (greatest_number e) a →
        pure_carrier carrier.now ≡ carrier_of a → OnOk result
        (Grown (ClassOf (alg_in (left a) e)) (OfConstants (pure_carrier carrier.now)) lefts.old lefts.new) }
{
    add_const(alloc, lefts, carrier, &best(alloc, carrier)?)?;
    match worst(alloc, carrier)? {
        Some(value) => add_const(alloc, lefts, carrier, &value),
        None => Ok(()),
    }
}

/// The classes of a left product's labels: those that send every value to a best one, and to a worst one if
/// there is one; only whether a value has a worse one tells in the profile. The carrier is that of its part.
/// They are refused for want of memory alone.
pub fn left_class_list(alloc: Global, carrier: &Carrier) -> Result<ClassList, NoMemory>
    requires { IsCarrier (pure_carrier carrier.now) }
    ensures { (a : Expression) (e : Edition) → ExpressionAtMost (greatest_number e) a →
        pure_carrier carrier.now ≡ carrier_of a → IfOk result (Covers (alg_in (left a) e)) }
{
    let mut lefts = ClassList::new(alloc);
    add_consts(alloc, &mut lefts, carrier)?;
    Ok(lefts)
}
