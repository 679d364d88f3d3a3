ghost use Rattle.std.specs.Prelude.{◌≡◌, IfOk};
ghost use Rattle.alg_model.specs.Carriers.{carrier_of};
ghost use Rattle.alg_model.specs.Expressions.{Expression, right, keep};
ghost use Rattle.alg_model.specs.Formation.{IsFormed, IsCarrier};
ghost use Rattle.alg_model.specs.Views.{pure_carrier, pure_label};
ghost use Rattle.alg_model.specs.declared.edition.Edition.{Edition};
ghost use Rattle.alg_classes.specs.Classes.{ClassOf, Covers, alg_in};
ghost use Rattle.alg_classes.specs.Constants.{kept_profile};
ghost use Rattle.alg_classes.specs.Profiles.{ProfileOf};

use alg_classes::{Class, ClassList, Profile, kept_examples, kept_profile};
use alg_model::{Carrier, Label, Shaped};
use meta_base::NoMemory;
use std::alloc::Global;

/// The profile of a right product's label, which keeps every value. The carrier is that of its part. It takes
/// no memory.
pub fn keep_profile<C: Shaped>(shaped: &C) -> Profile
    ensures rule { result ≡ kept_profile (C.carrier shaped.now) }
    ensures exact { (a : Expression) → IsFormed (right a) → C.carrier shaped.now ≡ carrier_of a →
        ProfileOf (right a) keep result }
{
    kept_profile(shaped)
}

/// For whoever wants classes with their examples; the program needs none. The class of a right product's label, which
/// keeps every value. The carrier is that of its part. It is refused for want of memory alone.
pub fn keep_class(alloc: Global, carrier: &Carrier) -> Result<Class, NoMemory>
    requires { IsCarrier (pure_carrier carrier.now) }
    ensures label { IfOk result (λ class. pure_label class.label ≡ keep) }
    ensures class { (a : Expression) (e : Edition) → pure_carrier carrier.now ≡ carrier_of a →
        IfOk result (ClassOf (alg_in (right a) e)) }
{
    Ok(Class {
        profile: keep_profile(carrier),
        label: Label::Keep,
        examples: kept_examples(alloc, carrier)?,
    })
}

/// The classes of a right product's labels: that of its one label. The carrier is that of its part. They are
/// refused for want of memory alone.
pub fn right_class_list(alloc: Global, carrier: &Carrier) -> Result<ClassList, NoMemory>
    requires { IsCarrier (pure_carrier carrier.now) }
    ensures { (a : Expression) (e : Edition) → pure_carrier carrier.now ≡ carrier_of a →
        IfOk result (Covers (alg_in (right a) e)) }
{
    let mut rights = ClassList::new(alloc);
    rights.add(keep_class(alloc, carrier)?)?;
    Ok(rights)
}
