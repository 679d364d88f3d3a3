ghost use Rattle.std.specs.Prelude.{◌≡◌, option_map, IfOk, OnOk};
ghost use Rattle.std.specs.List.{AllByRecursion};
ghost use Rattle.alg_model.specs.Carriers.{carrier_of};
ghost use Rattle.alg_model.specs.Expressions.{Expression, union};
ghost use Rattle.alg_model.specs.Expressions as pure;
ghost use Rattle.alg_model.specs.Formation.{IsFormed, IsCarrier};
ghost use Rattle.alg_model.specs.Views.{pure_carrier, pure_label, pure_value};
ghost use Rattle.alg_model.specs.declared.edition.Edition.{Edition};
ghost use Rattle.alg_classes.specs.Classes.{ClassOf, Covers, alg_in};
ghost use Rattle.alg_classes.specs.Growth.{Grown, Only, Over};
ghost use Rattle.union_classes.specs.Made.{IsFirstOf, IsSecondOf, IsValueOf, shown_value};
ghost use Rattle.union_classes.specs.Sums as rule;

use crate::examples::{beside, denied};
use crate::labels::{first_label, second_label};
use crate::{union_first_profile, union_second_profile};
use alg_classes::{Class, ClassList};
use alg_model::{Carrier, Value};
use meta_base::NoMemory;
use std::alloc::Global;

// The class of a union's label of the first side. The value is any of the second side, all of which the label
// sends to none.
fn first_class(alloc: Global, x: &Class, other: &Value) -> Result<Class, NoMemory>
    ensures { IfOk result (IsFirstOf x.now (pure_value other.now)) }
{
    Ok(Class {
        profile: union_first_profile(&x.profile),
        label: first_label(alloc, &x.label)?,
        examples: beside(alloc, &x.examples, &denied(alloc, other)?)?,
    })
}

// The same of the second side, with any value of the first.
fn second_class(alloc: Global, y: &Class, other: &Value) -> Result<Class, NoMemory>
    ensures { IfOk result (IsSecondOf y.now (pure_value other.now)) }
{
    Ok(Class {
        profile: union_second_profile(&y.profile),
        label: second_label(alloc, &y.label)?,
        examples: beside(alloc, &denied(alloc, other)?, &y.examples)?,
    })
}

/// For whoever wants classes with their examples; the program needs none. The class of a union's label of the first
/// side, from that of its part. The carrier is that of the second side. It is refused for want of memory alone.
pub fn union_first_class(alloc: Global, x: &Class, second: &Carrier) -> Result<Class, NoMemory>
    requires { IsCarrier (pure_carrier second.now) }
    ensures label { IfOk result (λ z. pure_label z.label ≡ pure.first_label (pure_label x.now.label)) }
    ensures class { (a b : Expression) (e : Edition) → IsFormed (union a b) → pure_carrier second.now ≡ carrier_of b →
        ClassOf (alg_in a e) x.now → IfOk result (ClassOf (alg_in (union a b) e)) }
{
    first_class(alloc, x, &second.member(alloc)?)
}

/// For whoever wants classes with their examples; the program needs none. The class of a union's label of the second
/// side, from that of its part. The carrier is that of the first side. It is refused for want of memory alone.
pub fn union_second_class(alloc: Global, y: &Class, first: &Carrier) -> Result<Class, NoMemory>
    requires { IsCarrier (pure_carrier first.now) }
    ensures label { IfOk result (λ z. pure_label z.label ≡ pure.second_label (pure_label y.now.label)) }
    ensures class { (a b : Expression) (e : Edition) → IsFormed (union a b) → pure_carrier first.now ≡ carrier_of a →
        ClassOf (alg_in b e) y.now → IfOk result (ClassOf (alg_in (union a b) e)) }
{
    second_class(alloc, y, &first.member(alloc)?)
}

// Adds the class of the first side's label if its profile is new.
fn add_first(
    alloc: Global,
    unions: &mut ClassList,
    x: &Class,
    other: &Value,
) -> Result<(), NoMemory>
    ensures { (a b : Expression) (e : Edition) → IsFormed (union a b) →
        ClassOf (alg_in a e) x.now → IsValueOf (alg_in b e) (pure_value other.now) → OnOk result
        (Grown (ClassOf (alg_in (union a b) e)) (Only (rule.first_profile x.now.profile)) unions.old unions.new) }
{
    if unions.has(&union_first_profile(&x.profile)) {
        return Ok(());
    }
    unions.add(first_class(alloc, x, other)?)
}

// Adds the class of the second side's label if its profile is new.
fn add_second(
    alloc: Global,
    unions: &mut ClassList,
    y: &Class,
    other: &Value,
) -> Result<(), NoMemory>
    ensures { (a b : Expression) (e : Edition) → IsFormed (union a b) →
        ClassOf (alg_in b e) y.now → IsValueOf (alg_in a e) (pure_value other.now) → OnOk result
        (Grown (ClassOf (alg_in (union a b) e)) (Only (rule.second_profile y.now.profile)) unions.old unions.new) }
{
    if unions.has(&union_second_profile(&y.profile)) {
        return Ok(());
    }
    unions.add(second_class(alloc, y, other)?)
}

// Adds those of the first side's labels whose profiles are new.
fn add_firsts(
    alloc: Global,
    unions: &mut ClassList,
    xs: &[Class],
    other: &Value,
) -> Result<(), NoMemory>
    ensures { (a b : Expression) (e : Edition) → IsFormed (union a b) →
        AllByRecursion (ClassOf (alg_in a e)) xs.now → IsValueOf (alg_in b e) (pure_value other.now) → OnOk result
        (Grown (ClassOf (alg_in (union a b) e)) (Over (λ p. Only (rule.first_profile p)) xs.now) unions.old unions.new) }
{
    for x in xs {
        add_first(alloc, unions, x, other)?;
    }
    Ok(())
}

// Adds those of the second side's labels whose profiles are new.
fn add_seconds(
    alloc: Global,
    unions: &mut ClassList,
    ys: &[Class],
    other: &Value,
) -> Result<(), NoMemory>
    ensures { (a b : Expression) (e : Edition) → IsFormed (union a b) →
        AllByRecursion (ClassOf (alg_in b e)) ys.now → IsValueOf (alg_in a e) (pure_value other.now) → OnOk result
        (Grown (ClassOf (alg_in (union a b) e)) (Over (λ q. Only (rule.second_profile q)) ys.now) unions.old unions.new) }
{
    for y in ys {
        add_second(alloc, unions, y, other)?;
    }
    Ok(())
}

// A value at which the first class's label has an image, or else one at which it has none.
fn shown_value(classes: &[Class]) -> Option<&Value>
    ensures { option_map (λ v. v.now) result ≡ shown_value classes.now }
{
    let [class, ..] = classes else {
        return None;
    };
    match (&class.examples.inside, &class.examples.outside) {
        (Some(value), _) | (None, Some(value)) => Some(value),
        (None, None) => None,
    }
}

/// For whoever wants all classes of an algebra; the program takes labels by their profiles. The classes of a union's
/// labels, from those of its parts. They are refused for want of memory alone.
pub fn union_class_list(alloc: Global, a: &ClassList, b: &ClassList) -> Result<ClassList, NoMemory>
    ensures { (c d : Expression) (e : Edition) → IsFormed (union c d) →
        Covers (alg_in c e) a.now → Covers (alg_in d e) b.now → IfOk result (Covers (alg_in (union c d) e)) }
{
    let xs = a.classes();
    let ys = b.classes();
    let mut unions = ClassList::new(alloc);
    // Classes that cover show a value, as no carrier is empty.
    let Some(u) = shown_value(xs) else {
        return Ok(unions);
    };
    let Some(v) = shown_value(ys) else {
        return Ok(unions);
    };
    add_firsts(alloc, &mut unions, xs, v)?;
    add_seconds(alloc, &mut unions, ys, u)?;
    Ok(unions)
}
