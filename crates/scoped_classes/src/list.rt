ghost use Rattle.std.specs.Prelude.{◌≡◌, IfOk, OnOk};
ghost use Rattle.std.specs.List.{AllByRecursion};
ghost use Rattle.alg_model.specs.Bounds.{AtMost, ExpressionAtMost, greatest_number};
ghost use Rattle.alg_model.specs.Carriers.{carrier_of, In};
ghost use Rattle.alg_model.specs.Expressions.{Expression, scoped};
ghost use Rattle.alg_model.specs.Formation.{IsFormed, IsCarrier};
ghost use Rattle.alg_model.specs.Views.{pure_carrier, pure_value};
ghost use Rattle.alg_model.specs.declared.edition.Edition.{Edition};
ghost use Rattle.alg_model.specs.declared.edition.TheConstants.{MAX_LABEL_NUMBER};
ghost use Rattle.alg_classes.specs.Classes.{ClassOf, Covers, alg_in};
ghost use Rattle.alg_classes.specs.Growth.{Grown, Only, Over};
ghost use Rattle.scoped_classes.specs.Scoped.{OfOuters};
ghost use Rattle.scoped_classes.specs.Scoped as rule;

use crate::{inner_class, inner_profile, outer_class, outer_profile};
use alg_classes::{Class, ClassList, best, worst};
use alg_model::{Carrier, Value};
use meta_base::NoMemory;
use std::alloc::Global;

/// For whoever wants all classes of an algebra; the program takes labels by their profiles. The classes of a scoped
/// product from those of its two algebras, whose carriers are given: one for each profile that a label of it has. It is
/// refused for want of memory alone.
pub fn scoped_class_list(
    alloc: Global,
    a: &ClassList,
    b: &ClassList,
    first: &Carrier,
    second: &Carrier,
) -> Result<ClassList, NoMemory>
    requires first { IsCarrier (pure_carrier first.now) }
    requires second { IsCarrier (pure_carrier second.now) }
    ensures { (c d : Expression) (e : Edition) → IsFormed (scoped c d) → ExpressionAtMost (greatest_number e) d →
        pure_carrier first.now ≡ carrier_of c → pure_carrier second.now ≡ carrier_of d →
        Covers (alg_in c e) a.now → Covers (alg_in d e) b.now → IfOk result (Covers (alg_in (scoped c d) e)) }
{
    let mut list = ClassList::new(alloc);
    add_outers(alloc, &mut list, a.classes(), second)?;
    add_inners(alloc, &mut list, first, b.classes())?;
    Ok(list)
}

// Adds the classes of the labels that set the second part. There are as many as it has values, but two do:
// only whether a value has a worse one tells in the profile.
fn add_outers(
    alloc: Global,
    list: &mut ClassList,
    xs: &[Class],
    second: &Carrier,
) -> Result<(), NoMemory>
    requires { IsCarrier (pure_carrier second.now) }
    ensures { (a b : Expression) (e : Edition) → IsFormed (scoped a b) → ExpressionAtMost (greatest_number e) b →
        pure_carrier second.now ≡ carrier_of b → AllByRecursion (ClassOf (alg_in a e)) xs.now → OnOk result
        (Grown (ClassOf (alg_in (scoped a b) e)) (Over (OfOuters (pure_carrier second.now)) xs.now) list.old list.new) }
{
    add_outers_to(alloc, list, xs, second, &best(alloc, second)?)?;
    match worst(alloc, second)? {
        Some(value) => add_outers_to(alloc, list, xs, second, &value),
        None => Ok(()),
    }
}

// Adds the classes of those that set it to the value.
fn add_outers_to(
    alloc: Global,
    list: &mut ClassList,
    xs: &[Class],
    second: &Carrier,
    value: &Value,
) -> Result<(), NoMemory>
    requires carrier { IsCarrier (pure_carrier second.now) }
    requires value { In (pure_carrier second.now) (pure_value value.now) }
    requires small { AtMost MAX_LABEL_NUMBER (pure_value value.now) }
    ensures { (a b : Expression) (e : Edition) → IsFormed (scoped a b) → pure_carrier second.now ≡ carrier_of b →
        AtMost (greatest_number e) (pure_value value.now) → AllByRecursion (ClassOf (alg_in a e)) xs.now → OnOk result
        (Grown (ClassOf (alg_in (scoped a b) e))
        (Over (λ p. Only (rule.outer_rule (pure_carrier second.now) (pure_value value.now) p)) xs.now)
        list.old list.new) }
{
    for x in xs {
        add_outer(alloc, list, x, second, value)?;
    }
    Ok(())
}

// Adds one of them, unless its profile is there: then it isn't made.
fn add_outer(
    alloc: Global,
    list: &mut ClassList,
    x: &Class,
    second: &Carrier,
    value: &Value,
) -> Result<(), NoMemory>
    requires carrier { IsCarrier (pure_carrier second.now) }
    requires value { In (pure_carrier second.now) (pure_value value.now) }
    requires small { AtMost MAX_LABEL_NUMBER (pure_value value.now) }
    ensures { (a b : Expression) (e : Edition) → IsFormed (scoped a b) → pure_carrier second.now ≡ carrier_of b →
        AtMost (greatest_number e) (pure_value value.now) → ClassOf (alg_in a e) x.now → OnOk result
        (Grown (ClassOf (alg_in (scoped a b) e))
        (Only (rule.outer_rule (pure_carrier second.now) (pure_value value.now) x.now.profile)) list.old list.new) }
{
    if list.has(&outer_profile(&x.profile, second, value)) {
        return Ok(());
    }
    list.add(outer_class(alloc, x, second, value)?)
}

// Adds the classes of the labels that keep the first part.
fn add_inners(
    alloc: Global,
    list: &mut ClassList,
    first: &Carrier,
    ys: &[Class],
) -> Result<(), NoMemory>
    requires { IsCarrier (pure_carrier first.now) }
    ensures { (a b : Expression) (e : Edition) → IsFormed (scoped a b) → pure_carrier first.now ≡ carrier_of a →
        AllByRecursion (ClassOf (alg_in b e)) ys.now → OnOk result
        (Grown (ClassOf (alg_in (scoped a b) e))
        (Over (λ q. Only (rule.inner_rule (pure_carrier first.now) q)) ys.now) list.old list.new) }
{
    for y in ys {
        add_inner(alloc, list, first, y)?;
    }
    Ok(())
}

// Adds one of them, unless its profile is there: then it isn't made.
fn add_inner(
    alloc: Global,
    list: &mut ClassList,
    first: &Carrier,
    y: &Class,
) -> Result<(), NoMemory>
    requires { IsCarrier (pure_carrier first.now) }
    ensures { (a b : Expression) (e : Edition) → IsFormed (scoped a b) → pure_carrier first.now ≡ carrier_of a →
        ClassOf (alg_in b e) y.now → OnOk result
        (Grown (ClassOf (alg_in (scoped a b) e))
        (Only (rule.inner_rule (pure_carrier first.now) y.now.profile)) list.old list.new) }
{
    if list.has(&inner_profile(first, &y.profile)) {
        return Ok(());
    }
    list.add(inner_class(alloc, first, y)?)
}
