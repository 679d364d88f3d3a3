ghost use Rattle.std.specs.Prelude.{◌≡◌, IfOk, OnOk};
ghost use Rattle.std.specs.List.{AllByRecursion};
ghost use Rattle.alg_model.specs.Expressions.{Expression, plus};
ghost use Rattle.alg_model.specs.Expressions as pure;
ghost use Rattle.alg_model.specs.Formation.{IsFormed};
ghost use Rattle.alg_model.specs.Views.{pure_label};
ghost use Rattle.alg_model.specs.declared.edition.Edition.{Edition};
ghost use Rattle.alg_classes.specs.Classes.{ClassOf, Covers, alg_in};
ghost use Rattle.alg_classes.specs.Growth.{Grown, Only, Over};

use crate::copying::copy_examples;
use crate::labels::{first_label, second_label};
use alg_classes::{Class, ClassList};
use meta_base::NoMemory;
use std::alloc::Global;

/// For whoever wants classes with their examples; the program needs none. The class of a plus's label of the first
/// algebra, from that of its part. It is refused for want of memory alone.
pub fn plus_first_class(alloc: Global, x: &Class) -> Result<Class, NoMemory>
    ensures profile { IfOk result (λ z. z.profile ≡ x.now.profile) }
    ensures label { IfOk result (λ z. pure_label z.label ≡ pure.first_label (pure_label x.now.label)) }
    ensures class { (a b : Expression) (e : Edition) → IsFormed (plus a b) →
        ClassOf (alg_in a e) x.now → IfOk result (ClassOf (alg_in (plus a b) e)) }
{
    Ok(Class {
        profile: x.profile,
        label: first_label(alloc, &x.label)?,
        examples: copy_examples(alloc, &x.examples)?,
    })
}

/// For whoever wants classes with their examples; the program needs none. The class of a plus's label of the second
/// algebra, from that of its part. It is refused for want of memory alone.
pub fn plus_second_class(alloc: Global, y: &Class) -> Result<Class, NoMemory>
    ensures profile { IfOk result (λ z. z.profile ≡ y.now.profile) }
    ensures label { IfOk result (λ z. pure_label z.label ≡ pure.second_label (pure_label y.now.label)) }
    ensures class { (a b : Expression) (e : Edition) → IsFormed (plus a b) →
        ClassOf (alg_in b e) y.now → IfOk result (ClassOf (alg_in (plus a b) e)) }
{
    Ok(Class {
        profile: y.profile,
        label: second_label(alloc, &y.label)?,
        examples: copy_examples(alloc, &y.examples)?,
    })
}

// Adds the class of the first algebra's label if its profile is new.
fn add_first(alloc: Global, pluses: &mut ClassList, x: &Class) -> Result<(), NoMemory>
    ensures { (a b : Expression) (e : Edition) → IsFormed (plus a b) → ClassOf (alg_in a e) x.now → OnOk result
        (Grown (ClassOf (alg_in (plus a b) e)) (Only x.now.profile) pluses.old pluses.new) }
{
    if pluses.has(&x.profile) {
        return Ok(());
    }
    pluses.add(plus_first_class(alloc, x)?)
}

// Adds the class of the second algebra's label if its profile is new.
fn add_second(alloc: Global, pluses: &mut ClassList, y: &Class) -> Result<(), NoMemory>
    ensures { (a b : Expression) (e : Edition) → IsFormed (plus a b) → ClassOf (alg_in b e) y.now → OnOk result
        (Grown (ClassOf (alg_in (plus a b) e)) (Only y.now.profile) pluses.old pluses.new) }
{
    if pluses.has(&y.profile) {
        return Ok(());
    }
    pluses.add(plus_second_class(alloc, y)?)
}

// Adds those of the first algebra's labels whose profiles are new.
fn add_firsts(alloc: Global, pluses: &mut ClassList, xs: &[Class]) -> Result<(), NoMemory>
    ensures { (a b : Expression) (e : Edition) → IsFormed (plus a b) →
        AllByRecursion (ClassOf (alg_in a e)) xs.now → OnOk result
        (Grown (ClassOf (alg_in (plus a b) e)) (Over Only xs.now) pluses.old pluses.new) }
{
    for x in xs {
        add_first(alloc, pluses, x)?;
    }
    Ok(())
}

// Adds those of the second algebra's labels whose profiles are new.
fn add_seconds(alloc: Global, pluses: &mut ClassList, ys: &[Class]) -> Result<(), NoMemory>
    ensures { (a b : Expression) (e : Edition) → IsFormed (plus a b) →
        AllByRecursion (ClassOf (alg_in b e)) ys.now → OnOk result
        (Grown (ClassOf (alg_in (plus a b) e)) (Over Only ys.now) pluses.old pluses.new) }
{
    for y in ys {
        add_second(alloc, pluses, y)?;
    }
    Ok(())
}

/// For whoever wants all classes of an algebra; the program takes labels by their profiles. The classes of a plus's
/// labels, from those of its parts. They are refused for want of memory alone.
pub fn plus_class_list(alloc: Global, a: &ClassList, b: &ClassList) -> Result<ClassList, NoMemory>
    ensures { (c d : Expression) (e : Edition) → IsFormed (plus c d) →
        Covers (alg_in c e) a.now → Covers (alg_in d e) b.now → IfOk result (Covers (alg_in (plus c d) e)) }
{
    let mut pluses = ClassList::new(alloc);
    add_firsts(alloc, &mut pluses, a.classes())?;
    add_seconds(alloc, &mut pluses, b.classes())?;
    Ok(pluses)
}
