ghost use Rattle.std.specs.Prelude.{IfOk, OnOk};
ghost use Rattle.std.specs.List.{AllByRecursion};
ghost use Rattle.alg_model.specs.Expressions.{Expression, sum};
ghost use Rattle.alg_model.specs.Formation.{IsFormed};
ghost use Rattle.alg_model.specs.declared.edition.Edition.{Edition};
ghost use Rattle.alg_classes.specs.Classes.{ClassOf, Covers, alg_in};
ghost use Rattle.alg_classes.specs.Growth.{Grown, Only, Over};
ghost use Rattle.union_classes.specs.Made.{IsSumOf};
ghost use Rattle.union_classes.specs.Sums.{beside_profile};

use crate::examples::beside;
use crate::labels::both_label;
use crate::sum_profile;
use alg_classes::{Class, ClassList};
use meta_base::NoMemory;
use std::alloc::Global;

/// For whoever wants classes with their examples; the program needs none. The class of a sum's label, from those of its
/// parts. It is refused for want of memory alone.
pub fn sum_class(alloc: Global, x: &Class, y: &Class) -> Result<Class, NoMemory>
    ensures made { IfOk result (IsSumOf x.now y.now) }
    ensures class { (a b : Expression) (e : Edition) → IsFormed (sum a b) →
        ClassOf (alg_in a e) x.now → ClassOf (alg_in b e) y.now → IfOk result (ClassOf (alg_in (sum a b) e)) }
{
    Ok(Class {
        profile: sum_profile(&x.profile, &y.profile),
        label: both_label(alloc, &x.label, &y.label)?,
        examples: beside(alloc, &x.examples, &y.examples)?,
    })
}

// Adds the class of the sum's label of both if its profile is new.
fn add_sum(alloc: Global, sums: &mut ClassList, x: &Class, y: &Class) -> Result<(), NoMemory>
    ensures { (a b : Expression) (e : Edition) → IsFormed (sum a b) →
        ClassOf (alg_in a e) x.now → ClassOf (alg_in b e) y.now → OnOk result
        (Grown (ClassOf (alg_in (sum a b) e)) (Only (beside_profile x.now.profile y.now.profile)) sums.old sums.new) }
{
    if sums.has(&sum_profile(&x.profile, &y.profile)) {
        return Ok(());
    }
    sums.add(sum_class(alloc, x, y)?)
}

// Adds those of this class with each of the second part whose profiles are new.
fn add_sums(alloc: Global, sums: &mut ClassList, x: &Class, ys: &[Class]) -> Result<(), NoMemory>
    ensures { (a b : Expression) (e : Edition) → IsFormed (sum a b) →
        ClassOf (alg_in a e) x.now → AllByRecursion (ClassOf (alg_in b e)) ys.now → OnOk result
        (Grown (ClassOf (alg_in (sum a b) e)) (Over (λ q. Only (beside_profile x.now.profile q)) ys.now) sums.old sums.new) }
{
    for y in ys {
        add_sum(alloc, sums, x, y)?;
    }
    Ok(())
}

/// For whoever wants all classes of an algebra; the program takes labels by their profiles. The classes of a sum's
/// labels, from those of its parts. They are refused for want of memory alone.
pub fn sum_class_list(alloc: Global, a: &ClassList, b: &ClassList) -> Result<ClassList, NoMemory>
    ensures { (c d : Expression) (e : Edition) → IsFormed (sum c d) →
        Covers (alg_in c e) a.now → Covers (alg_in d e) b.now → IfOk result (Covers (alg_in (sum c d) e)) }
{
    let ys = b.classes();
    let mut sums = ClassList::new(alloc);
    for x in a.classes() {
        add_sums(alloc, &mut sums, x, ys)?;
    }
    Ok(sums)
}
