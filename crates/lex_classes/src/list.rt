ghost use Rattle.std.specs.Prelude.{IfOk, OnOk};
ghost use Rattle.std.specs.List.{AllByRecursion};
ghost use Rattle.alg_model.specs.Expressions.{Expression, lex};
ghost use Rattle.alg_model.specs.Formation.{IsFormed};
ghost use Rattle.alg_model.specs.declared.edition.Edition.{Edition};
ghost use Rattle.alg_classes.specs.Classes.{ClassOf, Covers, alg_in};
ghost use Rattle.alg_classes.specs.Growth.{Grown, Only};
ghost use Rattle.alg_classes.specs.Pairs as rule;
ghost use Rattle.lex_classes.specs.Lexical.{WithEach};

use crate::{lex_class, lex_profile};
use alg_classes::{Class, ClassList};
use meta_base::NoMemory;
use std::alloc::Global;

/// For whoever wants all classes of an algebra; the program takes labels by their profiles. The classes of a lexical
/// product from those of its two algebras: one for each profile that a pair of their labels has. It is refused for want
/// of memory alone.
pub fn lex_class_list(alloc: Global, a: &ClassList, b: &ClassList) -> Result<ClassList, NoMemory>
    ensures { (c d : Expression) (e : Edition) → IsFormed (lex c d) →
        Covers (alg_in c e) a.now → Covers (alg_in d e) b.now → IfOk result (Covers (alg_in (lex c d) e)) }
{
    let mut list = ClassList::new(alloc);
    for x in a.classes() {
        add_pairs(alloc, &mut list, x, b.classes())?;
    }
    Ok(list)
}

// Adds the classes of all pairs that begin with this one.
fn add_pairs(alloc: Global, list: &mut ClassList, x: &Class, ys: &[Class]) -> Result<(), NoMemory>
    ensures { (a b : Expression) (e : Edition) → IsFormed (lex a b) →
        ClassOf (alg_in a e) x.now → AllByRecursion (ClassOf (alg_in b e)) ys.now → OnOk result
        (Grown (ClassOf (alg_in (lex a b) e)) (WithEach ys.now x.now.profile) list.old list.new) }
{
    for y in ys {
        add_pair(alloc, list, x, y)?;
    }
    Ok(())
}

// Adds the class of the pair, unless its profile is there: then it isn't made.
fn add_pair(alloc: Global, list: &mut ClassList, x: &Class, y: &Class) -> Result<(), NoMemory>
    ensures { (a b : Expression) (e : Edition) → IsFormed (lex a b) →
        ClassOf (alg_in a e) x.now → ClassOf (alg_in b e) y.now → OnOk result
        (Grown (ClassOf (alg_in (lex a b) e)) (Only (rule.pair_profile x.now.profile y.now.profile)) list.old list.new) }
{
    if list.has(&lex_profile(&x.profile, &y.profile)) {
        return Ok(());
    }
    list.add(lex_class(alloc, x, y)?)
}
