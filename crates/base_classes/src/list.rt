ghost use Rattle.std.specs.Prelude.{◌≡◌, ℕ, ◌+◌, IfNone, IfOk, IfSome, OnOk};
ghost use Rattle.alg_model.specs.Application.{IsLabel};
ghost use Rattle.alg_model.specs.Views.{pure_label};
ghost use Rattle.alg_model.specs.Forms.{IsBase};
ghost use Rattle.alg_classes.specs.Classes.{Covers};
ghost use Rattle.base_classes.specs.Lists.{candidate, HasBefore};

use crate::class::base_class;
use crate::profile::{base_candidate, base_profile};
use alg_classes::ClassList;
use alg_model::{Alg, Label};
use meta_base::NoMemory;
use std::alloc::Global;

/// How many labels of a base algebra are tried: the facts depend on how a number compares with 0 and the top alone.
pub const BASE_CANDIDATES: usize = 4;

/// For whoever wants all classes of an algebra; the program takes labels by their profiles. The classes of the labels
/// of a base algebra, one for each profile that a label has. It is refused for want of memory alone.
///
/// The algebra's root is a base algebra other than a table.
pub fn base_class_list(alloc: Global, alg: &Alg) -> Result<ClassList, NoMemory>
    requires { IsBase alg.now.expression }
    ensures { IfOk result (Covers alg.now) }
{
    let tree = alg.tree();
    let mut list = ClassList::new(alloc);
    for place in 0..BASE_CANDIDATES {
        add_class(alloc, alg, base_candidate(tree, place), &mut list)?;
    }
    Ok(list)
}

// Adds the class of the label, if there is one and its profile is new.
fn add_class(
    alloc: Global,
    alg: &Alg,
    label: Option<Label>,
    list: &mut ClassList,
) -> Result<(), NoMemory>
    requires base { IsBase alg.now.expression }
    requires label { IfSome label (λ l. IsLabel alg.now.expression (pure_label l)) }
    ensures { (place : ℕ) → IfSome label (λ l. pure_label l ≡ candidate alg.now.expression place) →
        IfNone label (¬ IsLabel alg.now.expression (candidate alg.now.expression place)) →
        HasBefore alg.now place list.old → OnOk result (HasBefore alg.now (place + 1) list.new) }
{
    let Some(label) = label else {
        return Ok(());
    };
    if list.has(&base_profile(alg, &label)) {
        return Ok(());
    }
    list.add(base_class(alloc, alg, &label)?)
}
