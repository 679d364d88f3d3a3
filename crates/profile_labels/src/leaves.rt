// The labels of an algebra that has no parts.
ghost use Rattle.std.specs.Prelude.{◌+◌, IfOk, OnOk};
ghost use Rattle.alg_classes.specs.Classes.{alg_in};
ghost use Rattle.alg_model.specs.Formation.{IsAlg, MeetsRanges};
ghost use Rattle.alg_model.specs.Views.{expression_of};
ghost use Rattle.alg_model.specs.declared.edition.Edition.{Edition};
ghost use Rattle.alg_model.specs.Forms.{IsBase};
ghost use Rattle.base_classes.specs.Lists.{candidate};
ghost use Rattle.profile_labels.specs.Outlines.{CoversBy};
ghost use Rattle.profile_labels.specs.Places.{HasBefore};
ghost use Rattle.table_classes.specs.Rows.{IsTable};

use crate::outlined::{Outlined, add_label};
use alg_model::{Label, Tree};
use base_classes::{BASE_CANDIDATES, base_candidate, base_tree_profile};
use meta_base::{List, NoMemory};
use std::alloc::Global;
use table_classes::{table_row_count, table_tree_profile};

// The labels of a table, by its rows.
pub(crate) fn labels_of_table<'a>(
    alloc: Global,
    tree: &Tree,
) -> Result<List<Outlined<'a>>, NoMemory>
    requires table { IsTable (expression_of tree.now) }
    requires ranges { MeetsRanges (expression_of tree.now) }
    ensures { (e : Edition) → IfOk result (CoversBy (alg_in (expression_of tree.now) e)) }
{
    let mut list = List::new(alloc);
    for place in 0..table_row_count(tree) {
        let label = Label::Row(place);
        add_label(alloc, &mut list, table_tree_profile(tree, &label), label)?;
    }
    Ok(list)
}

// The labels of a base algebra other than a table, by those that are tried.
pub(crate) fn labels_of_base<'a>(alloc: Global, tree: &Tree) -> Result<List<Outlined<'a>>, NoMemory>
    requires base { IsBase (expression_of tree.now) }
    requires ranges { MeetsRanges (expression_of tree.now) }
    ensures { (e : Edition) → IsAlg (alg_in (expression_of tree.now) e) →
        IfOk result (CoversBy (alg_in (expression_of tree.now) e)) }
{
    let mut list = List::new(alloc);
    for place in 0..BASE_CANDIDATES {
        add_candidate(alloc, &mut list, tree, place)?;
    }
    Ok(list)
}

// Adds the label at that place among those that are tried, if it is the algebra's and has a new profile.
fn add_candidate(
    alloc: Global,
    list: &mut List<Outlined<'_>>,
    tree: &Tree,
    place: usize,
) -> Result<(), NoMemory>
    requires base { IsBase (expression_of tree.now) }
    requires ranges { MeetsRanges (expression_of tree.now) }
    ensures { (e : Edition) → IsAlg (alg_in (expression_of tree.now) e) →
        HasBefore (alg_in (expression_of tree.now) e) (candidate (expression_of tree.now)) place list.old → OnOk result
        (HasBefore (alg_in (expression_of tree.now) e) (candidate (expression_of tree.now)) (place + 1) list.new) }
{
    match base_candidate(tree, place) {
        Some(label) => add_label(alloc, list, base_tree_profile(tree, &label), label),
        None => Ok(()),
    }
}
