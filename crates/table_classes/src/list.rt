ghost use Rattle.std.specs.Prelude.{◌<◌, ◌↔◌, ℕ, IfOk, OnOk};
ghost use Rattle.alg_model.specs.Expressions.{row_label};
ghost use Rattle.alg_model.specs.Views.{expression_of};
ghost use Rattle.alg_model.specs.Application.{IsLabel};
ghost use Rattle.alg_model.specs.Formation.{MeetsRanges};
ghost use Rattle.alg_classes.specs.Classes.{Covers};
ghost use Rattle.table_classes.specs.Rows.{IsTable};
ghost use Rattle.table_classes.specs.Lists.{GainsRow};

use crate::found::Found;
use crate::row::Row;
use alg_classes::ClassList;
use alg_model::{Alg, Label, Tree};
use meta_base::NoMemory;
use std::alloc::Global;

/// For whoever wants all classes of an algebra; the program takes labels by their profiles. A class for each profile
/// that a row of a table algebra has, in the order of the first rows that have them. It is refused for want of memory
/// alone.
pub fn table_class_list(alloc: Global, alg: &Alg) -> Result<ClassList, NoMemory>
    requires { IsTable alg.now.expression }
    ensures { IfOk result (Covers alg.now) }
{
    let mut list = ClassList::new(alloc);
    for place in 0..table_row_count(alg.tree()) {
        add_row(&mut list, alg, place)?;
    }
    Ok(list)
}

/// How many rows a table has, which is the whole tree: its labels are those of the places below.
pub fn table_row_count(tree: &Tree) -> u8
    requires table { IsTable (expression_of tree.now) }
    requires formed { MeetsRanges (expression_of tree.now) }
    ensures { (place : ℕ) → (place < result) ↔ IsLabel (expression_of tree.now) (row_label place) }
{
    match tree {
        Tree::Table(table) => table.rows.as_slice().len() as u8,
        _ => unreachable!(),
    }
}

// Adds the class of the row at that place, if its profile is new.
fn add_row(list: &mut ClassList, alg: &Alg, place: u8) -> Result<(), NoMemory>
    requires table { IsTable alg.now.expression }
    requires label { IsLabel alg.now.expression (row_label place) }
    ensures { OnOk result (GainsRow alg.now place list.old list.new) }
{
    let found = Found::of(&Row::of(alg.tree(), &Label::Row(place)));
    if list.has(&found.profile()) {
        return Ok(());
    }
    list.add(found.class(Label::Row(place)))
}
