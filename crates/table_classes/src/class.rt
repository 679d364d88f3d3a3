ghost use Rattle.std.specs.Prelude.{◌≡◌, IfOk, option_map};
ghost use Rattle.alg_model.specs.Views.{expression_of, pure_label};
ghost use Rattle.alg_model.specs.Application.{IsLabel, App};
ghost use Rattle.alg_model.specs.Carriers.{carrier_of};
ghost use Rattle.alg_model.specs.Formation.{MeetsRanges};
ghost use Rattle.alg_model.specs.declared.alg.TheConstants.{MAX_INSTANCE_NUMBER};
ghost use Rattle.alg_classes.specs.Profiles.{ProfileOf};
ghost use Rattle.alg_classes.specs.Classes.{ClassOf, ExampleAtMost, pure_example};
ghost use Rattle.table_classes.specs.Found.{IsAnswer};
ghost use Rattle.table_classes.specs.Rows.{IsTable};

use crate::found::Found;
use crate::row::Row;
use alg_classes::{Class, Example, Fact, Profile};
use alg_model::{Alg, Label, Tree};
use meta_base::NoMemory;
use std::alloc::Global;

/// The exact facts of a label of a table algebra. It takes no memory, and time in proportion to the pairs
/// of the table's values.
pub fn table_profile(alg: &Alg, label: &Label) -> Profile
    requires table { IsTable alg.now.expression }
    requires label { IsLabel alg.now.expression (pure_label label.now) }
    ensures { ProfileOf alg.now.expression (pure_label label.now) result }
{
    table_tree_profile(alg.tree(), label)
}

/// The exact facts of a label of a table, which is the whole tree. It takes no memory, and time in
/// proportion to the pairs of the table's values.
pub fn table_tree_profile(tree: &Tree, label: &Label) -> Profile
    requires table { IsTable (expression_of tree.now) }
    requires formed { MeetsRanges (expression_of tree.now) }
    requires label { IsLabel (expression_of tree.now) (pure_label label.now) }
    ensures { ProfileOf (expression_of tree.now) (pure_label label.now) result }
{
    Found::of(&Row::of(tree, label)).profile()
}

/// The first example against the fact of a label of a table, which is the whole tree, or `None` where the label has it.
/// It takes no memory, and time in proportion to the pairs of the table's values at most.
pub fn table_example(tree: &Tree, label: &Label, fact: Fact) -> Option<Example>
    requires table { IsTable (expression_of tree.now) }
    requires formed { MeetsRanges (expression_of tree.now) }
    requires label { IsLabel (expression_of tree.now) (pure_label label.now) }
    ensures answer { IsAnswer (carrier_of (expression_of tree.now))
        (App (expression_of tree.now) (pure_label label.now)) fact (option_map pure_example result) }
    ensures bound { ExampleAtMost MAX_INSTANCE_NUMBER (option_map pure_example result) }
{
    Row::of(tree, label).example(fact)
}

/// For whoever wants classes with their examples; the program needs none. The class of a label of a table algebra: an
/// equal label, its exact facts, and the first examples of those that fail. It is refused for want of memory alone.
pub fn table_class(alloc: Global, alg: &Alg, label: &Label) -> Result<Class, NoMemory>
    requires table { IsTable alg.now.expression }
    requires label { IsLabel alg.now.expression (pure_label label.now) }
    ensures class { IfOk result (ClassOf alg.now) }
    ensures label { IfOk result (λ class. pure_label class.label ≡ pure_label label.now) }
{
    let found = Found::of(&Row::of(alg.tree(), label));
    Ok(found.class(label.copy(alloc)?))
}
