ghost use Rattle.std.specs.Prelude.{◌≡◌, IfOk, option_map};
ghost use Rattle.alg_model.specs.Views.{expression_of, pure_label};
ghost use Rattle.alg_model.specs.Application.{IsLabel, App};
ghost use Rattle.alg_model.specs.Bounds.{ExpressionAtMost, greatest_number};
ghost use Rattle.alg_model.specs.Carriers.{carrier_of};
ghost use Rattle.alg_model.specs.Formation.{MeetsRanges};
ghost use Rattle.alg_model.specs.declared.alg.TheConstants.{MAX_INSTANCE_NUMBER};
ghost use Rattle.alg_model.specs.declared.edition.Edition.{Edition};
ghost use Rattle.alg_model.specs.Forms.{IsBase};
ghost use Rattle.alg_classes.specs.Classes.{ClassOf, ExampleAtMost, Settles, pure_example};
ghost use Rattle.alg_classes.specs.Profiles.{bit};
ghost use Rattle.base_classes.specs.Profiles.{base_profile_of};

use crate::examples::{example, examples};
use crate::profile::rule;
use alg_classes::{Class, Example, Fact};
use alg_model::{Alg, Label, Tree};
use meta_base::NoMemory;
use std::alloc::Global;

/// For whoever wants classes with their examples; the program needs none. The class of the label of a base algebra:
/// that label, which facts it has, and an example for each that fails. It is refused for want of memory alone.
///
/// The algebra's root is a base algebra other than a table, and the label is the algebra's.
pub fn base_class(alloc: Global, alg: &Alg, label: &Label) -> Result<Class, NoMemory>
    requires base { IsBase alg.now.expression }
    requires label { IsLabel alg.now.expression (pure_label label.now) }
    ensures class { IfOk result (ClassOf alg.now) }
    ensures label { IfOk result (λ class. pure_label class.label ≡ pure_label label.now) }
{
    let profile = rule(alg.tree(), label);
    Ok(Class {
        label: label.copy(alloc)?,
        examples: examples(alloc, alg.tree(), label, &profile)?,
        profile,
    })
}

/// The example against the fact of the label, or `None` where the label has it. It is refused for want of memory
/// alone.
///
/// The tree is a base algebra other than a table, which meets the formation rule on ranges, and the label is the
/// algebra's. Where no number of the tree is above the greatest of an edition, none of the example is above
/// `MAX_INSTANCE_NUMBER`.
pub fn base_example(
    alloc: Global,
    tree: &Tree,
    label: &Label,
    fact: Fact,
) -> Result<Option<Example>, NoMemory>
    requires base { IsBase (expression_of tree.now) }
    requires ranges { MeetsRanges (expression_of tree.now) }
    requires label { IsLabel (expression_of tree.now) (pure_label label.now) }
    ensures settled { IfOk result (λ x. Settles (carrier_of (expression_of tree.now))
        (App (expression_of tree.now) (pure_label label.now)) fact
        (bit (base_profile_of (expression_of tree.now) (pure_label label.now)) fact) (option_map pure_example x)) }
    ensures bound { (e : Edition) → ExpressionAtMost (greatest_number e) (expression_of tree.now) →
        IfOk result (λ x. ExampleAtMost MAX_INSTANCE_NUMBER (option_map pure_example x)) }
{
    example(alloc, tree, label, &rule(tree, label), fact)
}
