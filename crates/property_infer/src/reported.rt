// What labels and their profiles tell of properties.
ghost use Rattle.std.specs.Prelude.{IfOk};
ghost use Rattle.std.specs.List.{AllByRecursion};
ghost use Rattle.alg_classes.specs.Instances.{pure_instance, pure_property};
ghost use Rattle.alg_model.specs.Application.{IsLabel};
ghost use Rattle.alg_model.specs.Bounds.{LabelAtMost, greatest_number};
ghost use Rattle.alg_model.specs.Properties.{Has};
ghost use Rattle.alg_model.specs.Views.{pure_label};
ghost use Rattle.profile_labels.specs.Labels.{LabelledOf};
ghost use Rattle.property_infer.specs.Reported.{AreReported, IsMissingOf, IsReported};
ghost use Rattle.property_infer.specs.Views.{pure_verdict, pure_verdicts};

use crate::action::Action;
use crate::example::example_for;
use crate::{Verdict, Verdicts};
use alg_classes::{Example, Instance, Property};
use alg_model::{Alg, Label};
use meta_base::NoMemory;
use profile_labels::Labelled;
use std::alloc::Global;

/// Values at which the label of the algebra doesn't have the property, which is so. No number of the label is above the
/// greatest of the algebra's edition, and none of the values above [`alg_model::MAX_INSTANCE_NUMBER`]. They are
/// refused for want of memory alone.
pub fn instance_against(
    alloc: Global,
    alg: &Alg,
    label: &Label,
    property: Property,
) -> Result<Instance, NoMemory>
    requires label { IsLabel alg.now.expression (pure_label label.now) }
    requires small { LabelAtMost (greatest_number alg.now.edition) (pure_label label.now) }
    requires misses { ¬ Has (pure_property property) alg.now.expression (pure_label label.now) }
    ensures { IfOk result (λ x. IsMissingOf alg.now (pure_property property) (pure_label label.now) (pure_instance x)) }
{
    let action = Action::OfLabel(alg.tree(), label);
    let (first, second) = match example_for(alloc, action, property.fact())? {
        Some(Example::At(first)) => (first, None),
        Some(Example::Between(first, second)) => (first, Some(second)),
        None => unreachable!(),
    };
    Ok(Instance {
        property,
        label: label.copy(alloc)?,
        first,
        second,
    })
}

// No at the first label that doesn't have the property.
fn verdict_of(
    alloc: Global,
    alg: &Alg,
    labels: &[Labelled],
    property: Property,
) -> Result<Verdict, NoMemory>
    requires { AllByRecursion (LabelledOf alg.now) labels.now }
    ensures { IfOk result (λ verdict. IsReported alg.now labels.now (pure_property property) (pure_verdict verdict)) }
{
    match labels {
        [] => Ok(Verdict::Yes),
        [first, rest @ ..] => {
            if first.profile.has(property.fact()) {
                return verdict_of(alloc, alg, rest, property);
            }
            Ok(Verdict::No(instance_against(alloc, alg, &first.label, property)?))
        }
    }
}

/// The verdicts that labels of the algebra tell: yes where all have the property, else no with an instance of the first
/// that doesn't have it. Where they cover the algebra, the verdicts are exact for all of its labels. They are refused
/// for want of memory alone.
pub fn verdicts_of(alloc: Global, alg: &Alg, labels: &[Labelled]) -> Result<Verdicts, NoMemory>
    requires { AllByRecursion (LabelledOf alg.now) labels.now }
    ensures { IfOk result (λ verdicts. AreReported alg.now labels.now (pure_verdicts verdicts)) }
{
    Ok(Verdicts {
        monotone: verdict_of(alloc, alg, labels, Property::Monotone)?,
        strict: verdict_of(alloc, alg, labels, Property::Strict)?,
        isotone: verdict_of(alloc, alg, labels, Property::Isotone)?,
        cancellative: verdict_of(alloc, alg, labels, Property::Cancellative)?,
        total: verdict_of(alloc, alg, labels, Property::Total)?,
    })
}
