// The labels that decide which properties an algebra has.
ghost use Rattle.std.specs.Prelude.{IfOk, OnOk};
ghost use Rattle.std.specs.List.{AllByRecursion};
ghost use Rattle.alg_classes.specs.Classes.{IsTruthOf};
ghost use Rattle.alg_classes.specs.Facts.{fact_of};
ghost use Rattle.alg_classes.specs.Instances.{pure_property};
ghost use Rattle.alg_model.specs.Expressions.{PureAlg};
ghost use Rattle.profile_labels.specs.Deciding.{AllHave, AreDecided, Decides, DecidesMore, IsDecided};
ghost use Rattle.profile_labels.specs.Outlines.{OutlinedOf};

use crate::Labelled;
use crate::outlined::Outlined;
use crate::parts::part_labels;
use alg_classes::{Fact, Profile, Property};
use alg_model::Alg;
use meta_base::{List, NoMemory};
use std::alloc::Global;

/// Labels of the algebra, each with its profile, that decide which properties it has: one that all of these have, all
/// of its labels have. At most one is made for each property, the first of those that cover the algebra that doesn't
/// have it. They are refused for want of memory alone.
pub fn deciding_labels(alloc: Global, alg: &Alg) -> Result<List<Labelled>, NoMemory>
    ensures { IfOk result (Decides alg.now) }
{
    let outlines = part_labels(alloc, alg, alg.tree())?;
    let mut labels = List::new(alloc);
    add_deciding(alloc, &mut labels, outlines.as_slice())?;
    Ok(labels)
}

// Adds each label that doesn't have a property that all labels before it have.
fn add_deciding(
    alloc: Global,
    labels: &mut List<Labelled>,
    outlines: &[Outlined<'_>],
) -> Result<(), NoMemory>
    ensures { (a : PureAlg) → AllByRecursion (OutlinedOf a) outlines.now → OnOk result
        (DecidesMore a outlines.now labels.old labels.new) }
{
    match outlines {
        [] => Ok(()),
        [first, rest @ ..] => {
            if are_decided(labels.as_slice(), &first.profile) {
                return add_deciding(alloc, labels, rest);
            }
            let label = first.outline.label(alloc)?;
            labels.push(Labelled {
                profile: first.profile,
                label,
            })?;
            add_deciding(alloc, labels, rest)
        }
    }
}

// Whether the labels decide all properties, of a label of this profile.
fn are_decided(labels: &[Labelled], profile: &Profile) -> bool
    ensures { IsTruthOf result (AreDecided labels.now profile.now) }
{
    is_decided(labels, profile, Property::Monotone)
        & is_decided(labels, profile, Property::Strict)
        & is_decided(labels, profile, Property::Isotone)
        & is_decided(labels, profile, Property::Cancellative)
        & is_decided(labels, profile, Property::Total)
}

// Whether they decide the property: a label of this profile has it, or one of the labels doesn't.
fn is_decided(labels: &[Labelled], profile: &Profile, property: Property) -> bool
    ensures { IsTruthOf result (IsDecided labels.now profile.now (pure_property property)) }
{
    profile.has(property.fact()) || !all_have(labels, property.fact())
}

// Whether all labels have the fact.
fn all_have(labels: &[Labelled], fact: Fact) -> bool
    ensures { IsTruthOf result (AllHave fact labels.now) }
{
    match labels {
        [] => true,
        [first, rest @ ..] => first.profile.has(fact) && all_have(rest, fact),
    }
}
