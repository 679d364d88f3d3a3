// The first arc whose label doesn't have one of some properties.
ghost use Rattle.std.specs.Prelude.{◌≡◌, not, map, find, IfOk, IfSome, IfNone, MatchOption};
ghost use Rattle.alg_classes.specs.Facts.{fact_of};
ghost use Rattle.alg_classes.specs.Instances.{pure_instance, pure_property};
ghost use Rattle.alg_classes.specs.Profiles.{bit};
ghost use Rattle.alg_model.specs.Application.{IsLabel};
ghost use Rattle.alg_model.specs.Views.{pure_label};
ghost use Rattle.net_facts.specs.Misses.{HasAll, IsFirstMissing, MissesEarliest, MissesFirst, NetHasAll};

use alg_classes::{Instance, Profile, Property};
use alg_model::{Alg, Label};
use meta_base::{ArcId, NoMemory};
use net_graph::{LabelMarks, Net};
use property_infer::{instance_against, label_profile};
use std::alloc::Global;

/// An arc of a network whose label doesn't have a property, and an instance that shows it.
#[derive(Debug, Drop)]
pub struct Missing {
    pub arc: ArcId,
    pub instance: Instance,
}

/// The first arc in file order whose label doesn't have one of the properties, with an instance of the earliest listed
/// one that it doesn't have; or `None`, exactly where the network has all of them. No number of the instance's label is
/// above the greatest of the algebra's edition, and none of its values above
/// [`alg_model::MAX_INSTANCE_NUMBER`]. Memory is taken for the instance, and for marks, whose want refuses nothing; so a
/// network that has all of the properties is never refused.
pub fn first_missing(
    alloc: Global,
    net: &Net,
    properties: &[Property],
) -> Result<Option<Missing>, NoMemory>
    ensures none { IfOk result (λ missing. IfNone missing (NetHasAll (map pure_property properties.now) net.now)) }
    ensures all { NetHasAll (map pure_property properties.now) net.now → result ≡ Ok None }
    ensures first { IfOk result (λ missing. IfSome missing (λ missing.
        IsFirstMissing (map pure_property properties.now) net.now missing.arc.0 (pure_instance missing.instance))) }
{
    let Some((arc, property)) = first_missed(alloc, net, properties) else {
        return Ok(None);
    };
    let instance = instance_against(alloc, net.alg(), net.arc(arc).label, property)?;
    Ok(Some(Missing { arc, instance }))
}

// The first arc whose label doesn't have one of the properties, and the earliest of them that it doesn't have. Where
// there is memory for marks, each label is looked at once.
fn first_missed(alloc: Global, net: &Net, properties: &[Property]) -> Option<(ArcId, Property)>
    ensures { MatchOption result
        (NetHasAll (map pure_property properties.now) net.now)
        (λ found. MissesFirst (map pure_property properties.now) net.now found.0.0 (pure_property found.1)) }
{
    let numbers = net.label_numbers();
    let mut passed = LabelMarks::new(alloc, numbers.count());
    for arc in 0..net.arc_count() {
        let id = ArcId(arc as u32);
        let number = numbers.of(id);
        if !passed.has(number) {
            if let Some(property) = earliest_missed(net.alg(), net.arc(id).label, properties) {
                return Some((id, property));
            }
            passed.mark(number);
        }
    }
    None
}

// The earliest of the properties that the label doesn't have.
fn earliest_missed(alg: &Alg, label: &Label, properties: &[Property]) -> Option<Property>
    requires { IsLabel alg.now.expression (pure_label label.now) }
    ensures { MatchOption result
        (HasAll (map pure_property properties.now) alg.now.expression (pure_label label.now))
        (λ p. MissesEarliest (map pure_property properties.now)
        alg.now.expression (pure_label label.now) (pure_property p)) }
{
    let profile = label_profile(alg, label);
    earliest_without(&profile, properties)
}

// The earliest of the properties that a label with this profile doesn't have.
fn earliest_without(profile: &Profile, properties: &[Property]) -> Option<Property>
    ensures { result ≡ find (λ p. not (bit profile.now (fact_of (pure_property p)))) properties.now }
{
    properties
        .iter()
        .copied()
        .find(|property| !profile.has(property.fact()))
}
