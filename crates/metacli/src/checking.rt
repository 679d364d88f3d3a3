// What `check` decides.
ghost use Rattle.std.specs.Prelude.{◌≡◌, IfOk, map, None, Some, option_map};
ghost use Rattle.alg_model.specs.Application.{IsLabel};
ghost use Rattle.net_graph.specs.Changes.{AreChanges};
ghost use Rattle.net_graph.specs.Views.{pure_change};
ghost use Rattle.topology_file.specs.Views.{pure_file};
ghost use Rattle.topology_file.specs.NetText.{changed_net};
ghost use Rattle.property_infer.specs.Views.{pure_verdicts};
ghost use Rattle.alg_classes.specs.Instances.{pure_property};
ghost use Rattle.metacli.specs.Outcome.{AreVerdictsOn, DecidesTables, IsCheckedAs, IsOnArc, asks, first_unmet, first_unmet_of, is_failed};
ghost use Rattle.alg_model.specs.Verdicts.{verdict_on};
ghost use Rattle.property_infer.specs.Views.{pure_verdict};
ghost use Rattle.metacli.specs.Views.{CanBeWritten, pure_outcome};

use crate::after::{last_of, net_after};
use crate::outcome::{Checked, Outcome, Stop};
use alg_classes::Property;
use alg_model::Alg;
use command_words::Required;
use meta_base::{ArcId, List, NoMemory};
use net_graph::{LabelMarks, Net};
use property_infer::{Verdict, Verdicts, add_label, verdicts, verdicts_of};
use settled_laws::monotone_verdict_decides_uniqueness;
use std::alloc::Global;
use topology_file::NetFile;

/// What `check` comes to on an algebra, with these properties required.
pub fn check(alloc: Global, alg: Alg, require: Required) -> Outcome
    ensures checked { IsCheckedAs require alg None (IsLabel alg.expression) (pure_outcome result) }
    ensures decides { DecidesTables alg (pure_outcome result) }
    ensures printable { CanBeWritten result }
{
    monotone_verdict_decides_uniqueness();
    // (the tree of an algebra is formed)
    alg.tree();
    match verdicts(alloc, &alg) {
        Ok(verdicts) => {
            let unmet = first_unmet(require, &verdicts);
            Outcome::Checked(Checked {
                alg,
                file: None,
                verdicts,
                unmet,
            })
        }
        Err(NoMemory) => Outcome::Stopped {
            alg: Some(alg),
            file: None,
            stop: Stop::Memory,
        },
    }
}

/// What `check` comes to on a network over the algebra, after all its changes, with these properties required.
pub fn check_network(alloc: Global, alg: Alg, file: NetFile, require: Required) -> Outcome
    requires over { file.net.alg ≡ alg }
    requires changes { AreChanges file.net (map pure_change file.changes) }
    ensures checked { IsCheckedAs require alg (Some (pure_file file))
        (IsOnArc (changed_net (pure_file file))) (pure_outcome result) }
    ensures printable { CanBeWritten result }
{
    match verdicts_after(alloc, &file) {
        Ok(verdicts) => {
            let unmet = first_unmet(require, &verdicts);
            Outcome::Checked(Checked {
                alg,
                file: Some(file),
                verdicts,
                unmet,
            })
        }
        Err(NoMemory) => Outcome::Stopped {
            alg: Some(alg),
            file: Some(file),
            stop: Stop::Memory,
        },
    }
}

// The first of the five properties that is required and fails.
fn first_unmet(require: Required, verdicts: &Verdicts) -> Option<Property>
    ensures { option_map pure_property result ≡ first_unmet require (pure_verdicts verdicts.now) }
{
    first_unmet_of(require, verdicts, &Property::ALL)
}

// The first of these.
fn first_unmet_of(
    require: Required,
    verdicts: &Verdicts,
    properties: &[Property],
) -> Option<Property>
    ensures { option_map pure_property result ≡
        first_unmet_of require (pure_verdicts verdicts.now) (map pure_property properties.now) }
{
    let (property, rest) = properties.split_first()?;
    if asks(require, *property) && is_failed(verdicts.on(*property)) {
        Some(*property)
    } else {
        first_unmet_of(require, verdicts, rest)
    }
}

// Whether the property is required.
fn asks(require: Required, property: Property) -> bool
    ensures { result ≡ asks require (pure_property property) }
{
    match property {
        Property::Monotone => require.monotone,
        Property::Strict => require.strict,
        Property::Isotone => require.isotone,
        Property::Cancellative => require.cancellative,
        Property::Total => require.total,
    }
}

// Whether the property fails.
fn is_failed(verdict: &Verdict) -> bool
    ensures { result ≡ is_failed (pure_verdict verdict.now) }
{
    matches!(verdict, Verdict::No(_))
}

// The verdicts on the labels of the network after all its changes.
fn verdicts_after(alloc: Global, file: &NetFile) -> Result<Verdicts, NoMemory>
    requires { AreChanges file.now.net (map pure_change file.now.changes) }
    ensures { IfOk result (λ verdicts. AreVerdictsOn file.now.net.alg
        (IsOnArc (changed_net (pure_file file.now))) (pure_verdicts verdicts)) }
{
    let after = net_after(alloc, &file.net, file.changes.as_slice())?;
    let verdicts = arc_verdicts(alloc, last_of(&after, &file.net));
    drop(after);
    verdicts
}

// The verdicts on the labels of the network's arcs.
fn arc_verdicts(alloc: Global, net: &Net) -> Result<Verdicts, NoMemory>
    ensures { IfOk result (λ verdicts. AreVerdictsOn net.now.alg (IsOnArc net.now) (pure_verdicts verdicts)) }
{
    let numbers = net.label_numbers();
    let mut added = LabelMarks::new(alloc, numbers.count());
    let mut labels = List::new(alloc);
    for arc in 0..net.arc_count() {
        let id = ArcId(arc as u32);
        let number = numbers.of(id);
        if !added.has(number) {
            add_label(alloc, net.alg(), net.arc(id).label, &mut labels)?;
            added.mark(number);
        }
    }
    verdicts_of(alloc, net.alg(), labels.as_slice())
}
