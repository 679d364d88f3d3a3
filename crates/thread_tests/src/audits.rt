// Tests of audits: the journals of runs lead to the runs' rows, and spoiled ones break where they are spoiled.
ghost use Rattle.std.specs.Prelude.{◌≡◌};

use crate::draws::{Draws, KINDS, Kind, network_lines};
use crate::phases::journal_of;
use crate::runs::{Ran, run};
use alg_model::{Algebra, TreeAlgebra};
use meta_base::{ArcId, Delivery, NoMemory, OpenGate};
use net_graph::Net;
use node_core::{Config, NodeCore, Replayed};
use std::alloc::Global;
use std::sync::Wait;
use std::test::Fail;
use std::thread::Threads;
use testkit_nodes::{NOTHING, are_same_rows, new_nodes, rows_now};
use testkit_readers::network;

// The place at which the journal of new nodes breaks; none where it doesn't.
fn break_of<A: Algebra>(
    alloc: Global,
    algebra: &A,
    net: &Net,
    journal: &[Delivery],
) -> Result<Option<usize>, NoMemory>
    requires { A.expression algebra.now ≡ net.now.alg.expression }
{
    let nodes = new_nodes(alloc, algebra, net)?;
    Ok(match Config::replay(alloc, net, nodes, journal)? {
        Replayed::Broken(place) => Some(place),
        Replayed::Reached(_) => None,
    })
}

fn break_on(alloc: Global, net: &Net, journal: &[Delivery]) -> Result<Option<usize>, NoMemory> {
    break_of(alloc, &TreeAlgebra::new(net.alg()), net, journal)
}

// The same for the journal of a text, over the network of these lines.
fn break_over(
    alloc: Global,
    expression: &str,
    lines: &[u8],
    text: &str,
) -> Result<Option<usize>, Fail> {
    let journal = journal_of(alloc, text)?;
    let net = network(alloc, expression, lines)?;
    let place = break_on(alloc, &net, &journal);
    drop(net);
    Ok(place?)
}

// b's route is delivered to a on arc 0, at clock 1. a's is delivered to b on arc 1, at clock 2, as it was sent at 1.
const PAIR: &[u8] = b"node a b\nboth a b : 3\norigin x at b : 0\n";

// Journals of the pair, and where they break.
const AUDITS: &[(&str, Option<usize>)] = &[
    (NOTHING, None),
    ("1 0", None),
    ("1 0, 2 1", None),
    // Swapped, and without the first.
    ("2 1, 1 0", Some(0)),
    ("2 1", Some(0)),
    // One of them twice, and one more than were sent.
    ("1 0, 1 0", Some(1)),
    ("1 0, 2 1, 2 1", Some(2)),
    ("1 0, 2 1, 3 0", Some(2)),
    // Another clock, and one above the greatest.
    ("0 0, 2 1", Some(0)),
    ("2 0, 3 1", Some(0)),
    ("1 0, 3 1", Some(1)),
    ("1 0, 1000001 1", Some(1)),
    // Arcs that aren't there.
    ("1 2", Some(0)),
    ("1 0, 2 4294967295", Some(1)),
];

#[test]
fn journals_of_a_pair_are_audited(rt: HostRuntime) -> Result<(), Fail> {
    for (text, place) in AUDITS {
        let found = break_over(rt.alloc(), "add(1..10)", PAIR, *text)?;
        assert!(rt; found == *place, "{text}");
    }
    Ok(())
}

pub(crate) fn is_drained<N: NodeCore>(config: &Config<'_, N>) -> bool {
    for id in 0..config.net().arc_count() {
        if config.waiting(ArcId(id as u32)) > 0 {
            return false;
        }
    }
    true
}

// Whether the run's journal leads to its rows, and nothing is on its way then exactly where it is quiet.
fn is_reached(alloc: Global, net: &Net, ran: &Ran) -> Result<bool, Fail> {
    let algebra = TreeAlgebra::new(net.alg());
    let nodes = new_nodes(alloc, &algebra, net)?;
    match Config::replay(alloc, net, nodes, ran.journal.as_slice())? {
        Replayed::Broken(_) => Ok(false),
        Replayed::Reached(config) => {
            let rows = rows_now(alloc, &config)?;
            Ok(
                is_drained(&config) == ran.is_quiet
                    && are_same_rows(rows.as_slice(), ran.rows.as_slice()),
            )
        }
    }
}

// The journal with another entry at that place.
pub(crate) fn replaced(
    alloc: Global,
    journal: &[Delivery],
    place: usize,
    entry: Delivery,
) -> Result<Vec<Delivery>, NoMemory> {
    let mut spoiled = Vec::from_slice(alloc, journal)?;
    if place < spoiled.len() {
        spoiled[place] = entry;
    }
    Ok(spoiled)
}

// The journal with that entry once more, after itself.
pub(crate) fn doubled(
    alloc: Global,
    journal: &[Delivery],
    place: usize,
    entry: Delivery,
) -> Result<Vec<Delivery>, NoMemory> {
    let mut spoiled = Vec::from_slice(alloc, journal)?;
    if place < spoiled.len() {
        spoiled.insert(place, entry)?;
    }
    Ok(spoiled)
}

// Whether the journal breaks where that entry gets a later clock or an arc that isn't there, or is doubled.
fn breaks_at(
    alloc: Global,
    net: &Net,
    journal: &[Delivery],
    place: usize,
    entry: Delivery,
) -> Result<bool, Fail> {
    let Delivery { clock, arc } = entry;
    let later = Delivery {
        clock: clock.saturating_add(1),
        arc,
    };
    let stray = Delivery {
        clock,
        arc: ArcId(net.arc_count() as u32),
    };
    let next = place.checked_add(1);
    Ok(
        break_on(alloc, net, &replaced(alloc, journal, place, later)?)? == Some(place)
            && break_on(alloc, net, &replaced(alloc, journal, place, stray)?)? == Some(place)
            && break_on(alloc, net, &doubled(alloc, journal, place, entry)?)? == next,
    )
}

// Whether the run's journal leads to its rows, and breaks where one entry of it is spoiled.
fn is_audited(alloc: Global, net: &Net, ran: &Ran, draws: &mut Draws) -> Result<bool, Fail> {
    if !is_reached(alloc, net, ran)? {
        return Ok(false);
    }
    let journal = ran.journal.as_slice();
    if journal.is_empty() || journal.len() > 1000 {
        return Ok(journal.is_empty());
    }
    let place = draws.below(journal.len() as u32) as usize;
    breaks_at(alloc, net, journal, place, journal[place])
}

// The same for a run on the network of these lines.
fn is_audited_over<R: Threads + Wait + Sync>(
    rt: &R,
    alloc: Global,
    kind: &Kind,
    lines: &str,
    draws: &mut Draws,
) -> Result<bool, Fail> {
    let net = network(alloc, kind.expression, lines.as_bytes())?;
    let workers = 1 + draws.below(5);
    let turns = u64::from(draws.below(61));
    let ran = run(rt, alloc, &net, workers, turns, &OpenGate);
    let answer = match ran {
        Ok(ran) => is_audited(alloc, &net, &ran, draws),
        Err(fail) => Err(fail),
    };
    drop(net);
    answer
}

// How many networks of each kind are drawn.
const NETWORKS: u32 = 20;

#[test]
fn journals_of_drawn_runs_are_audited(rt: HostRuntime) -> Result<(), Fail> {
    let mut draws = Draws::new();
    for kind in KINDS {
        for _ in 0..NETWORKS {
            let lines = network_lines(rt.alloc(), &mut draws, kind)?;
            let is_well = is_audited_over(&rt, rt.alloc(), kind, lines.as_str(), &mut draws)?;
            assert!(rt; is_well, "{lines}");
        }
    }
    Ok(())
}
