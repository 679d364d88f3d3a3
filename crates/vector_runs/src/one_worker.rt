// A network's nodes, run by one worker.
ghost use Rattle.std.specs.Prelude.{◌≡◌, ◌≤◌, [], IfOk, map};
ghost use Rattle.arc_labels.specs.Neighbours.{AreListenerLabels, AreSpeakerLabels};
ghost use Rattle.net_graph.specs.Nets.{IsNet};
ghost use Rattle.node_core.specs.declared.node.TheConstants.{MAX_CLOCK};
ghost use Rattle.vector_runs.specs.Runs.{IsRun, pure_phase};

use crate::run::{Phase, PhasedRun};
use alg_model::Algebra;
use arc_labels::{NeighbourLabels, label_forms, listener_labels, speaker_labels};
use journal_merge::Journal;
use meta_base::{Gate, List, NoMemory};
use net_graph::Net;
use quiet_ledger::Totals;
use std::alloc::Global;
use vector_block::VectorBlock;
use weave::run_in_turn;

/// Runs the new nodes of a network, all in one store, on the caller's thread, until nothing is on its way or all turns
/// are used up; the gate gets a report of each delivery. The algebra is the network's. It is refused for want of memory
/// alone.
pub(crate) fn run_alone<A: Algebra, G: Gate>(
    alloc: Global,
    algebra: &A,
    net: &Net,
    turns: u64,
    gate: &G,
) -> Result<PhasedRun, NoMemory>
    requires algebra { A.expression algebra.now ≡ net.now.alg.expression }
    requires turns { turns ≤ MAX_CLOCK }
    ensures { IfOk result (λ run. IsRun net.now [] turns
        (map pure_phase run.past) (pure_phase run.last) run.is_quiet) }
{
    let forms = label_forms(alloc, algebra, net)?;
    let listeners = listener_labels(alloc, algebra, net, &forms)?;
    let speakers = speaker_labels(alloc, algebra, net, &forms)?;
    run_labelled(alloc, algebra, net, &listeners, &speakers, turns, gate)
}

// The same, with the labels on the network's arcs.
fn run_labelled<A: Algebra, G: Gate>(
    alloc: Global,
    algebra: &A,
    net: &Net,
    listeners: &NeighbourLabels<'_, A::Lab>,
    speakers: &NeighbourLabels<'_, A::Lab>,
    turns: u64,
    gate: &G,
) -> Result<PhasedRun, NoMemory>
    requires algebra { A.expression algebra.now ≡ net.now.alg.expression }
    requires listeners { AreListenerLabels (A.stands_for algebra.now) net.now listeners.now }
    requires speakers { AreSpeakerLabels (A.stands_for algebra.now) net.now speakers.now }
    requires turns { turns ≤ MAX_CLOCK }
    ensures { IfOk result (λ run. IsRun net.now [] turns
        (map pure_phase run.past) (pure_phase run.last) run.is_quiet) }
{
    keeps_rules(net);
    let mut block = VectorBlock::start(alloc, algebra, net, listeners, speakers)?;
    let sent = block.waiting()?;
    let totals = Totals { sent, taken: 0 };
    let totals = run_in_turn(&mut block, totals, turns, gate)?;
    let rows = block.rows(alloc)?;
    let journal = Journal::from_entries(block.into_log());
    Ok(PhasedRun {
        past: List::new(alloc),
        last: Phase { rows, journal },
        is_quiet: totals.sent == totals.taken,
    })
}

// A network keeps its rules, by which all its nodes are there at the end.
fn keeps_rules(net: &Net)
    ensures { IsNet net.now }
{
    let _edition = net.edition();
}
