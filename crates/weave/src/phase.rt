ghost use Rattle.std.specs.Prelude.{◌<◌, ◌≤◌, map, IfOk};
ghost use Rattle.node_core.specs.declared.node.TheConstants.{MAX_CLOCK};
ghost use Rattle.node_core.specs.Kinds.{IsLawful};
ghost use Rattle.node_core.specs.Machine.{AreUnbegun, Machine};
ghost use Rattle.quiet_ledger.specs.declared.book.TheConstants.{MAX_WORKERS};
ghost use Rattle.weave.specs.Going.{HasEnded};
ghost use Rattle.weave.specs.Phases.{IsPhaseEnd};
ghost use Rattle.weave.specs.Started.{IsStarted};

use crate::at_once::run_at_once;
use crate::queued::run_queued;
use crate::started::{Ended, Started, keeps_rules, start};
use journal_merge::Journal;
use meta_base::{Gate, List, NoMemory};
use net_graph::Net;
use node_core::NodeCore;
use quiet_ledger::Totals;
use std::alloc::Global;
use std::sync::Wait;
use std::thread::Threads;
use woven_laws::{histories_count, histories_replay, replays_count};

/// What a run may use.
#[derive(Clone, Copy, Debug)]
pub struct Budget {
    /// How many workers make deliveries, 1 to [`quiet_ledger::MAX_WORKERS`].
    pub workers: u32,
    /// How many deliveries they make at most, no more than [`node_core::MAX_CLOCK`].
    pub turns: u64,
}

/// What a phase came to.
#[derive(Drop)]
pub struct WeaveEnd<N: NodeCore> {
    /// The nodes, in the order of the network.
    pub nodes: List<N>,
    /// The deliveries, by clock, and then by listener.
    pub journal: Journal,
    /// How many messages were sent and taken.
    pub totals: Totals,
    /// Nothing was on its way at the end.
    pub quiet: bool,
}

/// Begins the nodes, one for each of the network in order, and has 1 to [`quiet_ledger::MAX_WORKERS`] workers make
/// deliveries, at most so many as there are turns, until nothing is on its way. One worker makes them on the caller's
/// thread, in the order in which the messages were sent. Of several, node k is with worker k modulo their number, so a
/// node and its log belong to one worker at a time; they run at once, on threads of their own, and pass each other
/// messages by links, so which of the possible deliveries are made in which order is theirs. The journal is one order
/// that fits all that the nodes saw. The gate gets a report of each delivery, with its worker's number; with their number
/// where it was made between two rounds of theirs. There are at most [`node_core::MAX_CLOCK`] turns. It is refused for
/// want of memory alone, and then the nodes are dropped.
pub fn weave<N: NodeCore + Send, G: Gate, R: Threads + Wait + Sync>(
    rt: &R,
    alloc: Global,
    net: &Net,
    nodes: List<N>,
    workers: u32,
    turns: u64,
    gate: &G,
) -> Result<WeaveEnd<N>, NoMemory>
where
    N::Message: Send,
    requires nodes { AreUnbegun N.kind net.now 0 (map N.state nodes) }
    requires workers { (0 < workers) × (workers ≤ MAX_WORKERS) }
    requires turns { turns ≤ MAX_CLOCK }
    ensures { IfOk result (λ end. IsPhaseEnd N.kind net.now (map N.state nodes) turns
        end.journal (map N.state end.nodes) end.totals end.quiet) }
{
    keeps_rules(net);
    keeps_laws::<N>();
    histories_replay::<N>();
    histories_count::<N>();
    replays_count::<N>();
    let started = start(alloc, net, nodes)?;
    let budget = Budget { workers, turns };
    let ended = run_all(rt, alloc, net, started, budget, gate)?;
    let journal = Journal::from_logs(alloc, ended.logs.as_slice())?;
    Ok(WeaveEnd {
        nodes: ended.nodes,
        journal,
        totals: ended.totals,
        quiet: ended.totals.sent == ended.totals.taken,
    })
}

// Makes deliveries, until nothing is on its way or all turns are used up. One worker needs no blocks.
fn run_all<N: NodeCore + Send, G: Gate, R: Threads + Wait + Sync>(
    rt: &R,
    alloc: Global,
    net: &Net,
    started: Started<N, N::Message>,
    budget: Budget,
    gate: &G,
) -> Result<Ended<N>, NoMemory>
where
    N::Message: Send,
    requires workers { (0 < budget.workers) × (budget.workers ≤ MAX_WORKERS) }
    requires turns { budget.turns ≤ MAX_CLOCK }
    requires started { (c : Machine N.State N.Note) × IsStarted N.state N.note N.kind net.now c started }
    ensures { (c : Machine N.State N.Note) → IsStarted N.state N.note N.kind net.now c started
        → IfOk result (λ e. HasEnded N.kind net.now budget.turns c (map N.state e.nodes) e.logs e.totals) }
{
    let count = block_count(net, budget.workers);
    if count == 1 {
        return run_queued(alloc, net, started, budget.turns, gate);
    }
    run_at_once(rt, alloc, net, started, count, budget, gate)
}

/// What holds of every kind of node. Where threads are started, the bound itself doesn't say it.
pub(crate) fn keeps_laws<N: NodeCore>()
    ensures { IsLawful N.kind }
{}

// How many blocks the nodes are dealt to: no more than there are nodes, so that no worker has none, and one at least.
// A node's block is the same as among so many blocks as workers.
fn block_count(net: &Net, workers: u32) -> usize
    requires { (0 < workers) × (workers ≤ MAX_WORKERS) }
    ensures { (0 < result) × (result ≤ MAX_WORKERS) }
{
    net.node_count().clamp(1, workers as usize)
}
