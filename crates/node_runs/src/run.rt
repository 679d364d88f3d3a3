ghost use Rattle.std.specs.Prelude.{◌<◌, ◌≤◌, IfOk, map};
ghost use Rattle.net_graph.specs.Nets.{IsNet};
ghost use Rattle.node_core.specs.declared.node.TheConstants.{MAX_CLOCK};
ghost use Rattle.node_core.specs.Machine.{AreUnbegun};
ghost use Rattle.quiet_ledger.specs.declared.book.TheConstants.{MAX_WORKERS};
ghost use Rattle.node_runs.specs.Runs.{IsPhaseOf};

use crate::finder::Finder;
use meta_base::{Gate, List, NoMemory};
use net_graph::Net;
use node_core::{NodeCore, replays_run};
use std::alloc::Global;
use std::sync::Wait;
use std::thread::Threads;
use weave::{Budget, Journal, WeaveEnd, weave};

/// A phase that ran.
#[derive(Drop)]
pub struct Ran<F: Finder> {
    /// What its nodes came to.
    pub found: F::Found,
    /// Its deliveries, by clock, then by listener.
    pub journal: Journal,
    /// Its nodes as they were in the end, in the order of the network.
    pub nodes: List<F::Node>,
    /// Nothing was on its way at the end.
    pub is_quiet: bool,
}

/// Runs a phase of unbegun nodes, one for each of the network in order, until nothing is on its way or all turns of the
/// budget are used up, and finds what the nodes came to then, whichever it was. The budget's workers make the deliveries
/// at once, on threads of their own, so which are made in which order is theirs; the gate gets a report of each. It is
/// refused for want of memory alone, and then the nodes are dropped.
pub fn run_once<F: Finder, G: Gate, R: Threads + Wait + Sync>(
    rt: &R,
    alloc: Global,
    finder: &F,
    net: &Net,
    nodes: List<F::Node>,
    budget: Budget,
    gate: &G,
) -> Result<Ran<F>, NoMemory>
where
    F::Node: Send,
    <F::Node as NodeCore>::Message: Send,
    requires fits { F.Fits finder.now net.now }
    requires nodes { AreUnbegun F.Node.kind net.now 0 (map F.Node.state nodes) }
    requires workers { (0 < budget.workers) × (budget.workers ≤ MAX_WORKERS) }
    requires turns { budget.turns ≤ MAX_CLOCK }
    ensures phase { IfOk result (λ ran. IsPhaseOf F.Node.kind net.now (map F.Node.state nodes) budget.turns
        ran.journal ran.is_quiet (map F.Node.state ran.nodes)) }
    ensures found { IfOk result (λ ran. F.AreFound net.now ran.nodes ran.found) }
{
    keeps_rules(net);
    replays_run::<F::Node>();
    let Budget { workers, turns } = budget;
    let WeaveEnd {
        nodes,
        journal,
        quiet,
        ..
    } = weave(rt, alloc, net, nodes, workers, turns, gate)?;
    let found = finder.find(alloc, net, nodes.as_slice())?;
    Ok(Ran {
        found,
        journal,
        nodes,
        is_quiet: quiet,
    })
}

// A network keeps its rules, by which a phase ends with one node for each of it.
fn keeps_rules(net: &Net)
    ensures { IsNet net.now }
{
    let _edition = net.edition();
}
