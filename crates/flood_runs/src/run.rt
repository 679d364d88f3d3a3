ghost use Rattle.std.specs.Prelude.{◌≡◌, ◌<◌, ◌≤◌, IfOk, map};
ghost use Rattle.net_graph.specs.Views.{pure_row};
ghost use Rattle.node_core.specs.declared.node.TheConstants.{MAX_CLOCK};
ghost use Rattle.quiet_ledger.specs.declared.book.TheConstants.{MAX_WORKERS};
ghost use Rattle.flood_runs.specs.Floods.{IsFloodRun, new_nodes};

use crate::finder::FloodFinder;
use alg_model::Algebra;
use flood_node::FloodNode;
use meta_base::{Gate, List, NoMemory, NodeId};
use net_graph::{Net, RouteRow};
use node_runs::{Budget, Journal, Ran, run_once};
use std::alloc::Global;
use std::sync::Wait;
use std::thread::Threads;

/// What a flood came to.
#[derive(Debug, Drop)]
pub struct FloodRun {
    /// The rows that the nodes compute at its end, by destination, then node.
    pub rows: List<RouteRow>,
    /// Its deliveries, by clock, then by listener.
    pub journal: Journal,
    /// Nothing was on its way at the end.
    pub is_quiet: bool,
}

/// The new nodes of a network, in order. It is refused for want of memory alone.
pub fn new_nodes<'a>(alloc: Global, net: &'a Net) -> Result<List<FloodNode<'a>>, NoMemory>
    ensures { IfOk result (λ nodes. nodes ≡ new_nodes net.now) }
{
    let count = net.node_count();
    let mut nodes = Vec::with_capacity(alloc, count)?;
    for number in 0..count {
        nodes.push(FloodNode::new(alloc, net, NodeId(number as u32))?)?;
    }
    Ok(List::from_vec(nodes))
}

/// Floods the cards of all nodes of a network, until nothing is on its way or all turns of the budget are used up, and
/// has each node compute its rows then. The budget's workers make the deliveries at once, on threads of their own, so
/// which are made in which order is theirs; the gate gets a report of each. The algebra is the network's, in whatever
/// form its values have. It is refused for want of memory alone.
pub fn run_flood<A: Algebra, G: Gate, R: Threads + Wait + Sync>(
    rt: &R,
    alloc: Global,
    algebra: &A,
    net: &Net,
    budget: Budget,
    gate: &G,
) -> Result<FloodRun, NoMemory>
    requires algebra { A.expression algebra.now ≡ net.now.alg.expression }
    requires workers { (0 < budget.workers) × (budget.workers ≤ MAX_WORKERS) }
    requires turns { budget.turns ≤ MAX_CLOCK }
    ensures { IfOk result (λ run.
        IsFloodRun net.now budget.turns (map pure_row run.rows) run.journal run.is_quiet) }
{
    let finder = FloodFinder::new(algebra);
    let nodes = new_nodes(alloc, net)?;
    let Ran {
        found: rows,
        journal,
        is_quiet,
        ..
    } = run_once(rt, alloc, &finder, net, nodes, budget, gate)?;
    Ok(FloodRun {
        rows,
        journal,
        is_quiet,
    })
}
