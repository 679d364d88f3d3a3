// Runs of path-vector nodes on several workers, with what tests compare of them.
ghost use Rattle.std.specs.Prelude.{◌≡◌, ◌<◌, ◌≤◌};
ghost use Rattle.net_graph.specs.Nets.{IsNet};
ghost use Rattle.node_core.specs.declared.node.TheConstants.{MAX_CLOCK};
ghost use Rattle.quiet_ledger.specs.declared.book.TheConstants.{MAX_WORKERS};

use alg_model::{Algebra, TreeAlgebra};
use meta_base::{Delivery, Gate, List, NoMemory};
use net_graph::{Net, RouteRow};
use node_core::MAX_CLOCK;
use path_vector::rows_of;
use quiet_ledger::{MAX_WORKERS, Totals};
use std::alloc::Global;
use std::sync::Wait;
use std::test::Fail;
use std::thread::Threads;
use testkit_nodes::new_nodes;
use weave::{WeaveEnd, weave};

// What a run came to: its rows in the end, its deliveries, how many messages were sent and taken, and whether nothing
// was on its way in the end.
#[derive(Drop)]
pub(crate) struct Ran {
    pub(crate) rows: List<RouteRow>,
    pub(crate) journal: List<Delivery>,
    pub(crate) totals: Totals,
    pub(crate) is_quiet: bool,
}

// A run of the new nodes of the network, over its algebra.
fn run_with<A: Algebra + Sync, G: Gate, R: Threads + Wait + Sync>(
    rt: &R,
    alloc: Global,
    algebra: &A,
    net: &Net,
    workers: u32,
    turns: u64,
    gate: &G,
) -> Result<Ran, NoMemory>
where
    A::Sig: Send,
    A::Lab: Send,
    requires algebra { A.expression algebra.now ≡ net.now.alg.expression }
    requires net { IsNet net.now }
    requires workers { (0 < workers) × (workers ≤ MAX_WORKERS) }
    requires turns { turns ≤ MAX_CLOCK }
{
    let nodes = new_nodes(alloc, algebra, net)?;
    let WeaveEnd {
        nodes,
        journal,
        totals,
        quiet,
    } = weave(rt, alloc, net, nodes, workers, turns, gate)?;
    let rows = rows_of(alloc, nodes.as_slice())?;
    Ok(Ran {
        rows,
        journal: journal.entries(alloc)?,
        totals,
        is_quiet: quiet,
    })
}

// A run of the new nodes of the network.
pub(crate) fn run<G: Gate, R: Threads + Wait + Sync>(
    rt: &R,
    alloc: Global,
    net: &Net,
    workers: u32,
    turns: u64,
    gate: &G,
) -> Result<Ran, Fail> {
    if workers == 0 || workers > MAX_WORKERS || turns > MAX_CLOCK {
        return Err("there can't be so many workers or turns".into());
    }
    let algebra = TreeAlgebra::new(net.alg());
    Ok(run_with(rt, alloc, &algebra, net, workers, turns, gate)?)
}
