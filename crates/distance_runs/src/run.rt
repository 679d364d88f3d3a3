ghost use Rattle.std.specs.Prelude.{◌≡◌, ◌<◌, ◌≤◌, Some, IfOk, map};
ghost use Rattle.arc_labels.specs.Neighbours.{AreSpeakerLabels};
ghost use Rattle.net_graph.specs.Nets.{IsNet};
ghost use Rattle.node_core.specs.declared.node.TheConstants.{MAX_CLOCK};
ghost use Rattle.quiet_ledger.specs.declared.book.TheConstants.{MAX_WORKERS};
ghost use Rattle.distance_node.specs.Rows.{pure_hop_row};
ghost use Rattle.distance_runs.specs.Runs.{IsDistanceRun};

use alg_model::Algebra;
use arc_labels::{NeighbourLabels, label_forms, speaker_labels};
use distance_node::{HopRow, Mark, hop_rows, new_nodes};
use meta_base::{Gate, List, NoMemory};
use net_graph::Net;
use std::alloc::Global;
use std::marker::Brand;
use std::sync::Wait;
use std::thread::Threads;
use weave::{Budget, Journal, WeaveEnd, weave};

/// What a run of distance-vector nodes came to.
#[derive(Debug, Drop)]
pub struct DistanceRun {
    /// The rows of the nodes at its end, with their next hops, by destination, then node.
    pub hops: List<HopRow>,
    /// Its deliveries, by clock, then by listener.
    pub journal: Journal,
    /// Nothing was on its way at the end.
    pub is_quiet: bool,
}

/// Runs the new distance-vector nodes of a network, until nothing is on its way or all turns of the budget are used up.
/// The budget's workers make the deliveries at once, on threads of their own, so which are made in which order is
/// theirs; the gate gets a report of each. The algebra is the network's, in whatever form its values have. It is refused
/// for want of memory alone.
pub fn run_distance<A: Algebra + Sync, G: Gate, R: Threads + Wait + Sync>(
    rt: &R,
    alloc: Global,
    algebra: &A,
    net: &Net,
    budget: Budget,
    gate: &G,
) -> Result<DistanceRun, NoMemory>
where
    A::Sig: Send,
    A::Lab: Sync,
    requires algebra { A.expression algebra.now ≡ net.now.alg.expression }
    requires workers { (0 < budget.workers) × (budget.workers ≤ MAX_WORKERS) }
    requires turns { budget.turns ≤ MAX_CLOCK }
    ensures { IfOk result (λ run.
        IsDistanceRun net.now budget.turns (map pure_hop_row run.hops) run.journal run.is_quiet) }
{
    let forms = label_forms(alloc, algebra, net)?;
    let labels = speaker_labels(alloc, algebra, net, &forms)?;
    run_marked::<A, Brand, G, R>(rt, alloc, algebra, net, &labels, budget, gate)
}

// What `run_distance` gives, by nodes of the algebra's mark, which borrow the labels.
fn run_marked<A: Algebra + Sync, M: Mark<A> + Send, G: Gate, R: Threads + Wait + Sync>(
    rt: &R,
    alloc: Global,
    algebra: &A,
    net: &Net,
    labels: &NeighbourLabels<'_, A::Lab>,
    budget: Budget,
    gate: &G,
) -> Result<DistanceRun, NoMemory>
where
    A::Sig: Send,
    A::Lab: Sync,
    requires mark { M.algebra ≡ Some algebra.now }
    requires algebra { A.expression algebra.now ≡ net.now.alg.expression }
    requires labels { AreSpeakerLabels (A.stands_for algebra.now) net.now labels.now }
    requires workers { (0 < budget.workers) × (budget.workers ≤ MAX_WORKERS) }
    requires turns { budget.turns ≤ MAX_CLOCK }
    ensures { IfOk result (λ run.
        IsDistanceRun net.now budget.turns (map pure_hop_row run.hops) run.journal run.is_quiet) }
{
    keeps_rules(net);
    let nodes = new_nodes::<A, M>(alloc, algebra, net, labels)?;
    let Budget { workers, turns } = budget;
    let WeaveEnd {
        nodes,
        journal,
        quiet: is_quiet,
        ..
    } = weave(rt, alloc, net, nodes, workers, turns, gate)?;
    let hops = hop_rows(alloc, nodes.as_slice())?;
    Ok(DistanceRun {
        hops,
        journal,
        is_quiet,
    })
}

// A network keeps its rules, by which a run ends with one node for each of it.
fn keeps_rules(net: &Net)
    ensures { IsNet net.now }
{
    let _edition = net.edition();
}
