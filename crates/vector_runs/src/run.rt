ghost use Rattle.std.specs.Prelude.{◌≡◌, ◌<◌, ◌≤◌, IfOk, map};
ghost use Rattle.node_core.specs.declared.node.TheConstants.{MAX_CLOCK};
ghost use Rattle.quiet_ledger.specs.declared.book.TheConstants.{MAX_WORKERS};
ghost use Rattle.vector_runs.specs.Runs.{AreLater, IsRun, pure_phase};

use crate::finder::VectorFinder;
use crate::nodes::{carried_nodes, new_nodes};
use crate::one_worker::run_alone;
use alg_model::Algebra;
use meta_base::{Gate, List, NoMemory};
use net_graph::{Net, RouteRow};
use node_runs::{Budget, Journal, Ran, run_once};
use std::alloc::Global;
use std::sync::Wait;
use std::thread::Threads;

/// A phase of a run.
#[derive(Debug, Drop)]
pub struct Phase {
    /// The routes of the nodes at its end, by destination, then node.
    pub rows: List<RouteRow>,
    /// Its deliveries, by clock, then by listener.
    pub journal: Journal,
}

/// What a run through phases came to.
#[derive(Debug, Drop)]
pub struct PhasedRun {
    /// The phases before the last, each of which ended with nothing on its way.
    pub past: List<Phase>,
    pub last: Phase,
    /// Nothing was on its way at the end, on the last network.
    pub is_quiet: bool,
}

/// Runs the new nodes of a network until nothing is on its way, and then carries them to each of the networks that it
/// changes to, one after another, and runs them there; it ends before that where all turns are used up. The budget's
/// turns are for all phases together. In each phase its workers make the deliveries, at once, on threads of their own,
/// so which are made in which order is theirs; one worker makes them on the caller's thread. The gate gets a report of
/// each. The algebra is that of all networks, which differ in their arcs alone. It is refused for want of memory alone.
pub fn run_phases<A: Algebra + Sync, G: Gate, R: Threads + Wait + Sync>(
    rt: &R,
    alloc: Global,
    algebra: &A,
    net: &Net,
    changed: &[Net],
    budget: Budget,
    gate: &G,
) -> Result<PhasedRun, NoMemory>
where
    A::Sig: Send,
    A::Lab: Send,
    requires algebra { A.expression algebra.now ≡ net.now.alg.expression }
    requires changed { AreLater net.now changed.now }
    requires workers { (0 < budget.workers) × (budget.workers ≤ MAX_WORKERS) }
    requires turns { budget.turns ≤ MAX_CLOCK }
    ensures { IfOk result (λ run. IsRun net.now changed.now budget.turns
        (map pure_phase run.past) (pure_phase run.last) run.is_quiet) }
{
    if budget.workers == 1 && changed.is_empty() {
        return run_alone(alloc, algebra, net, budget.turns, gate);
    }
    let finder = VectorFinder::new();
    let mut past = List::new(alloc);
    let mut left = budget;
    let nodes = new_nodes(alloc, algebra, net)?;
    let mut now = run_once(rt, alloc, &finder, net, nodes, left, gate)?;
    for next in changed {
        let Ran {
            found: rows,
            journal,
            nodes,
            is_quiet: true,
        } = now
        else {
            break;
        };
        left.turns -= journal.len() as u64;
        past.push(Phase { rows, journal })?;
        let nodes = carried_nodes(alloc, nodes, next)?;
        now = run_once(rt, alloc, &finder, next, nodes, left, gate)?;
    }
    Ok(PhasedRun {
        past,
        last: Phase {
            rows: now.found,
            journal: now.journal,
        },
        is_quiet: now.is_quiet,
    })
}
