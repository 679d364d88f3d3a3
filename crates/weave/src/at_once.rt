// Deliveries that several workers make at once.
ghost use Rattle.std.specs.Prelude.{◌≡◌, ◌<◌, ◌≤◌, ◌^◌, ℕ, [], map, length, nat_lt, slice_get, vec_len, IfOk, IfNone, IfSome};
ghost use Rattle.net_graph.specs.Nets.{IsNet};
ghost use Rattle.node_core.specs.declared.node.TheConstants.{MAX_CLOCK};
ghost use Rattle.node_core.specs.Machine.{Drained, Machine};
ghost use Rattle.node_core.specs.Running.{AreUpTo, IsRunning};
ghost use Rattle.quiet_ledger.specs.declared.book.TheConstants.{MAX_WORKERS};
ghost use Rattle.woven_laws.specs.Counts.{waiting_on};
ghost use Rattle.weave.specs.Gathered.{machine_across, view_at};
ghost use Rattle.weave.specs.Going.{HasEnded, IsOver};
ghost use Rattle.weave.specs.Lanes.{lane_in, waits_inside};
ghost use Rattle.weave.specs.Rounds.{HasCome};
ghost use Rattle.weave.specs.Started.{IsStarted};

use crate::between::deliver_between;
use crate::block::Block;
use crate::dealing::blocks_of;
use crate::gathering::take_apart;
use crate::lane::Lane;
use crate::links::block_at;
use crate::phase::{Budget, keeps_laws};
use crate::rounds::{Plan, run_round};
use crate::started::{Ended, Started, keeps_rules};
use meta_base::{ArcId, Gate, NoMemory};
use net_graph::Net;
use node_core::NodeCore;
use quiet_ledger::Totals;
use std::alloc::Global;
use std::sync::Wait;
use std::thread::Threads;
use woven_laws::histories_count;

/// Has so many workers make deliveries at once, each among the nodes of a block, at most so many in all as the budget has
/// turns, until nothing is on its way. It is refused for want of memory alone.
pub(crate) fn run_at_once<N: NodeCore + Send, G: Gate, R: Threads + Wait + Sync>(
    rt: &R,
    alloc: Global,
    net: &Net,
    started: Started<N, N::Message>,
    count: usize,
    budget: Budget,
    gate: &G,
) -> Result<Ended<N>, NoMemory>
where
    N::Message: Send,
    requires count { (0 < count) × (count ≤ MAX_WORKERS) }
    requires turns { budget.turns ≤ MAX_CLOCK }
    requires started { (c : Machine N.State N.Note) × IsStarted N.state N.note N.kind net.now c started }
    ensures { (c : Machine N.State N.Note) → IsStarted N.state N.note N.kind net.now c started
        → IfOk result (λ e. HasEnded N.kind net.now budget.turns c (map N.state e.nodes) e.logs e.totals) }
{
    keeps_rules(net);
    keeps_laws::<N>();
    let totals = Totals {
        sent: started.waiting,
        taken: 0,
    };
    let blocks = blocks_of(alloc, net, started.nodes, started.links, count)?;
    let (blocks, totals) = run_rounds(rt, alloc, net, blocks, totals, budget, gate)?;
    let (nodes, logs) = take_apart(alloc, net, blocks)?;
    Ok(Ended {
        nodes,
        logs,
        totals,
    })
}

// Rounds, until nothing is on its way or all turns are used up. Each but the first begins with a delivery.
fn run_rounds<N: NodeCore + Send, G: Gate, R: Threads + Wait + Sync>(
    rt: &R,
    alloc: Global,
    net: &Net,
    blocks: Vec<Block<N>>,
    totals: Totals,
    budget: Budget,
    gate: &G,
) -> Result<(Vec<Block<N>>, Totals), NoMemory>
where
    N::Message: Send,
    requires net { IsNet net.now }
    requires count { (0 < vec_len blocks) × (vec_len blocks ≤ MAX_WORKERS) }
    requires turns { budget.turns ≤ MAX_CLOCK }
    requires begun { (c : Machine N.State N.Note) × IsRunning N.kind net.now c × (waiting_on net.now c ≤ 2 ^ 20)
        × HasCome N.kind net.now (vec_len blocks) budget.turns c (view_at N.state N.note blocks.items) totals
        × AreUpTo N.kind c 0 }
    ensures count { IfOk result (λ r. vec_len r.0 ≡ vec_len blocks) }
    ensures come { IfOk result (λ r. (c : Machine N.State N.Note)
        → IsRunning N.kind net.now c → waiting_on net.now c ≤ 2 ^ 20
        → HasCome N.kind net.now (vec_len blocks) budget.turns c (view_at N.state N.note blocks.items) totals
        → HasCome N.kind net.now (vec_len blocks) budget.turns c (view_at N.state N.note r.0.items) r.1) }
    ensures over { IfOk result (λ r. IsOver budget.turns r.1) }
{
    let Budget { workers, turns } = budget;
    keeps_laws::<N>();
    histories_count::<N>();
    if totals.sent == totals.taken || totals.taken == turns {
        return Ok((blocks, totals));
    }
    let plan = Plan {
        totals,
        turns: turns - totals.taken,
        arc: first_waiting(net, &blocks),
    };
    let (mut blocks, mut totals) = run_round(rt, alloc, net, blocks, plan, gate)?;
    loop {
        if totals.sent == totals.taken || totals.taken == turns {
            return Ok((blocks, totals));
        }
        let Some(arc) = first_waiting(net, &blocks) else {
            unreachable!()
        };
        let sent = deliver_between(alloc, net, &mut blocks, arc, workers, gate)?;
        totals.sent += sent;
        totals.taken += 1;
        let plan = Plan {
            totals,
            turns: turns - totals.taken,
            arc: Some(arc),
        };
        (blocks, totals) = run_round(rt, alloc, net, blocks, plan, gate)?;
    }
}

// The first arc on which a message waits, if one waits anywhere.
fn first_waiting<N: NodeCore>(net: &Net, blocks: &[Block<N>]) -> Option<ArcId>
    requires { 0 < length blocks.now }
    ensures arc { IfSome result (λ arc. arc.0 < length net.now.arcs) }
    ensures some { IfSome result (λ arc. 0 < length ((machine_across net.now (length blocks.now)
        (view_at N.state N.note blocks.now)).link arc.0)) }
    ensures first { IfSome result (λ arc. (a : ℕ) → a < arc.0 → (machine_across net.now (length blocks.now)
        (view_at N.state N.note blocks.now)).link a ≡ []) }
    ensures none { IfNone result (Drained (machine_across net.now (length blocks.now)
        (view_at N.state N.note blocks.now))) }
{
    for id in 0..net.arc_count() {
        let arc = ArcId(id as u32);
        let block = block_at(net.arc(arc).tail, blocks.len());
        if waits_on(&blocks[block].lanes, id) {
            return Some(arc);
        }
    }
    None
}

// Whether a message waits on the arc of that number, inside a block.
fn waits_on<M>(lanes: &[Lane<M>], id: usize) -> bool
    ensures { result ≡ nat_lt 0 (length (waits_inside (lane_in (slice_get lanes.now id)))) }
{
    match lanes.get(id) {
        Some(Lane::Inside(queue)) => queue.waiting() > 0,
        Some(Lane::Elsewhere | Lane::From(_) | Lane::To(_)) | None => false,
    }
}
