// A round: the blocks are lent to workers, one to each, and come back.
ghost use Rattle.std.specs.Prelude.{◌≡◌, ◌<◌, ◌≤◌, ◌*◌, ◌+◌, ◌^◌, ℕ, All, false, vec_len, length, map, IfOk, Some, slice_get, slice_index_or};
ghost use Rattle.net_graph.specs.Nets.{IsNet};
ghost use Rattle.net_graph.specs.declared.limits.TheConstants.{MAX_ARCS};
ghost use Rattle.node_core.specs.declared.node.TheConstants.{MAX_CLOCK};
ghost use Rattle.node_core.specs.Running.{IsRunning};
ghost use Rattle.quiet_ledger.specs.Ledger.{sent_by, taken_by};
ghost use Rattle.quiet_ledger.specs.declared.book.TheConstants.{MAX_BASE, MAX_WORKERS};
ghost use Rattle.weave.specs.Blocks.{HasWorked, IsEntered, IsFresh, IsReady};
ghost use Rattle.weave.specs.Gathered.{AreGathered, machine_across, view_at};
ghost use Rattle.weave.specs.Rounds.{AreLent, IsRound, share_of};

use crate::block::Block;
use crate::links::{block_at, link_blocks, settle_blocks};
use crate::part::Part;
use crate::worker::work;
use meta_base::{ArcId, Gate, List, NoMemory};
use net_graph::Net;
use node_core::NodeCore;
use quiet_ledger::{Book, Share, Totals};
use std::alloc::Global;
use std::collections::VecDeque;
use std::sync::Wait;
use std::thread;
use std::thread::Threads;

/// What a round begins with.
#[derive(Clone, Copy, Debug)]
pub(crate) struct Plan {
    /// How many messages were sent and taken before it.
    pub(crate) totals: Totals,
    /// How many deliveries may still be made.
    pub(crate) turns: u64,
    /// The first arc on which a message waits, or waited before the delivery that came first.
    pub(crate) arc: Option<ArcId>,
}

// What a worker is lent: a block, a share of the book in which nothing is entered, and turns.
fn part_of<N: NodeCore>(alloc: Global, block: Block<N>, share: Share, turns: u64) -> Part<N>
    requires { (sent_by share ≡ 0) × (taken_by share ≡ 0) }
    ensures block { result.block ≡ block }
    ensures turns { result.turns ≡ turns }
    ensures fresh { IsFresh result }
{
    Part {
        block,
        outbox: List::new(alloc),
        turns,
        share,
        sent: 0,
        taken: 0,
        refused: false,
    }
}

// The parts of all workers: each has a block and as many turns as the others; those that can't be shared so go to one
// of them.
fn lent<N: NodeCore>(
    alloc: Global,
    blocks: Vec<Block<N>>,
    shares: List<Share>,
    turns: u64,
    extra: usize,
) -> Result<Vec<Part<N>>, NoMemory>
    requires count { (0 < vec_len blocks) × (length shares ≡ vec_len blocks) }
    requires zero { All (λ share. (sent_by share ≡ 0) × (taken_by share ≡ 0)) shares }
    ensures count { IfOk result (λ parts. vec_len parts ≡ vec_len blocks) }
    ensures lent { IfOk result (λ parts. AreLent turns (vec_len blocks) extra blocks.items parts.items) }
{
    let count = blocks.len() as u64;
    let mut parts = Vec::with_capacity(alloc, blocks.len())?;
    let mut shares = VecDeque::from_vec(shares.into_vec());
    for block in blocks {
        let Some(share) = shares.pop_front() else {
            unreachable!()
        };
        let turns = turns_of(turns, count, extra, parts.len());
        parts.push(part_of(alloc, block, share, turns))?;
    }
    Ok(parts)
}

// The turns of one of so many workers.
fn turns_of(turns: u64, count: u64, extra: usize, worker: usize) -> u64
    requires { 0 < count }
    ensures { result ≡ share_of turns count extra worker }
{
    let rest = if worker == extra { turns % count } else { 0 };
    turns / count + rest
}

// Lends each part to a worker on a thread of its own, and waits for all.
fn run_workers<N: NodeCore + Send, G: Gate, R: Threads + Wait + Sync>(
    rt: &R,
    alloc: Global,
    net: &Net,
    book: &Book,
    parts: &mut Vec<Part<N>>,
    gate: &G,
)
where
    N::Message: Send,
    requires net { IsNet net.now }
    requires count { (0 < vec_len parts.old) × (vec_len parts.old ≤ MAX_WORKERS) }
    requires ready { All (IsReady N.state N.note N.kind net.now) parts.old.items }
    requires fresh { All (λ part. part.refused ≡ false) parts.old.items }
    ensures count { vec_len parts.new ≡ vec_len parts.old }
    ensures worked { (w : ℕ) (d : _) → w < vec_len parts.old → (slice_index_or parts.new.items w d).refused ≡ false
        → HasWorked N.state N.note N.kind net.now (slice_index_or parts.old.items w d)
        (slice_index_or parts.new.items w d) × IsEntered (slice_index_or parts.new.items w d) }
{
    let count = parts.len();
    thread::for_each_mut(
        rt,
        parts.as_mut_slice(),
        count,
        &|w: usize, part: &mut Part<N>|
            requires { (w < MAX_WORKERS) × (IsNet net.now) × IsReady N.state N.note N.kind net.now part.old
                × (part.old.refused ≡ false) }
            ensures { part.new.refused ≡ false → HasWorked N.state N.note N.kind net.entry.now part.old part.new
                × IsEntered part.new }
        { work(rt, alloc, part, net, book, w as u32, gate) },
    );
}

// The blocks and the shares of all parts, unless one was refused.
fn returned<N: NodeCore>(
    alloc: Global,
    parts: Vec<Part<N>>,
) -> Result<(Vec<Block<N>>, List<Share>), NoMemory>
    ensures blocks { IfOk result (λ r. r.0.items ≡ map (λ part. part.block) parts.items) }
    ensures shares { IfOk result (λ r. r.1 ≡ map (λ part. part.share) parts.items) }
    ensures worked { IfOk result (λ r. All (λ part. part.refused ≡ false) parts.items) }
{
    let mut blocks = Vec::with_capacity(alloc, parts.len())?;
    let mut shares = List::new(alloc);
    for part in parts {
        if part.refused {
            return Err(NoMemory);
        }
        blocks.push(part.block)?;
        shares.push(part.share)?;
    }
    Ok((blocks, shares))
}

/// A round: each arc between two blocks gets a link, each block is lent to a worker with a part of the turns, and when
/// all workers have ended their parts, what was sent and not received waits with the listeners again. It answers the
/// blocks, and how many messages were sent and taken so far.
pub(crate) fn run_round<N: NodeCore + Send, G: Gate, R: Threads + Wait + Sync>(
    rt: &R,
    alloc: Global,
    net: &Net,
    mut blocks: Vec<Block<N>>,
    plan: Plan,
    gate: &G,
) -> Result<(Vec<Block<N>>, Totals), NoMemory>
where
    N::Message: Send,
    requires net { IsNet net.now }
    requires count { (0 < vec_len blocks) × (vec_len blocks ≤ MAX_WORKERS) }
    requires gathered { AreGathered net.now (vec_len blocks) (view_at N.state N.note blocks.items) }
    requires running { IsRunning N.kind net.now
        (machine_across net.now (vec_len blocks) (view_at N.state N.note blocks.items)) }
    requires turns { plan.turns ≤ MAX_CLOCK }
    requires base { (plan.totals.sent ≤ MAX_BASE) × (plan.totals.taken ≤ MAX_BASE) }
    ensures count { IfOk result (λ r. vec_len r.0 ≡ vec_len blocks) }
    ensures round { IfOk result (λ r. IsRound N.kind net.now (vec_len blocks) plan.turns
        (view_at N.state N.note blocks.items) (view_at N.state N.note r.0.items) plan.totals r.1) }
{
    let count = blocks.len();
    let (book, shares) = Book::new(alloc, count as u32, plan.totals)?;
    link_blocks(alloc, net, &mut blocks)?;
    let extra = block_with(net, plan.arc, count);
    let mut parts = lent(alloc, blocks, shares, plan.turns, extra)?;
    run_workers(rt, alloc, net, &book, &mut parts, gate);
    let (mut blocks, shares) = returned(alloc, parts)?;
    let totals = Book::gather(book, shares);
    settle_blocks(alloc, net, &mut blocks)?;
    Ok((blocks, totals))
}

// The block in which the listener of the arc stands; the first, where there is no such arc.
fn block_with(net: &Net, arc: Option<ArcId>, count: usize) -> usize
    requires { 0 < count }
    ensures { result < count }
{
    match arc {
        Some(arc) if (arc.0 as usize) < net.arc_count() => block_at(net.arc(arc).tail, count),
        _ => 0,
    }
}
