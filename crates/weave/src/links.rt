// How what waits between workers goes onto links before a round, and off them after it.
ghost use Rattle.std.specs.Prelude.{◌≡◌, ◌<◌, ◌==◌, ℕ, [], false, length, map, vec_len, Some, IfOk, OnOk};
ghost use Rattle.link_queues.specs.Links.{in_link, out_link, received_on, sent_on};
ghost use Rattle.link_queues.specs.Locals.{waiting_of};
ghost use Rattle.net_graph.specs.Nets.{IsNet};
ghost use Rattle.node_core.specs.Kinds.{listener, speaker};
ghost use Rattle.weave.specs.Arcs.{GetsLink, HaveEnds, IsComing, IsDoneBetween, IsDoneOn, IsGoing, IsReplaced, IsWhole, LosesLink};
ghost use Rattle.weave.specs.Gathered.{AreEnded, AreGathered, AreLinked, AreSettled, block_of, view_at};
ghost use Rattle.weave.specs.Lanes.{coming, elsewhere, going, inside};

use crate::block::Block;
use crate::lane::Lane;
use crate::order::{forget_all, note_between, note_ready};
use crate::replacing::replace_lane;
use link_queues::{InEnd, Local, OutEnd, link, settle_pair};
use meta_base::{ArcId, List, NoMemory, NodeId};
use net_graph::Net;
use node_core::NodeCore;
use std::alloc::Global;

// How many messages the ring of a link has room for.
const RING: usize = 32;

/// The number of the node's block, among so many.
pub(crate) fn block_at(node: NodeId, count: usize) -> usize
    requires count { 0 < count }
    ensures block { result ≡ block_of count node.0 }
    ensures among { result < count }
{
    node.0 as usize % count
}

// A new link on which these messages were sent.
fn linked<M: Drop>(alloc: Global, waits: List<M>) -> Result<(InEnd<M>, OutEnd<M>), NoMemory>
    ensures link { IfOk result (λ ends. out_link ends.1 ≡ in_link ends.0) }
    ensures received { IfOk result (λ ends. received_on ends.0 ≡ []) }
    ensures sent { IfOk result (λ ends. sent_on ends.1 ≡ waits) }
{
    let (mut out, into) = link(alloc, RING)?;
    let waits = waits.into_vec();
    out.reserve(waits.len())?;
    for message in waits {
        out.send(message);
    }
    out.flush();
    Ok((into, out))
}

/// Takes out what waits on the arc, which is whole in the block.
pub(crate) fn take_waiting<N: NodeCore>(
    blocks: &mut Vec<Block<N>>,
    block: usize,
    arc: ArcId,
) -> Result<Local<N::Message>, NoMemory>
    requires block { block < vec_len blocks.old }
    requires whole { IsWhole ((view_at N.state N.note blocks.old.items block).lane arc.0) }
    ensures count { vec_len blocks.new ≡ vec_len blocks.old }
    ensures taken { IfOk result (λ queue. IsReplaced
        (view_at N.state N.note blocks.old.items) (view_at N.state N.note blocks.new.items) block arc.0
        (inside (map N.note (waiting_of queue))) elsewhere) }
{
    match replace_lane(blocks, block, arc, Lane::Elsewhere)? {
        Lane::Inside(queue) => Ok(queue),
        _ => unreachable!(),
    }
}

// Puts the ends of the arc's link into the blocks of its listener and its speaker.
fn put_ends<N: NodeCore>(
    blocks: &mut Vec<Block<N>>,
    heard: usize,
    spoken: usize,
    arc: ArcId,
    ends: (InEnd<N::Message>, OutEnd<N::Message>),
) -> Result<(), NoMemory>
    requires blocks { (heard < vec_len blocks.old) × (spoken < vec_len blocks.old) × ((heard == spoken) ≡ false) }
    ensures count { vec_len blocks.new ≡ vec_len blocks.old }
    ensures put { OnOk result (IsDoneBetween
        (λ _ _ into out. (into ≡ coming (in_link ends.0) (map N.note (received_on ends.0)))
        × (out ≡ going (out_link ends.1) (map N.note (sent_on ends.1))))
        heard spoken arc.0 (view_at N.state N.note blocks.old.items) (view_at N.state N.note blocks.new.items)) }
{
    let (into, out) = ends;
    note_between(blocks, heard, spoken, arc, out.unsent() > 0)?;
    replace_lane(blocks, heard, arc, Lane::From(into))?;
    replace_lane(blocks, spoken, arc, Lane::To(out))?;
    Ok(())
}

// Makes a link for an arc between two blocks.
fn link_between<N: NodeCore>(
    alloc: Global,
    blocks: &mut Vec<Block<N>>,
    heard: usize,
    spoken: usize,
    arc: ArcId,
) -> Result<(), NoMemory>
    requires blocks { (heard < vec_len blocks.old) × (spoken < vec_len blocks.old) × ((heard == spoken) ≡ false) }
    requires whole { IsWhole ((view_at N.state N.note blocks.old.items heard).lane arc.0) }
    ensures count { vec_len blocks.new ≡ vec_len blocks.old }
    ensures linked { OnOk result (IsDoneBetween GetsLink heard spoken arc.0
        (view_at N.state N.note blocks.old.items) (view_at N.state N.note blocks.new.items)) }
{
    let queue = take_waiting(blocks, heard, arc)?;
    let ends = linked(alloc, queue.into_list())?;
    put_ends(blocks, heard, spoken, arc, ends)
}

// Makes a link for the arc, if it is between two blocks.
fn link_arc<N: NodeCore>(
    alloc: Global,
    net: &Net,
    blocks: &mut Vec<Block<N>>,
    arc: ArcId,
) -> Result<(), NoMemory>
    requires arc { arc.0 < length net.now.arcs }
    requires count { 0 < vec_len blocks.old }
    requires whole { (i : ℕ) → listener net.now arc.0 ≡ Some i
        → IsWhole ((view_at N.state N.note blocks.old.items (block_of (vec_len blocks.old) i)).lane arc.0) }
    ensures count { vec_len blocks.new ≡ vec_len blocks.old }
    ensures linked { OnOk result (IsDoneOn GetsLink net.now (vec_len blocks.old) arc.0
        (view_at N.state N.note blocks.old.items) (view_at N.state N.note blocks.new.items)) }
{
    let ends = net.arc(arc);
    let heard = block_at(ends.tail, blocks.len());
    let spoken = block_at(ends.head, blocks.len());
    if heard == spoken {
        note_ready(blocks, heard, arc)
    } else {
        link_between(alloc, blocks, heard, spoken, arc)
    }
}

/// Makes a link for each arc between two blocks, and sends on it what waits there.
pub(crate) fn link_blocks<N: NodeCore>(
    alloc: Global,
    net: &Net,
    blocks: &mut Vec<Block<N>>,
) -> Result<(), NoMemory>
    requires net { IsNet net.now }
    requires count { 0 < vec_len blocks.old }
    requires gathered { AreGathered net.now (vec_len blocks.old) (view_at N.state N.note blocks.old.items) }
    ensures count { vec_len blocks.new ≡ vec_len blocks.old }
    ensures linked { OnOk result (AreLinked net.now (vec_len blocks.old)
        (view_at N.state N.note blocks.old.items) (view_at N.state N.note blocks.new.items)) }
{
    forget_all(blocks);
    for number in 0..net.arc_count() {
        link_arc(alloc, net, blocks, ArcId(number as u32))?;
    }
    Ok(())
}

// Takes out the end that receives, which the block has of the arc.
fn take_into<N: NodeCore>(
    blocks: &mut Vec<Block<N>>,
    block: usize,
    arc: ArcId,
) -> Result<InEnd<N::Message>, NoMemory>
    requires block { block < vec_len blocks.old }
    requires coming { IsComing ((view_at N.state N.note blocks.old.items block).lane arc.0) }
    ensures count { vec_len blocks.new ≡ vec_len blocks.old }
    ensures taken { IfOk result (λ into. IsReplaced
        (view_at N.state N.note blocks.old.items) (view_at N.state N.note blocks.new.items) block arc.0
        (coming (in_link into) (map N.note (received_on into))) elsewhere) }
{
    match replace_lane(blocks, block, arc, Lane::Elsewhere)? {
        Lane::From(into) => Ok(into),
        _ => unreachable!(),
    }
}

// Takes out the end that sends, which the block has of the arc.
fn take_out<N: NodeCore>(
    blocks: &mut Vec<Block<N>>,
    block: usize,
    arc: ArcId,
) -> Result<OutEnd<N::Message>, NoMemory>
    requires block { block < vec_len blocks.old }
    requires going { IsGoing ((view_at N.state N.note blocks.old.items block).lane arc.0) }
    ensures count { vec_len blocks.new ≡ vec_len blocks.old }
    ensures taken { IfOk result (λ out. IsReplaced
        (view_at N.state N.note blocks.old.items) (view_at N.state N.note blocks.new.items) block arc.0
        (going (out_link out) (map N.note (sent_on out))) elsewhere) }
{
    match replace_lane(blocks, block, arc, Lane::Elsewhere)? {
        Lane::To(out) => Ok(out),
        _ => unreachable!(),
    }
}

// Takes the link of an arc between two blocks away. What waits on it stays with the listener.
fn settle_between<N: NodeCore>(
    alloc: Global,
    blocks: &mut Vec<Block<N>>,
    heard: usize,
    spoken: usize,
    arc: ArcId,
) -> Result<(), NoMemory>
    requires blocks { (heard < vec_len blocks.old) × (spoken < vec_len blocks.old) × ((heard == spoken) ≡ false) }
    requires ends { HaveEnds ((view_at N.state N.note blocks.old.items heard).lane arc.0)
        ((view_at N.state N.note blocks.old.items spoken).lane arc.0) }
    ensures count { vec_len blocks.new ≡ vec_len blocks.old }
    ensures settled { OnOk result (IsDoneBetween LosesLink heard spoken arc.0
        (view_at N.state N.note blocks.old.items) (view_at N.state N.note blocks.new.items)) }
{
    let into = take_into(blocks, heard, arc)?;
    let out = take_out(blocks, spoken, arc)?;
    let waits = Local::from_list(settle_pair(alloc, out, into)?);
    replace_lane(blocks, heard, arc, Lane::Inside(waits))?;
    Ok(())
}

// Takes the link of the arc away, if it is between two blocks.
fn settle_arc<N: NodeCore>(
    alloc: Global,
    net: &Net,
    blocks: &mut Vec<Block<N>>,
    arc: ArcId,
) -> Result<(), NoMemory>
    requires arc { arc.0 < length net.now.arcs }
    requires count { 0 < vec_len blocks.old }
    requires ends { (i j : ℕ) → listener net.now arc.0 ≡ Some i → speaker net.now arc.0 ≡ Some j
        → (block_of (vec_len blocks.old) i == block_of (vec_len blocks.old) j) ≡ false
        → HaveEnds ((view_at N.state N.note blocks.old.items (block_of (vec_len blocks.old) i)).lane arc.0)
        ((view_at N.state N.note blocks.old.items (block_of (vec_len blocks.old) j)).lane arc.0) }
    ensures count { vec_len blocks.new ≡ vec_len blocks.old }
    ensures settled { OnOk result (IsDoneOn LosesLink net.now (vec_len blocks.old) arc.0
        (view_at N.state N.note blocks.old.items) (view_at N.state N.note blocks.new.items)) }
{
    let ends = net.arc(arc);
    let heard = block_at(ends.tail, blocks.len());
    let spoken = block_at(ends.head, blocks.len());
    if heard == spoken {
        Ok(())
    } else {
        settle_between(alloc, blocks, heard, spoken, arc)
    }
}

/// Takes the links of all arcs between two blocks away. What was sent and not received waits with the listener.
pub(crate) fn settle_blocks<N: NodeCore>(
    alloc: Global,
    net: &Net,
    blocks: &mut Vec<Block<N>>,
) -> Result<(), NoMemory>
    requires net { IsNet net.now }
    requires count { 0 < vec_len blocks.old }
    requires ended { AreEnded net.now (vec_len blocks.old) (view_at N.state N.note blocks.old.items) }
    ensures count { vec_len blocks.new ≡ vec_len blocks.old }
    ensures settled { OnOk result (AreSettled net.now (vec_len blocks.old)
        (view_at N.state N.note blocks.old.items) (view_at N.state N.note blocks.new.items)) }
{
    for number in 0..net.arc_count() {
        settle_arc(alloc, net, blocks, ArcId(number as u32))?;
    }
    Ok(())
}
