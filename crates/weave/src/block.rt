// The nodes that one worker runs, and what it has of each arc.
ghost use Rattle.std.specs.Prelude.{◌≡◌, ◌<◌, [], length, map, IfOk, IfSome, IfNone};
ghost use Rattle.node_core.specs.Configs.{noted};
ghost use Rattle.weave.specs.Blocks.{view_of, view_over};
ghost use Rattle.weave.specs.Views.{AreSeated, HasTaken, IsLate, IsSameView, TakesOne};

use crate::lane::Lane;
use crate::seat::{Seat, take};
use crate::sending::send_all;
use meta_base::{ArcId, Delivery, Gate, List, NoMemory};
use net_graph::Net;
use node_core::{NodeCore, Outgoing};
use std::alloc::Global;
use std::collections::VecDeque;

/// The nodes that one worker runs, and what it has of each arc: by the numbers of nodes and arcs, with nothing where
/// one isn't its.
#[derive(Drop)]
pub struct Block<N: NodeCore> {
    pub(crate) seats: Vec<Option<Seat<N>>>,
    pub(crate) lanes: Vec<Lane<N::Message>>,
    // Arcs inside the block, one for each message that waits there, in the order in which they were sent.
    pub(crate) ready: VecDeque<ArcId>,
    // Arcs to other blocks on which something was sent that isn't flushed.
    pub(crate) unsent: VecDeque<ArcId>,
    // Arcs from other blocks.
    pub(crate) coming: Vec<ArcId>,
}

/// The listener of the arc takes the message in front there, if both are here and one is seen. What it puts out isn't
/// sent yet.
pub(crate) fn hear<N: NodeCore>(
    seats: &mut Vec<Option<Seat<N>>>,
    lanes: &mut Vec<Lane<N::Message>>,
    net: &Net,
    arc: ArcId,
    out: &mut Outgoing<N::Message>,
) -> Result<Option<Delivery>, NoMemory>
    requires out { out.old ≡ [] }
    requires arc { arc.0 < length net.now.arcs }
    requires seated { AreSeated N.kind net.now (view_over N.state N.note seats.old.items lanes.old.items) }
    ensures none { IfOk result (λ made. IfNone made (IsSameView
        (view_over N.state N.note seats.old.items lanes.old.items)
        (view_over N.state N.note seats.new.items lanes.new.items))) }
    ensures late { IfOk result (λ made. IfNone made (IsLate N.kind net.now
        (view_over N.state N.note seats.old.items lanes.old.items) arc.0)) }
    ensures some { IfOk result (λ made. IfSome made (λ e. HasTaken N.kind net.now
        (view_over N.state N.note seats.old.items lanes.old.items) e (map (noted N.note) out.new) []
        (view_over N.state N.note seats.new.items lanes.new.items))) }
{
    let at = arc.0 as usize;
    let listener = net.arc(arc).tail.0 as usize;
    if at >= lanes.len() || listener >= seats.len() {
        return Ok(None);
    }
    let Some(seat) = &mut seats[listener] else {
        return Ok(None);
    };
    if !take(seat, &mut lanes[at], arc, out)? {
        return Ok(None);
    }
    Ok(Some(Delivery {
        clock: seat.clock,
        arc,
    }))
}

/// The listener of the arc takes the message in front there, if both are here and one is seen, and what it puts into the
/// outbox is sent. The gate gets a report of it, as made by the worker. It answers how many messages were sent, where one
/// was taken.
pub(crate) fn step<N: NodeCore, G: Gate>(
    alloc: Global,
    block: &mut Block<N>,
    outbox: &mut Outgoing<N::Message>,
    net: &Net,
    arc: ArcId,
    worker: u32,
    gate: &G,
) -> Result<Option<u64>, NoMemory>
    requires arc { arc.0 < length net.now.arcs }
    requires seated { AreSeated N.kind net.now (view_of N.state N.note block.old) }
    ensures none { IfOk result (λ sent. IfNone sent
        (IsSameView (view_of N.state N.note block.old) (view_of N.state N.note block.new))) }
    ensures some { IfOk result (λ sent. IfSome sent (λ count. TakesOne N.kind net.now
        (view_of N.state N.note block.old) count (view_of N.state N.note block.new))) }
{
    if !outbox.as_slice().is_empty() {
        *outbox = List::new(alloc);
    }
    let Some(made) = hear(&mut block.seats, &mut block.lanes, net, arc, outbox)? else {
        return Ok(None);
    };
    gate.pass(worker, &made);
    let sent = outbox.as_slice().len() as u64;
    if sent > 0 {
        send_all(
            alloc,
            &mut block.lanes,
            &mut block.ready,
            &mut block.unsent,
            outbox,
        )?;
    }
    Ok(Some(sent))
}
