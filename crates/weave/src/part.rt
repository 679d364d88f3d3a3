// What a worker is lent for a round, and how it counts.
ghost use Rattle.std.specs.Prelude.{◌≡◌, OnOk};
ghost use Rattle.net_graph.specs.Nets.{IsNet};
ghost use Rattle.weave.specs.Blocks.{HasWorked, IsEntered, IsReady};

use crate::block::{Block, step};
use crate::sending::flush_all;
use meta_base::{ArcId, Gate, NoMemory};
use net_graph::Net;
use node_core::{NodeCore, Outgoing};
use quiet_ledger::{Book, Share};
use std::alloc::Global;
use std::sync::Wait;

/// What a worker is lent for a round: its block, how many deliveries it may make, and how many messages were sent and
/// taken: those in its share of the book, and those that aren't there yet.
#[derive(Drop)]
pub struct Part<N: NodeCore> {
    pub(crate) block: Block<N>,
    // Where a node puts what it sends. Its memory is used again.
    pub(crate) outbox: Outgoing<N::Message>,
    pub(crate) turns: u64,
    pub(crate) share: Share,
    pub(crate) sent: u64,
    pub(crate) taken: u64,
    pub(crate) refused: bool,
}

/// Makes the delivery on the arc, if its listener is here, a message is seen and a turn is left. True if it was made.
pub(crate) fn turn<N: NodeCore, G: Gate>(
    alloc: Global,
    part: &mut Part<N>,
    net: &Net,
    arc: ArcId,
    worker: u32,
    gate: &G,
) -> Result<bool, NoMemory>
    requires net { IsNet net.now }
    requires ready { IsReady N.state N.note N.kind net.now part.old }
    ensures worked { OnOk result (HasWorked N.state N.note N.kind net.now part.old part.new) }
    ensures ready { OnOk result (IsReady N.state N.note N.kind net.now part.new) }
    ensures refused { part.new.refused ≡ part.old.refused }
{
    if part.turns == 0 || arc.0 as usize >= net.arc_count() {
        return Ok(false);
    }
    let Some(sent) = step(
        alloc,
        &mut part.block,
        &mut part.outbox,
        net,
        arc,
        worker,
        gate,
    )?
    else {
        return Ok(false);
    };
    part.turns -= 1;
    part.taken += 1;
    part.sent += sent;
    Ok(true)
}

/// Enters in the book what isn't there yet.
pub(crate) fn commit<N: NodeCore, R: Wait>(rt: &R, part: &mut Part<N>, net: &Net, book: &Book)
    requires ready { IsReady N.state N.note N.kind net.now part.old }
    ensures worked { HasWorked N.state N.note N.kind net.now part.old part.new }
    ensures ready { IsReady N.state N.note N.kind net.now part.new }
    ensures entered { IsEntered part.new }
    ensures refused { part.new.refused ≡ part.old.refused }
{
    let _net = net;
    book.commit(rt, &mut part.share, part.sent, part.taken);
    part.sent = 0;
    part.taken = 0;
}

/// Passes on to other workers what was sent to them, as far as their rings have room.
pub(crate) fn flush<N: NodeCore>(part: &mut Part<N>, net: &Net) -> Result<(), NoMemory>
    requires ready { IsReady N.state N.note N.kind net.now part.old }
    ensures worked { HasWorked N.state N.note N.kind net.now part.old part.new }
    ensures ready { IsReady N.state N.note N.kind net.now part.new }
    ensures entered { IsEntered part.old → IsEntered part.new }
    ensures refused { part.new.refused ≡ part.old.refused }
{
    let _net = net;
    flush_all(&mut part.block.lanes, &mut part.block.unsent)
}
