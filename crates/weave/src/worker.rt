// A worker's part of a round.
ghost use Rattle.std.specs.Prelude.{◌≡◌, ◌<◌, false, true, IfOk, OnOk};
ghost use Rattle.weave.specs.declared.worker.TheConstants.{LOOKS};
ghost use Rattle.net_graph.specs.Nets.{IsNet};
ghost use Rattle.weave.specs.Blocks.{HasWorked, IsEntered, IsReady};

use crate::part::{Part, commit, flush, turn};
use meta_base::{Gate, NoMemory};
use net_graph::Net;
use node_core::NodeCore;
use quiet_ledger::Book;
use std::alloc::Global;
use std::sync::Wait;
use std::thread;

// How many deliveries on arcs inside its block a worker makes before it looks at those from other blocks.
const STRETCH: u32 = 64;

// How many looks in a row find nothing before a worker ends its part.
const LOOKS: u32 = 1000;

// Makes the next delivery inside the block. True if it was made.
fn deliver_ready<N: NodeCore, G: Gate>(
    alloc: Global,
    part: &mut Part<N>,
    net: &Net,
    worker: u32,
    gate: &G,
) -> Result<bool, NoMemory>
    requires net { IsNet net.now }
    requires ready { IsReady N.state N.note N.kind net.now part.old }
    ensures worked { OnOk result (HasWorked N.state N.note N.kind net.now part.old part.new) }
    ensures ready { OnOk result (IsReady N.state N.note N.kind net.now part.new) }
    ensures refused { part.new.refused ≡ part.old.refused }
{
    match part.block.ready.pop_front() {
        Some(arc) => turn(alloc, part, net, arc, worker, gate),
        None => Ok(false),
    }
}

// Makes deliveries on arcs inside the block, in the order in which the messages were sent there.
fn deliver_inside<N: NodeCore, G: Gate>(
    alloc: Global,
    part: &mut Part<N>,
    net: &Net,
    worker: u32,
    gate: &G,
) -> Result<(), NoMemory>
    requires net { IsNet net.now }
    requires ready { IsReady N.state N.note N.kind net.now part.old }
    ensures worked { OnOk result (HasWorked N.state N.note N.kind net.now part.old part.new) }
    ensures ready { OnOk result (IsReady N.state N.note N.kind net.now part.new) }
    ensures refused { part.new.refused ≡ part.old.refused }
{
    for _ in 0..STRETCH {
        if !deliver_ready(alloc, part, net, worker, gate)? {
            break;
        }
    }
    Ok(())
}

// One look at each arc from another block, and the delivery of what is seen there.
fn deliver_coming<N: NodeCore, G: Gate>(
    alloc: Global,
    part: &mut Part<N>,
    net: &Net,
    worker: u32,
    gate: &G,
) -> Result<(), NoMemory>
    requires net { IsNet net.now }
    requires ready { IsReady N.state N.note N.kind net.now part.old }
    ensures worked { OnOk result (HasWorked N.state N.note N.kind net.now part.old part.new) }
    ensures ready { OnOk result (IsReady N.state N.note N.kind net.now part.new) }
    ensures refused { part.new.refused ≡ part.old.refused }
{
    for place in 0..part.block.coming.len() {
        let Some(arc) = part.block.coming.get(place).copied() else {
            break;
        };
        turn(alloc, part, net, arc, worker, gate)?;
    }
    Ok(())
}

// Deliveries inside the block and from other blocks; then they are entered in the book, and only then what was sent is
// passed on: so the book never shows as many taken as sent while something is on its way. True if any was made.
fn stretch<N: NodeCore, G: Gate, R: Wait>(
    rt: &R,
    alloc: Global,
    part: &mut Part<N>,
    net: &Net,
    book: &Book,
    worker: u32,
    gate: &G,
) -> Result<bool, NoMemory>
    requires net { IsNet net.now }
    requires ready { IsReady N.state N.note N.kind net.now part.old }
    ensures worked { OnOk result (HasWorked N.state N.note N.kind net.now part.old part.new) }
    ensures ready { OnOk result (IsReady N.state N.note N.kind net.now part.new) }
    ensures entered { OnOk result (IsEntered part.new) }
    ensures refused { part.new.refused ≡ part.old.refused }
    ensures fruitful { IfOk result (λ is_fruitful. is_fruitful ≡ true → part.new.turns < part.old.turns) }
{
    let turns = part.turns;
    deliver_inside(alloc, part, net, worker, gate)?;
    deliver_coming(alloc, part, net, worker, gate)?;
    let is_fruitful = part.turns < turns;
    commit(rt, part, net, book);
    flush(part, net)?;
    Ok(is_fruitful)
}

// Whether a worker ends its part: its turns are used up, so many looks in a row found nothing, or the last one found
// nothing and the book shows as many taken as sent. Else it lets others go on where it found nothing.
fn ends<R: Wait>(rt: &R, book: &Book, turns: u64, looks: u32) -> bool
    ensures { result ≡ false → (0 < turns) × (looks < LOOKS) }
{
    if turns == 0 || looks >= LOOKS {
        return true;
    }
    if looks == 0 {
        return false;
    }
    let sight = book.look(rt);
    if sight.sent == sight.taken {
        return true;
    }
    thread::yield_now();
    false
}

// Stretches, until the turns are used up, the book shows that nothing is on its way, or so many looks in a row found
// nothing. Each uses a turn or is a look more, so it ends whatever the other workers do.
fn run<N: NodeCore, G: Gate, R: Wait>(
    rt: &R,
    alloc: Global,
    part: &mut Part<N>,
    net: &Net,
    book: &Book,
    worker: u32,
    gate: &G,
) -> Result<(), NoMemory>
    requires net { IsNet net.now }
    requires ready { IsReady N.state N.note N.kind net.now part.old }
    ensures worked { OnOk result (HasWorked N.state N.note N.kind net.now part.old part.new) }
    ensures entered { OnOk result (IsEntered part.new) }
    ensures refused { part.new.refused ≡ part.old.refused }
{
    let mut looks: u32 = 0;
    loop {
        let is_fruitful = stretch(rt, alloc, part, net, book, worker, gate)?;
        looks = if is_fruitful {
            0
        } else {
            looks.saturating_add(1)
        };
        if ends(rt, book, part.turns, looks) {
            return Ok(());
        }
    }
}

/// A worker's part of a round. The part is refused where memory was, and else it worked.
pub(crate) fn work<N: NodeCore, G: Gate, R: Wait>(
    rt: &R,
    alloc: Global,
    part: &mut Part<N>,
    net: &Net,
    book: &Book,
    worker: u32,
    gate: &G,
)
    requires net { IsNet net.now }
    requires ready { IsReady N.state N.note N.kind net.now part.old }
    requires fresh { part.old.refused ≡ false }
    ensures worked { part.new.refused ≡ false → HasWorked N.state N.note N.kind net.now part.old part.new }
    ensures entered { part.new.refused ≡ false → IsEntered part.new }
{
    if run(rt, alloc, part, net, book, worker, gate).is_err() {
        part.refused = true;
    }
}
