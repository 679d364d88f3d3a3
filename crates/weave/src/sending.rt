// How what a node puts out is sent.
ghost use Rattle.std.specs.Prelude.{◌≡◌, ℕ, ◌==◌, cond, [], ◌∷◌, ◌++◌, map, OnOk, slice_get};
ghost use Rattle.node_core.specs.Configs.{numbered};
ghost use Rattle.node_core.specs.Kinds.{on_arc};
ghost use Rattle.weave.specs.Lanes.{HasPassed, lane_in, lane_of};

use crate::lane::Lane;
use link_queues::{Local, OutEnd};
use meta_base::{ArcId, List, NoMemory};
use node_core::Outgoing;
use std::alloc::Global;
use std::collections::VecDeque;
use std::mem::replace;

// Notes that one more message waits on the arc. The list has room for it as a rule, and then no call is made.
fn note_ready(ready: &mut VecDeque<ArcId>, arc: ArcId) -> Result<(), NoMemory>
    ensures { OnOk result (ready.new.items ≡ ready.old.items ++ arc ∷ []) }
{
    if ready.len() == ready.capacity() {
        ready.reserve(1)?;
    }
    ready.push_back_reserved(arc);
    Ok(())
}

// Appends the message to what waits, and notes that one more waits on the arc.
fn send_inside<M: Drop>(
    queue: &mut Local<M>,
    ready: &mut VecDeque<ArcId>,
    arc: ArcId,
    message: M,
) -> Result<(), NoMemory>
    ensures { OnOk result (HasPassed (lane_of (Lane.Inside queue.old)) (message ∷ []) []
        (lane_of (Lane.Inside queue.new))) }
{
    queue.reserve(1)?;
    queue.send(message);
    note_ready(ready, arc)
}

// Appends the message to what was sent to another worker, and notes that the arc is to be flushed.
fn send_away<M: Drop>(
    out: &mut OutEnd<M>,
    unsent: &mut VecDeque<ArcId>,
    arc: ArcId,
    message: M,
) -> Result<(), NoMemory>
    ensures { OnOk result (HasPassed (lane_of (Lane.To out.old)) (message ∷ []) [] (lane_of (Lane.To out.new))) }
{
    if out.unsent() == 0 {
        unsent.push_back(arc)?;
    }
    out.reserve(1)?;
    out.send(message);
    Ok(())
}

// Sends the message on the arc, if its speaker is here.
fn send_on<M: Drop>(
    lane: &mut Lane<M>,
    ready: &mut VecDeque<ArcId>,
    unsent: &mut VecDeque<ArcId>,
    arc: ArcId,
    message: M,
) -> Result<(), NoMemory>
    ensures { OnOk result (HasPassed (lane_of lane.old) (message ∷ []) [] (lane_of lane.new)) }
{
    match lane {
        Lane::Inside(queue) => send_inside(queue, ready, arc, message),
        Lane::To(out) => send_away(out, unsent, arc, message),
        Lane::Elsewhere | Lane::From(_) => Ok(()),
    }
}

// The same among all lanes.
fn send_one<M: Drop>(
    lanes: &mut Vec<Lane<M>>,
    ready: &mut VecDeque<ArcId>,
    unsent: &mut VecDeque<ArcId>,
    arc: ArcId,
    message: M,
) -> Result<(), NoMemory>
    ensures { OnOk result ((b : ℕ) → HasPassed (lane_in (slice_get lanes.old.items b))
        (cond (arc.0 == b) (message ∷ []) []) [] (lane_in (slice_get lanes.new.items b))) }
{
    let at = arc.0 as usize;
    if at < lanes.len() {
        send_on(&mut lanes[at], ready, unsent, arc, message)?;
    }
    Ok(())
}

/// Sends each message on its arc, in order: inside the block, where the arc is then ready, or to another worker, where
/// it is still to be flushed. The memory of `out` stays there.
pub(crate) fn send_all<M: Drop>(
    alloc: Global,
    lanes: &mut Vec<Lane<M>>,
    ready: &mut VecDeque<ArcId>,
    unsent: &mut VecDeque<ArcId>,
    out: &mut Outgoing<M>,
) -> Result<(), NoMemory>
    ensures { OnOk result ((b : ℕ) → HasPassed (lane_in (slice_get lanes.old.items b))
        (on_arc b (map numbered out.old)) [] (lane_in (slice_get lanes.new.items b))) }
{
    let mut left = VecDeque::from_vec(replace(out, List::new(alloc)).into_vec());
    while let Some((arc, message)) = left.pop_front() {
        send_one(lanes, ready, unsent, arc, message)?;
    }
    *out = List::from_vec(left.into_vec());
    Ok(())
}

// Flushes what was sent on the arc. True where some of it found no room in the ring.
fn flush_on<M>(lane: &mut Lane<M>) -> bool
    ensures { lane_of lane.new ≡ lane_of lane.old }
{
    match lane {
        Lane::To(out) => {
            out.flush();
            out.unsent() > 0
        }
        Lane::Elsewhere | Lane::Inside(_) | Lane::From(_) => false,
    }
}

// The same among all lanes.
fn flush_one<M>(lanes: &mut Vec<Lane<M>>, arc: ArcId) -> bool
    ensures { (b : ℕ) → lane_in (slice_get lanes.new.items b) ≡ lane_in (slice_get lanes.old.items b) }
{
    let at = arc.0 as usize;
    at < lanes.len() && flush_on(&mut lanes[at])
}

/// Flushes once each arc on which something was sent to another worker and wasn't flushed. An arc whose ring has no
/// room stays among these.
pub(crate) fn flush_all<M>(
    lanes: &mut Vec<Lane<M>>,
    unsent: &mut VecDeque<ArcId>,
) -> Result<(), NoMemory>
    ensures { (b : ℕ) → lane_in (slice_get lanes.new.items b) ≡ lane_in (slice_get lanes.old.items b) }
{
    for _ in 0..unsent.len() {
        let Some(arc) = unsent.pop_front() else {
            break;
        };
        if flush_one(lanes, arc) {
            unsent.push_back(arc)?;
        }
    }
    Ok(())
}
