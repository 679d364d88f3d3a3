ghost use Rattle.std.specs.Prelude.{◌≡◌, ◌<◌, [], ◌++◌, IfOk, OnOk};
ghost use Rattle.rtrb.specs.Ring.{known_items};
ghost use Rattle.link_queues.specs.Links.{sent_on, received_on, ring_of, outbox_of, free_slots, out_link, in_link};

use crate::{InEnd, OutEnd};
use meta_base::{List, NoMemory};
use rtrb::{Consumer, RingBuffer};
use std::alloc::Global;
use std::collections::VecDeque;

/// A new link, on which nothing was sent and nothing received. Its ring has room for `capacity`
/// items, at least 1, and takes its memory at once.
pub fn link<T: Drop>(alloc: Global, capacity: usize) -> Result<(OutEnd<T>, InEnd<T>), NoMemory>
    requires { 0 < capacity }
    ensures sent { IfOk result (λ ends. sent_on ends.0 ≡ []) }
    ensures received { IfOk result (λ ends. received_on ends.1 ≡ []) }
    ensures slots { IfOk result (λ ends. free_slots ends.0 ≡ capacity) }
    ensures pair { IfOk result (λ ends. out_link ends.0 ≡ in_link ends.1) }
{
    let (producer, consumer) = RingBuffer::new(alloc, capacity)?;
    let outbox = VecDeque::new(alloc);
    Ok((OutEnd { producer, outbox }, InEnd { consumer }))
}

/// What waits on a link, oldest first: the ring's items, followed by those of the outbox. What was
/// received, followed by this list, is what was sent. Both ends must be of one link. After a refusal
/// the items are dropped.
pub fn settle_pair<T: Drop>(
    alloc: Global,
    out: OutEnd<T>,
    into: InEnd<T>,
) -> Result<List<T>, NoMemory>
    requires { out_link out ≡ in_link into }
    ensures whole { IfOk result (λ waiting. received_on into ++ waiting ≡ sent_on out) }
    ensures parts { IfOk result (λ waiting. waiting ≡ ring_of out into ++ outbox_of out) }
{
    let OutEnd {
        mut producer,
        mut outbox,
    } = out;
    let InEnd { mut consumer } = into;
    // The look with both ends in one thread shows all that is in the ring.
    consumer.slots_beside(&mut producer);
    let mut waiting = List::new(alloc);
    drain_ring(&mut consumer, &mut waiting)?;
    drain_outbox(&mut outbox, &mut waiting)?;
    Ok(waiting)
}

// Moves the items that are known to wait in the ring.
fn drain_ring<T: Drop>(consumer: &mut Consumer<T>, waiting: &mut List<T>) -> Result<(), NoMemory>
    ensures { OnOk result (waiting.new ≡ waiting.old ++ known_items consumer.old) }
{
    while consumer.cached_slots() > 0 {
        waiting.push(consumer.pop_known())?;
    }
    Ok(())
}

fn drain_outbox<T: Drop>(outbox: &mut VecDeque<T>, waiting: &mut List<T>) -> Result<(), NoMemory>
    ensures { OnOk result (waiting.new ≡ waiting.old ++ outbox.old.items) }
{
    while let Some(item) = outbox.pop_front() {
        waiting.push(item)?;
    }
    Ok(())
}
