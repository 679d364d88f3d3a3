ghost use Rattle.std.specs.Prelude.{◌≡◌, ◌+◌, ◌<◌, ◌≤◌, [], ◌∷◌, ◌++◌, length, OnOk};
ghost use Rattle.link_queues.specs.Links.{sent_on, outbox_of, spare_of, free_slots, out_link};

use meta_base::NoMemory;
use rtrb::Producer;
use std::collections::VecDeque;

/// The end of a link that sends. What was sent stands in the outbox until a `flush` finds room for it
/// in the ring; only there can the other end see it.
#[derive(Drop)]
pub struct OutEnd<T> {
    pub(crate) producer: Producer<T>,
    pub(crate) outbox: VecDeque<T>,
}

impl<T> OutEnd<T> {
    /// Makes the spare at least `more`: so many items can then be sent without memory. After a
    /// refusal nothing that was sent is lost.
    pub fn reserve(&mut self, more: usize) -> Result<(), NoMemory>
        ensures spare { OnOk result (more ≤ spare_of self.new) }
        ensures kept { spare_of self.old ≤ spare_of self.new }
        ensures sent { sent_on self.new ≡ sent_on self.old }
        ensures slots { free_slots self.new ≡ free_slots self.old }
        ensures link { out_link self.new ≡ out_link self.old }
    {
        self.outbox.reserve(more)?;
        Ok(())
    }

    /// Appends the item to what was sent. It uses one of the spare, and takes no memory.
    pub fn send(&mut self, item: T)
        requires { 0 < spare_of self.old }
        ensures sent { sent_on self.new ≡ sent_on self.old ++ item ∷ [] }
        ensures spare { spare_of self.new + 1 ≡ spare_of self.old }
        ensures slots { free_slots self.new ≡ free_slots self.old }
        ensures link { out_link self.new ≡ out_link self.old }
    {
        self.outbox.push_back_reserved(item);
    }

    /// How many items stand in the outbox: those that were sent and that no `flush` has moved to the ring.
    pub fn unsent(&self) -> usize
        ensures { result ≡ length (outbox_of self.now) }
    {
        self.outbox.len()
    }

    /// Moves items from the front of the outbox to the ring, as long as the ring shows a free slot.
    /// It looks at the ring again once the slots that it knew of are filled.
    pub fn flush(&mut self)
        ensures sent { sent_on self.new ≡ sent_on self.old }
        ensures moved { 0 < free_slots self.new → outbox_of self.new ≡ [] }

        // A slot that was known to be free is filled from the outbox, or still known.
        ensures slots { free_slots self.old + length (outbox_of self.new)
            ≤ free_slots self.new + length (outbox_of self.old) }
        ensures spare { spare_of self.old ≤ spare_of self.new }
        ensures link { out_link self.new ≡ out_link self.old }
    {
        while !self.outbox.is_empty() && !self.producer.is_full() {
            let Some(item) = self.outbox.pop_front() else {
                unreachable!()
            };
            self.producer.push_reserved(item);
        }
    }
}
