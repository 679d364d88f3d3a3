ghost use Rattle.std.specs.Prelude.{◌≡◌, ◌+◌, ◌<◌, ◌≤◌, [], ◌∷◌, ◌++◌, length, IfSome, IfNone, OnOk, slice_get, option_map};
ghost use Rattle.link_queues.specs.Locals.{waiting_of, spare_in};

use meta_base::{List, NoMemory};
use std::alloc::Global;
use std::collections::VecDeque;

/// What waits on an arc whose two ends are with one worker, oldest first.
#[derive(Drop)]
pub struct Local<T> {
    queue: VecDeque<T>,
}

impl<T> Local<T> {
    /// The queue on which nothing waits. It takes no memory before the first `reserve`.
    pub fn new(alloc: Global) -> Local<T>
        ensures { waiting_of result ≡ [] }
    {
        Local::from_queue(VecDeque::new(alloc))
    }

    /// The queue on which these items wait, front first, without memory.
    pub fn from_queue(queue: VecDeque<T>) -> Local<T>
        ensures { waiting_of result ≡ queue.items }
    {
        Local { queue }
    }

    /// The queue on which the items of the list wait, the first in front, without memory.
    pub fn from_list(list: List<T>) -> Local<T>
        ensures { waiting_of result ≡ list }
    {
        Local::from_queue(VecDeque::from_vec(list.into_vec()))
    }

    /// Hands over what waits, oldest first, without memory.
    pub fn into_list(self) -> List<T>
        ensures { result ≡ waiting_of self }
    {
        List::from_vec(self.queue.into_vec())
    }

    /// How many items wait.
    pub fn waiting(&self) -> usize
        ensures { result ≡ length (waiting_of self.now) }
    {
        self.queue.len()
    }

    /// Makes the spare at least `more`: so many items can then be sent without memory. After a
    /// refusal nothing that waits is lost.
    pub fn reserve(&mut self, more: usize) -> Result<(), NoMemory>
        ensures spare { OnOk result (more ≤ spare_in self.new) }
        ensures kept { spare_in self.old ≤ spare_in self.new }
        ensures waiting { waiting_of self.new ≡ waiting_of self.old }
    {
        if self.queue.capacity() - self.queue.len() < more {
            self.queue.reserve(more)?;
        }
        Ok(())
    }

    /// Appends the item to what waits. It uses one of the spare, and takes no memory.
    pub fn send(&mut self, item: T)
        requires { 0 < spare_in self.old }
        ensures waiting { waiting_of self.new ≡ waiting_of self.old ++ item ∷ [] }
        ensures spare { spare_in self.new + 1 ≡ spare_in self.old }
    {
        self.queue.push_back_reserved(item);
    }

    /// Lends the item that the next `take` gives, and None exactly if nothing waits.
    pub fn front(&self) -> Option<&T>
        ensures { option_map (λ item. item.now) result ≡ slice_get (waiting_of self.now) 0 }
    {
        self.queue.front()
    }

    /// Takes the oldest item, and gives None exactly if nothing waits. The spare gets no less.
    pub fn take(&mut self) -> Option<T>
        ensures some { IfSome result (λ item. waiting_of self.old ≡ item ∷ waiting_of self.new) }
        ensures none { IfNone result ((waiting_of self.old ≡ []) × (waiting_of self.new ≡ [])) }
        ensures spare { spare_in self.old ≤ spare_in self.new }
    {
        self.queue.pop_front()
    }
}
