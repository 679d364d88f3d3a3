ghost use Rattle.std.specs.Prelude.{◌≡◌, ◌<◌, ◌↔◌, [], ◌∷◌, ◌++◌, length, slice_get, IsTrue, IfSome, IfNone};
ghost use mathlib.Core.List.{IsPrefix};
ghost use Rattle.link_queues.specs.Links.{received_on, known_on, in_link};

use rtrb::Consumer;

/// The end of a link that receives.
#[derive(Drop)]
pub struct InEnd<T> {
    pub(crate) consumer: Consumer<T>,
}

impl<T> InEnd<T> {
    /// Whether an item is known to wait in the ring. It looks at the ring if none was known before.
    pub fn sees(&mut self) -> bool
        ensures value { IsTrue result ↔ (0 < length (known_on self.new)) }
        ensures known { IsPrefix (known_on self.old) (known_on self.new) }
        ensures received { received_on self.new ≡ received_on self.old }
        ensures link { in_link self.new ≡ in_link self.old }
    {
        !self.consumer.is_empty()
    }

    /// Lends the item that the next `take` gives.
    pub fn front(&self) -> &T
        requires { 0 < length (known_on self.now) }
        ensures { slice_get (known_on self.now) 0 ≡ Some result.now }
    {
        self.consumer.peek_known()
    }

    /// Takes the front item of the ring. It looks at the ring if no item is known to wait there, and
    /// gives None if it then finds none.
    pub fn take(&mut self) -> Option<T>
        ensures some { IfSome result (λ item. received_on self.new ≡ received_on self.old ++ item ∷ []) }
        ensures none { IfNone result (received_on self.new ≡ received_on self.old) }

        // While items are known to wait, it gives the first of them and keeps the others.
        ensures front { 0 < length (known_on self.old) → slice_get (known_on self.old) 0 ≡ result }
        ensures known { IfSome result (λ item. IsPrefix (known_on self.old) (item ∷ known_on self.new)) }
        ensures link { in_link self.new ≡ in_link self.old }
    {
        match self.consumer.pop() {
            Ok(item) => Some(item),
            Err(_) => None,
        }
    }
}
