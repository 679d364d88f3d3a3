ghost use Rattle.std.specs.Prelude.{◌≡◌, ◌<◌, ◌≤◌, [], Some, true, false, map, OnOk, OnErr};
ghost use Rattle.meta_base.specs.Numbers.{max_turns};
ghost use Rattle.node_core.specs.Kinds.{Kind, IsLawful, listener};
ghost use Rattle.node_core.specs.Numbers.{max_begun};

use meta_base::{ArcId, List, NoMemory};

/// The most messages that a node puts on one arc when it begins.
pub const MAX_BEGUN: usize = 64;

/// The greatest clock that a node is given, and so the most deliveries that are made.
pub const MAX_CLOCK: u64 = 1_000_000;

/// The bounds of nodes are the numbers of the specification.
pub fn numbers_are_specified()
    ensures begun { MAX_BEGUN ≡ max_begun }
    ensures clock { MAX_CLOCK ≡ max_turns }
{}

/// Messages, each with the arc that it goes on, in the order in which they are put there.
pub type Outgoing<M> = List<(ArcId, M)>;

/// A node of a protocol, which hears on the arcs that it may route by and speaks on those that lead to it. What
/// a node and a message are to contracts, `state` and `note` say; what a kind of node does, `kind` says.
pub trait NodeCore: Drop {
    /// What nodes tell each other.
    type Message: Drop;

    /// What a node is, and what a message says.
    ghost State: { Type 0 };

    ghost Note: { Type 0 };

    ghost state: { Self → State };

    ghost note: { Self.Message → Note };

    /// How such nodes begin and step.
    ghost kind: { Kind State Note };

    /// The clock of the delivery that made its sender send the message, and 0 where it was sent at the start.
    fn stamp(message: &Self::Message) -> u64
        ensures { result ≡ kind.stamp (note message.now) };

    /// Begins the node, which isn't begun, and puts into `out`, which is empty, what it sends: at most
    /// [`MAX_BEGUN`] messages on each arc that it speaks on. After want of memory the node is as it was and
    /// `out` is empty.
    fn on_start(&mut self, out: &mut Outgoing<Self::Message>) -> Result<(), NoMemory>
        requires out { out.old ≡ [] }
        requires unbegun { kind.is_begun (state self.old) ≡ false }
        ensures node { OnOk result (state self.new ≡ (kind.begin (state self.old)).0) }
        ensures out { OnOk result (map (λ p. (p.0.0, note p.1)) out.new ≡ (kind.begin (state self.old)).1) }
        ensures err { OnErr result ((state self.new ≡ state self.old) × (out.new ≡ [])) };

    /// Hands the node, which is begun, a message that came on an arc on which it listens, and puts into `out`,
    /// which is empty, what it sends: at most one message on each arc that it speaks on. The clock is above the
    /// message's stamp and above the last one that the node was given, and at most [`MAX_CLOCK`]. Of a message
    /// that doesn't fit the node, it keeps the clock alone. After want of memory the node is as it was and
    /// `out` is empty.
    fn on_message(
        &mut self,
        arc: ArcId,
        message: &Self::Message,
        clock: u64,
        out: &mut Outgoing<Self::Message>,
    ) -> Result<(), NoMemory>
        requires out { out.old ≡ [] }
        requires begun { kind.is_begun (state self.old) ≡ true }
        requires listener { listener (kind.net (state self.old)) arc.0 ≡ Some (kind.number (state self.old)) }
        requires stamp { kind.stamp (note message.now) < clock }
        requires last { kind.last (state self.old) < clock }
        requires early { clock ≤ MAX_CLOCK }
        ensures node { OnOk result (state self.new ≡ (kind.step (state self.old) arc.0 (note message.now) clock).0) }
        ensures out { OnOk result (map (λ p. (p.0.0, note p.1)) out.new ≡
            (kind.step (state self.old) arc.0 (note message.now) clock).1) }
        ensures err { OnErr result ((state self.new ≡ state self.old) × (out.new ≡ [])) };

    /// What holds of every kind of node holds of this one.
    ghost lawful: { IsLawful kind };
}
