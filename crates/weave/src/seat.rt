// A node at work.
ghost use Rattle.std.specs.Prelude.{◌≡◌, ◌+◌, ◌<◌, ◌++◌, ◌∷◌, List, [], max, map, IfOk, OnOk, Some, true, false};
ghost use Rattle.node_core.specs.declared.node.TheConstants.{MAX_CLOCK};
ghost use Rattle.node_core.specs.Configs.{noted};
ghost use Rattle.node_core.specs.Kinds.{listener};
ghost use Rattle.weave.specs.Lanes.{HasPassed, inside, lane_of};
ghost use Rattle.weave.specs.Views.{CanHear};

use crate::lane::{Lane, take_front};
use meta_base::{ArcId, Delivery, List, NoMemory};
use node_core::{NodeCore, Outgoing};

/// A node at work: with its last clock, and the deliveries that it took.
#[derive(Drop)]
pub struct Seat<N: NodeCore> {
    pub(crate) node: N,
    pub(crate) clock: u64,
    pub(crate) log: List<Delivery>,
}

/// Hands the node a message that came on an arc on which it listens, at the clock that it gets by that, and puts into
/// `out`, which is empty, what it sends.
pub(crate) fn hand<N: NodeCore>(
    seat: &mut Seat<N>,
    arc: ArcId,
    message: &N::Message,
    clock: u64,
    out: &mut Outgoing<N::Message>,
) -> Result<(), NoMemory>
    requires out { out.old ≡ [] }
    requires hears { CanHear N.kind (N.state seat.old.node) seat.old.clock arc.0 (N.note message.now) clock }
    ensures clock { OnOk result (seat.new.clock ≡ clock) }
    ensures log { OnOk result (seat.new.log ≡ seat.old.log ++ record { clock = clock; arc = arc } ∷ []) }
    ensures node { OnOk result (N.state seat.new.node
        ≡ (N.kind.step (N.state seat.old.node) arc.0 (N.note message.now) clock).0) }
    ensures out { OnOk result (map (noted N.note) out.new
        ≡ (N.kind.step (N.state seat.old.node) arc.0 (N.note message.now) clock).1) }
{
    seat.node.on_message(arc, message, clock, out)?;
    seat.clock = clock;
    seat.log.push(Delivery { clock, arc })?;
    Ok(())
}

/// Hands the node the message in front of an arc on which it listens, if one is seen, and puts into `out`, which is
/// empty, what it sends.
pub(crate) fn take<N: NodeCore>(
    seat: &mut Seat<N>,
    lane: &mut Lane<N::Message>,
    arc: ArcId,
    out: &mut Outgoing<N::Message>,
) -> Result<bool, NoMemory>
    requires out { out.old ≡ [] }
    requires begun { N.kind.is_begun (N.state seat.old.node) ≡ true }
    requires last { N.kind.last (N.state seat.old.node) ≡ seat.old.clock }
    requires listens { listener (N.kind.net (N.state seat.old.node)) arc.0
        ≡ Some (N.kind.number (N.state seat.old.node)) }
    ensures late { IfOk result (λ found. found ≡ false → (m : N.Message) (rest : List N.Message)
        → lane_of lane.old ≡ inside (m ∷ rest) → MAX_CLOCK < max seat.old.clock (N.kind.stamp (N.note m)) + 1) }
    ensures none { IfOk result (λ found. found ≡ false → (seat.new ≡ seat.old)
        × (lane_of lane.new ≡ lane_of lane.old)) }
    ensures taken { IfOk result (λ found. found ≡ true → (m : N.Message)
        × (seat.new.clock ≡ max seat.old.clock (N.kind.stamp (N.note m)) + 1)
        × (seat.new.log ≡ seat.old.log ++ record { clock = seat.new.clock; arc = arc } ∷ [])
        × (N.state seat.new.node ≡ (N.kind.step (N.state seat.old.node) arc.0 (N.note m) seat.new.clock).0)
        × (map (noted N.note) out.new ≡ (N.kind.step (N.state seat.old.node) arc.0 (N.note m) seat.new.clock).1)
        × HasPassed (lane_of lane.old) [] (m ∷ []) (lane_of lane.new)) }
{
    let Some((message, clock)) = take_front::<N>(lane, seat.clock) else {
        return Ok(false);
    };
    hand(seat, arc, &message, clock, out)?;
    Ok(true)
}
