// What a worker has of an arc, and how a message is taken from it.
ghost use Rattle.std.specs.Prelude.{◌≡◌, ◌+◌, ◌<◌, ◌≤◌, max, List, [], ◌∷◌, IfNone, IfSome, OnOk};
ghost use Rattle.node_core.specs.declared.node.TheConstants.{MAX_CLOCK};
ghost use Rattle.link_queues.specs.Locals.{waiting_of};
ghost use Rattle.weave.specs.Lanes.{HasPassed, inside, lane_of};

use link_queues::{InEnd, Local, OutEnd};
use node_core::{MAX_CLOCK, NodeCore};

/// What a worker has of an arc.
#[derive(Drop)]
pub enum Lane<M> {
    /// Neither of its nodes is in the worker's block.
    Elsewhere,
    /// Both are, and this waits.
    Inside(Local<M>),
    /// Its listener is, and takes what comes from another worker.
    From(InEnd<M>),
    /// Its speaker is, and sends to another worker.
    To(OutEnd<M>),
}

// The clock that a node gets by a message with that stamp; none where that would pass the greatest.
fn next_clock(clock: u64, stamp: u64) -> Option<u64>
    ensures some { IfSome result (λ next. (next ≡ max clock stamp + 1) × (next ≤ MAX_CLOCK)) }
    ensures none { IfNone result (MAX_CLOCK < max clock stamp + 1) }
{
    let before = clock.max(stamp);
    if before < MAX_CLOCK {
        Some(before + 1)
    } else {
        None
    }
}

// Takes the message that waits in front, with the clock that it gives.
fn take_inside<N: NodeCore>(queue: &mut Local<N::Message>, clock: u64) -> Option<(N::Message, u64)>
    ensures none { IfNone result (lane_of (Lane.Inside queue.new) ≡ lane_of (Lane.Inside queue.old)) }
    ensures some { IfSome result (λ r. (r.1 ≡ max clock (N.kind.stamp (N.note r.0)) + 1) × (r.1 ≤ MAX_CLOCK)
        × HasPassed (lane_of (Lane.Inside queue.old)) [] (r.0 ∷ [])
        (lane_of (Lane.Inside queue.new))) }
    ensures late { IfNone result ((m : N.Message) (rest : List N.Message) → waiting_of queue.old ≡ m ∷ rest
        → MAX_CLOCK < max clock (N.kind.stamp (N.note m)) + 1) }
{
    let next = next_clock(clock, N::stamp(queue.front()?))?;
    let message = queue.take()?;
    Some((message, next))
}

// Takes the message in front of what came from another worker, with the clock that it gives. One whose clock would
// pass the greatest is left where it is.
fn take_coming<N: NodeCore>(into: &mut InEnd<N::Message>, clock: u64) -> Option<(N::Message, u64)>
    ensures none { IfNone result (lane_of (Lane.From into.new) ≡ lane_of (Lane.From into.old)) }
    ensures some { IfSome result (λ r. (r.1 ≡ max clock (N.kind.stamp (N.note r.0)) + 1) × (r.1 ≤ MAX_CLOCK)
        × HasPassed (lane_of (Lane.From into.old)) [] (r.0 ∷ []) (lane_of (Lane.From into.new))) }
{
    if !into.sees() {
        return None;
    }
    let next = next_clock(clock, N::stamp(into.front()))?;
    let message = into.take()?;
    Some((message, next))
}

/// Takes the message in front of the arc, if its listener is here and one is seen, with the clock that it gives a
/// node whose last one is known. What waits inside is seen.
pub(crate) fn take_front<N: NodeCore>(
    lane: &mut Lane<N::Message>,
    clock: u64,
) -> Option<(N::Message, u64)>
    ensures none { IfNone result (lane_of lane.new ≡ lane_of lane.old) }
    ensures some { IfSome result (λ r. (r.1 ≡ max clock (N.kind.stamp (N.note r.0)) + 1) × (r.1 ≤ MAX_CLOCK)
        × HasPassed (lane_of lane.old) [] (r.0 ∷ []) (lane_of lane.new)) }
    ensures late { IfNone result ((m : N.Message) (rest : List N.Message) → lane_of lane.old ≡ inside (m ∷ rest)
        → MAX_CLOCK < max clock (N.kind.stamp (N.note m)) + 1) }
{
    match lane {
        Lane::Inside(queue) => take_inside::<N>(queue, clock),
        Lane::From(into) => take_coming::<N>(into, clock),
        Lane::Elsewhere | Lane::To(_) => None,
    }
}
