ghost use Rattle.std.specs.Prelude.{◌≡◌, ◌<◌, ◌∷◌, ℕ, IfOk, IfSome, option_map, option_and_then};
ghost use Rattle.alg_model.specs.Carriers.{carrier_of};
ghost use Rattle.net_graph.specs.Nets.{PureArc, IsNet};
ghost use Rattle.net_graph.specs.Routes.{is_better};
ghost use Rattle.path_vector.specs.Known.{known_route, offered_route, placed, route_through};
ghost use Rattle.path_vector.specs.Known.{better_of, MayOffer};
ghost use Rattle.path_vector.specs.Node.{offer_by};

use crate::known::Known;
use crate::node_path::NodePath;
use crate::paths::passes;
use crate::shared::Shared;
use alg_model::Algebra;
use arc_labels::image_into;
use meta_base::{List, NoMemory, NodeId};
use net_graph::Net;
use path_store::compare;
use std::alloc::Global;
use std::cmp::Ordering;
use std::mem::swap;

// A route that a node is offered: its value, and the path of the neighbour that it goes by. There is none after
// the node where the offer is its own origin's. Values of offers are made in one place after another, and one is taken
// from there only where its offer is the best so far.
#[derive(Drop)]
pub(crate) struct Offer<'p, S> {
    pub sig: S,
    pub after: &'p [NodeId],
}

// What a neighbour offers the node by the label of its arc, if what was heard of it makes a route: its value is put
// into `place`, and what lies after the node on its path is lent.
pub(crate) fn offer_into<'p, A: Algebra>(
    alloc: Global,
    algebra: &A,
    net: &Net,
    node: NodeId,
    label: &A::Lab,
    known: &'p Option<Known<A::Sig>>,
    place: &mut Option<A::Sig>,
) -> Result<Option<&'p [NodeId]>, NoMemory>
    requires algebra { A.expression algebra.now ≡ net.now.alg.expression }
    requires net { IsNet net.now }
    requires said { (a : PureArc) × MayOffer (A.stands_for algebra.now) (A.is_sig algebra.now)
        (A.sig_value algebra.now) net.now a label.now known.now }
    ensures sig { IfOk result (λ after. IfSome (placed after place.new) (λ o. A.is_sig algebra.now o.sig)) }
    ensures offer { (a : PureArc) → a.tail ≡ node.0 → MayOffer (A.stands_for algebra.now)
        (A.is_sig algebra.now) (A.sig_value algebra.now) net.now a label.now known.now →
        let value = A.sig_value algebra.now in IfOk result (λ after.
        option_map (offered_route value node.0) (placed after place.new) ≡
        option_and_then (offer_by net.now a) (option_map (known_route value) known.now)) }
{
    let Some(known) = known else {
        return Ok(None);
    };
    if passes(known.path.as_slice(), node) {
        return Ok(None);
    }
    if image_into(alloc, algebra, label, &known.sig, place)? {
        return Ok(Some(known.path.as_slice()));
    }
    Ok(None)
}

// The offer whose value stands in the place, which is empty then.
pub(crate) fn take_offer<'p, S>(
    after: Option<&'p [NodeId]>,
    place: &mut Option<S>,
) -> Option<Offer<'p, S>>
    ensures { result ≡ placed after.entry place.old }
{
    match after {
        Some(after) => Some(Offer {
            sig: place.take()?,
            after,
        }),
        None => None,
    }
}

// Whether a route of a node with the first value is better than one with the second. Their paths are the node with
// these after it.
pub(crate) fn is_first<A: Algebra>(
    algebra: &A,
    first: &A::Sig,
    after_first: &[NodeId],
    second: &A::Sig,
    after_second: &[NodeId],
) -> bool
    requires first { A.is_sig algebra.now first.now }
    requires second { A.is_sig algebra.now second.now }
    ensures { (node : ℕ) → let value = A.sig_value algebra.now in
        result ≡ is_better (carrier_of (A.expression algebra.now))
        (route_through value node first.now after_first.now)
        (route_through value node second.now after_second.now) }
{
    match algebra.order(first, second) {
        Ordering::Equal => compare(after_first, after_second) == Ordering::Less,
        values => values == Ordering::Less,
    }
}

// Lets the better of two offers to a node be the best; the first, where neither is better. The value of the next one
// stands in the place, and there stays the value of the other.
pub(crate) fn keep_better<'p, A: Algebra>(
    algebra: &A,
    best: &mut Option<Offer<'p, A::Sig>>,
    after: Option<&'p [NodeId]>,
    place: &mut Option<A::Sig>,
)
    requires best { IfSome best.old (λ o. A.is_sig algebra.now o.sig) }
    requires next { IfSome (placed after place.old) (λ o. A.is_sig algebra.now o.sig) }
    ensures sig { IfSome best.new (λ o. A.is_sig algebra.now o.sig) }
    ensures better { (node : ℕ) → let value = A.sig_value algebra.now in
        option_map (offered_route value node) best.new ≡ better_of (carrier_of (A.expression algebra.now))
        (option_map (offered_route value node) best.old)
        (option_map (offered_route value node) (placed after.entry place.old)) }
{
    let Some(first) = best else {
        *best = take_offer(after, place);
        return;
    };
    let (Some(after), Some(next)) = (after, place) else {
        return;
    };
    if is_first(algebra, next, after, &first.sig, first.after) {
        swap(&mut first.sig, next);
        first.after = after;
    }
}

// The offer as a route that the node knows.
pub(crate) fn taken_by<S: Drop>(
    alloc: Global,
    net: &Net,
    node: NodeId,
    offer: Offer<'_, S>,
) -> Result<Known<S>, NoMemory>
    ensures sig { IfOk result (λ known. known.sig ≡ offer.entry.sig) }
    ensures path { IfOk result (λ known. known.path ≡ node ∷ offer.entry.after.now) }
{
    let mut path = Vec::with_capacity(alloc, offer.after.len().saturating_add(1))?;
    path.push(node)?;
    path.extend_from_slice(offer.after)?;
    Ok(Known {
        sig: offer.sig,
        path: Shared::new(alloc, NodePath::new(List::from_vec(path), net.node_count()))?,
    })
}
