// A node's choice among all that it is offered for a destination.
ghost use Rattle.std.specs.Prelude.{◌≡◌, ◌<◌, ◌∷◌, [], ℕ, IfOk, IfSome, Some, length, option_map, slice_get, true};
ghost use Rattle.alg_model.specs.Carriers.{carrier_of};
ghost use Rattle.arc_labels.specs.Neighbours.{AreNeighbours, head_of};
ghost use Rattle.net_graph.specs.Nets.{IsNet, PureArc, arcs_from, origin_value};
ghost use Rattle.net_graph.specs.Routes.{PureRoute, is_better};
ghost use Rattle.path_vector.specs.Known.{better_of};
ghost use Rattle.path_vector.specs.Node.{choice, may_be_of};
ghost use Rattle.vector_block.specs.Hearings.{heard_at};
ghost use Rattle.vector_block.specs.Stores.{IsStored, MayBeChosen, chosen_route, pure_store};

use crate::offer::{compare_rests, offer_into};
use crate::report::Choice;
use crate::store::{Site, Store, heard};
use alg_model::Algebra;
use arc_labels::Neighbour;
use meta_base::{DestId, NoMemory, NodeId};
use path_store::PathId;
use std::alloc::Global;
use std::cmp::Ordering;
use std::mem::swap;

// The best of what the node's own origin and its neighbours offer it for the destination, if they offer it anything.
#[inline(never)]
pub(crate) fn choose<A: Algebra>(
    alloc: Global,
    site: &Site<'_, A>,
    store: &Store<A::Sig>,
    speakers: &[Neighbour<'_, A::Lab>],
    dest: DestId,
    node: NodeId,
    spare: &mut Option<A::Sig>,
) -> Result<Option<Choice<A::Sig>>, NoMemory>
    requires algebra { let at = site.now in A.expression at.algebra.now ≡ at.net.now.alg.expression }
    requires net { IsNet site.now.net.now }
    requires stored { let at = site.now in IsStored (A.is_sig at.algebra.now) at.net.now store.now }
    requires speakers { let at = site.now in
        AreNeighbours (A.stands_for at.algebra.now) head_of (arcs_from at.net.now node.0) speakers.now }
    requires dest { dest.0 < length site.now.net.now.dests }
    requires node { node.0 < length site.now.net.now.nodes }
    requires known { let at = site.now in let heard = (pure_store (A.sig_value at.algebra.now) store.now).heard in
        (a : PureArc) (r : PureRoute) → slice_get at.net.now.arcs a.id ≡ Some a → a.tail ≡ node.0 →
        heard a.id dest.0 ≡ Some r → may_be_of at.net.now a.head r ≡ true }
    ensures may { let at = site.now in
        IfOk result (λ best. IfSome best (MayBeChosen (A.is_sig at.algebra.now) at.net.now store.now)) }
    ensures choice { let at = site.now in let value = A.sig_value at.algebra.now in
        IfOk result (λ best. option_map (chosen_route value store.now.paths node.0) best
        ≡ choice at.net.now dest.0 node.0 (heard_at at.net.now (pure_store value store.now) node.0)) }
{
    let mut best = own_choice(alloc, site, store, dest, node)?;
    for place in 0..speakers.len() {
        let speaker = &speakers[place];
        if let Some(route) = heard(site, store, dest, speaker.arc) {
            if offer_into(alloc, site, store, node, speaker.label, route, spare)? {
                keep_better(site, store, &mut best, route.path, spare);
            }
        }
    }
    Ok(best)
}

// What the node's own origin offers it, if there is one.
fn own_choice<A: Algebra>(
    alloc: Global,
    site: &Site<'_, A>,
    _store: &Store<A::Sig>,
    dest: DestId,
    node: NodeId,
) -> Result<Option<Choice<A::Sig>>, NoMemory>
    requires algebra { let at = site.now in A.expression at.algebra.now ≡ at.net.now.alg.expression }
    requires net { IsNet site.now.net.now }
    ensures may { let at = site.now in
        IfOk result (λ own. IfSome own (MayBeChosen (A.is_sig at.algebra.now) at.net.now _store.now)) }
    ensures own { let at = site.now in let value = A.sig_value at.algebra.now in
        IfOk result (λ own. option_map (chosen_route value _store.now.paths node.0) own
        ≡ option_map (λ v. record { value = v; path = node.0 ∷ [] }) (origin_value at.net.now dest.0 node.0)) }
{
    match site.net.origin_at(dest, node) {
        Some(origin) => Ok(Some(Choice {
            sig: site.algebra.sig_of(alloc, &origin.value)?,
            rest: None,
        })),
        None => Ok(None),
    }
}

// Lets the better of two offers be the best; the first, where neither is better. The value of the next one stands in the
// place, where the value of the other is then; its path goes on along that path of the store.
fn keep_better<A: Algebra>(
    site: &Site<'_, A>,
    store: &Store<A::Sig>,
    best: &mut Option<Choice<A::Sig>>,
    path: PathId,
    place: &mut Option<A::Sig>,
)
    requires best { let at = site.now in
        IfSome best.old (MayBeChosen (A.is_sig at.algebra.now) at.net.now store.now) }
    requires path { path.0 < length store.now.paths }
    requires next { IfSome place.old (A.is_sig site.now.algebra.now) }
    ensures may { let at = site.now in
        IfSome best.new (MayBeChosen (A.is_sig at.algebra.now) at.net.now store.now) }
    ensures better { (node : ℕ) → let at = site.now in let value = A.sig_value at.algebra.now in
        let route = chosen_route value store.now.paths node in
        option_map route best.new ≡ better_of (carrier_of (A.expression at.algebra.now)) (option_map route best.old)
        (option_map (λ sig. route (record { sig = sig; rest = Some path })) place.old) }
{
    let Some(next) = place else {
        return;
    };
    let Some(first) = best else {
        if let Some(sig) = place.take() {
            *best = Some(Choice {
                sig,
                rest: Some(path),
            });
        }
        return;
    };
    if is_better(site, store, next, path, first) {
        swap(&mut first.sig, next);
        first.rest = Some(path);
    }
}

// Whether an offer with the value, whose path goes on along that path of the store, is better than a choice.
fn is_better<A: Algebra>(
    site: &Site<'_, A>,
    store: &Store<A::Sig>,
    offer: &A::Sig,
    path: PathId,
    best: &Choice<A::Sig>,
) -> bool
    requires offer { A.is_sig site.now.algebra.now offer.now }
    requires path { path.0 < length store.now.paths }
    requires best { let at = site.now in MayBeChosen (A.is_sig at.algebra.now) at.net.now store.now best.now }
    ensures { (node : ℕ) → let at = site.now in
        let route = chosen_route (A.sig_value at.algebra.now) store.now.paths node in
        result ≡ is_better (carrier_of (A.expression at.algebra.now))
        (route (record { sig = offer.now; rest = Some path })) (route best.now) }
{
    match site.algebra.order(offer, &best.sig) {
        Ordering::Equal => compare_rests(&store.paths, Some(path), best.rest) == Ordering::Less,
        values => values == Ordering::Less,
    }
}
