ghost use Rattle.std.specs.Prelude.{◌≡◌, ◌<◌, IfOk, IfSome, Some, length, option_map, slice_get, true};
ghost use Rattle.alg_model.specs.Carriers.{carrier_of};
ghost use Rattle.meta_base.specs.NodePaths.{numbers};
ghost use Rattle.net_graph.specs.Nets.{PureArc, IsNet, arcs_from, origin_value};
ghost use Rattle.path_vector.specs.Changes.{HasSigs, IsChange};
ghost use Rattle.path_vector.specs.Known.{known_route, offered_route, placed, heard_by, AreNeighbours};
ghost use Rattle.path_vector.specs.Node.{begins_with, choice, same_row};
ghost use Rattle.path_vector.specs.Settling.{goes_by, is_worse, Settles};
ghost use Rattle.path_vector.specs.Updates.{pure_update};

use crate::choosing::choose;
use crate::heard::Heard;
use crate::known::{Known, are_same, reported_of};
use crate::offer::{is_first, offer_into, take_offer, taken_by};
use crate::paths::{after, is_second};
use crate::reporting::reported;
use crate::site::{Arrival, Site};
use crate::update::Update;
use alg_model::Algebra;
use meta_base::{DestId, NoMemory, NodeId};
use node_core::Outgoing;
use std::alloc::Global;

// Whether the rows are one.
pub(crate) fn is_same_row<A: Algebra>(
    alloc: Global,
    algebra: &A,
    row: &Option<Known<A::Sig>>,
    other: &Option<Known<A::Sig>>,
) -> Result<bool, NoMemory>
    requires row { IfSome row.now (λ k. A.is_sig algebra.now k.sig) }
    requires other { IfSome other.now (λ k. A.is_sig algebra.now k.sig) }
    ensures { let value = A.sig_value algebra.now in IfOk result (λ same.
        same ≡ same_row (option_map (known_route value) row.now) (option_map (known_route value) other.now)) }
{
    match (row, other) {
        (Some(route), Some(second)) => are_same(alloc, algebra, route, second),
        (None, None) => Ok(true),
        _ => Ok(false),
    }
}

// The update that tells of a row.
pub(crate) fn update_of<A: Algebra>(
    alloc: Global,
    algebra: &A,
    dest: DestId,
    row: &Option<Known<A::Sig>>,
    stamp: u64,
) -> Result<Update, NoMemory>
    requires { IfSome row.now (λ k. A.is_sig algebra.now k.sig) }
    ensures { let value = A.sig_value algebra.now in IfOk result (λ update. pure_update update ≡
        record { dest = dest.0; route = option_map (known_route value) row.now; stamp = stamp }) }
{
    let route = match row {
        Some(known) => Some(reported_of(alloc, algebra, known)?),
        None => None,
    };
    Ok(Update { dest, route, stamp })
}

// A row that is another than it was, and what the node tells of it.
#[derive(Drop)]
pub(crate) struct RowChange<S> {
    pub row: Option<Known<S>>,
    pub reported: Outgoing<Update>,
}

// The change from the one row to the other, if they aren't one.
fn change_of<A: Algebra>(
    alloc: Global,
    site: &Site<'_, A>,
    before: &Option<Known<A::Sig>>,
    row: Option<Known<A::Sig>>,
    dest: DestId,
    clock: u64,
) -> Result<Option<RowChange<A::Sig>>, NoMemory>
    requires node { site.now.node.0 < length site.now.net.now.nodes }
    requires before { IfSome before.now (λ k. A.is_sig site.now.algebra.now k.sig) }
    requires row { IfSome row (λ k. A.is_sig site.now.algebra.now k.sig) }
    ensures sig { IfOk result (λ change. HasSigs (A.is_sig site.now.algebra.now) change) }
    ensures change { let at = site.now in let value = A.sig_value at.algebra.now in
        IfOk result (IsChange value at.net.now at.node.0 dest.0 clock
        (option_map (known_route value) before.now) (option_map (known_route value) row)) }
{
    if is_same_row(alloc, site.algebra, &row, before)? {
        return Ok(None);
    }
    let update = update_of(alloc, site.algebra, dest, &row, clock)?;
    let reported = reported(alloc, site.net, site.node, update)?;
    Ok(Some(RowChange { row, reported }))
}

// Whether the row goes by that neighbour.
fn goes_by<A: Algebra>(_algebra: &A, row: &Option<Known<A::Sig>>, neighbour: NodeId) -> bool
    ensures { result ≡ goes_by neighbour.0 (option_map (known_route (A.sig_value _algebra.now)) row.now) }
{
    match row {
        Some(known) => is_second(known.path.as_slice(), neighbour),
        None => false,
    }
}

// Whether there is a row, and the offer whose value stands in the place is worse, or there is none.
fn is_worse<A: Algebra>(
    algebra: &A,
    node: NodeId,
    after_offer: Option<&[NodeId]>,
    place: &Option<A::Sig>,
    row: &Option<Known<A::Sig>>,
) -> bool
    requires offer { IfSome (placed after_offer place.now) (λ o. A.is_sig algebra.now o.sig) }
    requires row { IfSome row.now (λ k. A.is_sig algebra.now k.sig) }
    requires begins { IfSome row.now (λ k. begins_with node.0 (numbers k.path) ≡ true) }
    ensures { let value = A.sig_value algebra.now in
        result ≡ is_worse (carrier_of (A.expression algebra.now))
        (option_map (offered_route value node.0) (placed after_offer.entry place.now))
        (option_map (known_route value) row.now) }
{
    match (after_offer, place, row) {
        (_, _, None) => false,
        (Some(after_offer), Some(sig), Some(row)) => {
            let after_row = after(row.path.as_slice());
            is_first(algebra, &row.sig, after_row, sig, after_offer)
        }
        (None, _, Some(_)) | (_, None, Some(_)) => true,
    }
}

// What becomes of the row of a destination once something was heard on the arc. What the arc offers is compared with
// the row; the other neighbours are asked only where that was the row's own arc and the row is lost.
pub(crate) fn rechoose<A: Algebra>(
    alloc: Global,
    site: &Site<'_, A>,
    own: &Option<A::Sig>,
    neighbours: &Heard<A::Lab, A::Sig>,
    before: &Option<Known<A::Sig>>,
    arrival: &Arrival<'_>,
    spare: &mut Option<A::Sig>,
) -> Result<Option<RowChange<A::Sig>>, NoMemory>
    requires algebra { let at = site.now in A.expression at.algebra.now ≡ at.net.now.alg.expression }
    requires net { IsNet site.now.net.now }
    requires node { site.now.node.0 < length site.now.net.now.nodes }
    requires dest { arrival.now.update.now.dest.0 < length site.now.net.now.dests }
    requires own { IfSome own.now (A.is_sig site.now.algebra.now) }
    requires origin { let at = site.now in option_map (A.sig_value at.algebra.now) own.now ≡
        origin_value at.net.now arrival.now.update.now.dest.0 at.node.0 }
    requires neighbours { let at = site.now in AreNeighbours (A.stands_for at.algebra.now) (A.is_sig at.algebra.now)
        (A.sig_value at.algebra.now) at.net.now (arcs_from at.net.now at.node.0) neighbours.now }
    requires before { IfSome before.now (λ k. A.is_sig site.now.algebra.now k.sig) }
    requires begins { IfSome before.now (λ k. begins_with site.now.node.0 (numbers k.path) ≡ true) }
    requires settles { let at = site.now in let value = A.sig_value at.algebra.now in
        (a : PureArc) × (slice_get at.net.now.arcs arrival.now.arc.0 ≡ Some a) × (a.tail ≡ at.node.0)
        × Settles at.net.now arrival.now.update.now.dest.0 at.node.0 (heard_by value neighbours.now) a
        (option_map (known_route value) before.now) }
    ensures sig { IfOk result (λ change. HasSigs (A.is_sig site.now.algebra.now) change) }
    ensures change { let at = site.now in let value = A.sig_value at.algebra.now in
        let dest = arrival.now.update.now.dest.0 in
        IfOk result (IsChange value at.net.now at.node.0 dest arrival.now.clock
        (option_map (known_route value) before.now)
        (choice at.net.now dest at.node.0 (heard_by value neighbours.now))) }
{
    let dest = arrival.update.dest;
    let place = site.net.place_of(arrival.arc);
    let label = &neighbours.neighbour(place).label;
    let known = neighbours.route(place, dest.0 as usize);
    let after_offer = offer_into(
        alloc,
        site.algebra,
        site.net,
        site.node,
        label,
        known,
        spare,
    )?;
    if is_worse(site.algebra, site.node, after_offer, spare, before) {
        if !goes_by(site.algebra, before, site.net.arc(arrival.arc).head) {
            return Ok(None);
        }
        let row = choose(alloc, site, own, neighbours, dest, spare)?;
        return change_of(alloc, site, before, row, dest, arrival.clock);
    }
    let Some(offer) = take_offer(after_offer, spare) else {
        return Ok(None);
    };
    let row = Some(taken_by(alloc, site.net, site.node, offer)?);
    change_of(alloc, site, before, row, dest, arrival.clock)
}
