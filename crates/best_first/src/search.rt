ghost use Rattle.std.specs.Prelude.{◌≡◌, ◌<◌, ◌≤◌, ◌+◌, ℕ, None, true, false, length, vec_len, IfOk, OnOk, IfNone, IfSome, OnSome, IsSomeAnd, MatchOption, option_map};
ghost use Rattle.arc_labels.specs.Neighbours.{AreListenerLabels};
ghost use Rattle.alg_model.specs.declared.alg.TheConstants.{MAX_VALUE_NUMBER};
ghost use Rattle.alg_model.specs.Expressions.{PureLabel};
ghost use Rattle.alg_model.specs.Carriers.{carrier_of};
ghost use Rattle.alg_model.specs.Application.{App};
ghost use Rattle.alg_model.specs.Bounds.{AtMost};
ghost use Rattle.net_graph.specs.Nets.{CanBeNumbered, IsNet};
ghost use Rattle.net_graph.specs.Tables.{carrier};
ghost use Rattle.best_first.specs.Found.{found_at, own_offer};
ghost use Rattle.best_first.specs.Keys.{best_of, routes_of};
ghost use Rattle.best_first.specs.Fixed.{reported_by, open_routes, AreFixedBy, FixesNone, FixesNext};
ghost use Rattle.best_first.specs.Queue.{AreRanked, IsClear, IsOpen, IsOfferedOf, no_route};
ghost use Rattle.best_first.specs.State.{relaxed, CanSpeak, spoken};

use crate::fixed::Fixed;
use crate::open::Open;
use crate::route::{OpenPlace, OpenRoute, comes_first};
use alg_model::Algebra;
use arc_labels::NeighbourLabels;
use meta_base::{DestId, NoMemory, NodeId};
use net_graph::Net;
use std::alloc::Global;
use std::sync::ledger::Ledger;

// Offers to each node what its own origin gives.
pub(crate) fn offer_own<A: Algebra, L: Ledger>(
    alloc: Global,
    algebra: &A,
    net: &Net,
    dest: DestId,
    search: &mut Open<A, L>,
) -> Result<(), NoMemory>
    requires algebra { A.expression algebra.now ≡ net.now.alg.expression }
    requires net { IsNet net.now }
    requires dest { dest.0 < length net.now.dests }
    requires clear { IsClear (length net.now.nodes) search.old.best.items search.old.standing }
    ensures count { vec_len search.new.best ≡ length net.now.nodes }
    ensures queue { OnOk result (IsOpen (A.sig_value algebra.now) (A.is_sig algebra.now) (carrier net.now)
        no_route search.new.best.items search.new.standing) }
    ensures offers { (k : ℕ) → OnOk result (found_at (routes_of no_route
        (best_of (A.sig_value algebra.now) search.new.best.items)) k ≡ own_offer net.now dest.0 k) }
{
    search.standing.ties_are_judged();
    for origin in net.origins_of(dest) {
        let node = origin.node;
        let route = OpenRoute {
            sig: algebra.sig_of(alloc, &origin.value)?,
            place: OpenPlace {
                size: 1,
                node,
                next: node,
            },
        };
        search.offer(algebra, route);
    }
    Ok(())
}

// Fixes the node whose best route is the best of all, if a route is open, and says where its route went.
pub(crate) fn fix_next<A: Algebra, L: Ledger>(
    algebra: &A,
    fixed: &mut Fixed<A::Sig>,
    search: &mut Open<A, L>,
) -> Result<Option<OpenPlace>, NoMemory>
    requires count { length fixed.old.rows ≡ vec_len search.old.best }
    requires few { CanBeNumbered (length fixed.old.rows) }
    requires fixed { AreFixedBy (A.is_sig algebra.now) fixed.old.rows fixed.old.paths }
    requires queue { let value = A.sig_value algebra.now in
        IsOpen value (A.is_sig algebra.now) (carrier_of (A.expression algebra.now))
        (reported_by value fixed.old.paths fixed.old.rows) search.old.best.items search.old.standing }
    ensures rows { OnOk result (length fixed.new.rows ≡ length fixed.old.rows) }
    ensures best { vec_len search.new.best ≡ vec_len search.old.best }
    ensures none { IfOk result (λ place. IfNone place (FixesNone fixed.old.rows fixed.old.paths
        search.old.best.items fixed.new.rows fixed.new.paths)) }
    ensures clear { IfOk result (λ place. IfNone place
        (IsClear (vec_len search.old.best) search.new.best.items search.new.standing)) }
    ensures next { IfOk result (λ place. IfSome place (λ place.
        FixesNext (A.sig_value algebra.now) (carrier_of (A.expression algebra.now))
        fixed.old.rows fixed.old.paths search.old.best.items
        fixed.new.rows fixed.new.paths search.new.best.items place.node.0)) }
    ensures size { IfOk result (λ place. IfSome place (λ place. IfSome
        (reported_by (A.sig_value algebra.now) fixed.new.paths fixed.new.rows place.node.0)
        (λ r. place.size ≡ length r.path))) }
    ensures fixed { IfOk result (λ place.
        OnSome place (AreFixedBy (A.is_sig algebra.now) fixed.new.rows fixed.new.paths)) }
    ensures queue { let value = A.sig_value algebra.now in
        IfOk result (λ place. OnSome place (IsOpen value (A.is_sig algebra.now) (carrier_of (A.expression algebra.now))
        (reported_by value fixed.new.paths fixed.new.rows) search.new.best.items search.new.standing)) }
{
    let Some(route) = search.take_best(algebra) else {
        return Ok(None);
    };
    let place = route.place;
    fixed.fix(route)?;
    Ok(Some(place))
}

// Offers the route that was fixed there to the listeners of its node that are not fixed. The clauses speak of the
// network, and the labels are all that is read of it.
pub(crate) fn relax<A: Algebra, L: Ledger>(
    alloc: Global,
    algebra: &A,
    _net: &Net,
    labels: &NeighbourLabels<'_, A::Lab>,
    fixed: &Fixed<A::Sig>,
    search: &mut Open<A, L>,
    place: OpenPlace,
) -> Result<(), NoMemory>
    requires algebra { A.expression algebra.now ≡ _net.now.alg.expression }
    requires net { IsNet _net.now }
    requires labels { AreListenerLabels (A.stands_for algebra.now) _net.now labels.now }
    requires node { place.node.0 < length _net.now.nodes }
    requires rows { length fixed.now.rows ≡ length _net.now.nodes }
    requires count { vec_len search.old.best ≡ length _net.now.nodes }
    requires fixed { AreFixedBy (A.is_sig algebra.now) fixed.now.rows fixed.now.paths }
    requires next { IsSomeAnd (reported_by (A.sig_value algebra.now) fixed.now.paths fixed.now.rows place.node.0)
        (CanSpeak _net.now place.node.0) }
    requires size { IfSome (reported_by (A.sig_value algebra.now) fixed.now.paths fixed.now.rows place.node.0)
        (λ r. place.size ≡ length r.path) }
    requires queue { IsOpen (A.sig_value algebra.now) (A.is_sig algebra.now) (carrier _net.now)
        (reported_by (A.sig_value algebra.now) fixed.now.paths fixed.now.rows)
        search.old.best.items search.old.standing }
    ensures count { vec_len search.new.best ≡ length _net.now.nodes }
    ensures queue { OnOk result (IsOpen (A.sig_value algebra.now) (A.is_sig algebra.now) (carrier _net.now)
        (reported_by (A.sig_value algebra.now) fixed.now.paths fixed.now.rows)
        search.new.best.items search.new.standing) }
    ensures routes { (k : ℕ) → let value = A.sig_value algebra.now in
        let rows = fixed.now.rows in let paths = fixed.now.paths in
        let reported = reported_by value paths rows in
        OnOk result (found_at (open_routes value paths rows search.new.best.items) k ≡
        relaxed (carrier _net.now) (reported k)
        (found_at (open_routes value paths rows search.old.best.items) k)
        (spoken _net.now k place.node.0 (reported place.node.0))) }
{
    let Some(next) = fixed.route(place.node) else {
        unreachable!()
    };
    let size = place.size + 1;
    for listener in labels.of(place.node) {
        if !fixed.is_fixed(listener.node) {
            let offered = OpenPlace {
                size,
                node: listener.node,
                next: place.node,
            };
            offer_image(alloc, algebra, listener.label, next.sig, offered, search)?;
        }
    }
    Ok(())
}

// Offers at the place what the label makes of the value, if it is a value. Mostly a value is spare, and the new one is
// made in its memory.
#[inline(always)]
fn offer_image<A: Algebra, L: Ledger>(
    alloc: Global,
    algebra: &A,
    lab: &A::Lab,
    sig: &A::Sig,
    place: OpenPlace,
    search: &mut Open<A, L>,
) -> Result<(), NoMemory>
    requires lab { (l : PureLabel) × A.stands_for algebra.now lab.now l }
    requires sig { A.is_sig algebra.now sig.now }
    requires small { AtMost MAX_VALUE_NUMBER (A.sig_value algebra.now sig.now) }
    requires node { place.node.0 < vec_len search.old.best }
    requires ranked { AreRanked (A.sig_value algebra.now) (A.is_sig algebra.now)
        (carrier_of (A.expression algebra.now)) search.old.best.items search.old.standing }
    ensures count { vec_len search.new.best ≡ vec_len search.old.best }
    ensures ranked { AreRanked (A.sig_value algebra.now) (A.is_sig algebra.now)
        (carrier_of (A.expression algebra.now)) search.new.best.items search.new.standing }
    ensures offered { (l : PureLabel) → A.stands_for algebra.now lab.now l →
        let value = A.sig_value algebra.now in
        OnOk result (IsOfferedOf (carrier_of (A.expression algebra.now)) place
        (App (A.expression algebra.now) l (value sig.now))
        (best_of value search.old.best.items) (best_of value search.new.best.items)) }
{
    let OpenPlace { size, node, next } = place;
    let Some(best) = &search.best[node.0 as usize] else {
        let place = OpenPlace { size, node, next };
        return offer_image_anew(alloc, algebra, lab, sig, place, search);
    };
    let Some(image) = &mut search.spare else {
        // A new place, so that it stands in memory on this way alone.
        let place = OpenPlace { size, node, next };
        return offer_image_anew(alloc, algebra, lab, sig, place, search);
    };
    if algebra.apply_into(alloc, lab, sig, image)?
        && comes_first(algebra.order(image, &best.sig), place, best.place)
    {
        search.keep_spare(algebra, size, node, next);
    }
    Ok(())
}

// The same where no value is spare.
#[inline(never)]
fn offer_image_anew<A: Algebra, L: Ledger>(
    alloc: Global,
    algebra: &A,
    lab: &A::Lab,
    sig: &A::Sig,
    place: OpenPlace,
    search: &mut Open<A, L>,
) -> Result<(), NoMemory>
    requires lab { (l : PureLabel) × A.stands_for algebra.now lab.now l }
    requires sig { A.is_sig algebra.now sig.now }
    requires small { AtMost MAX_VALUE_NUMBER (A.sig_value algebra.now sig.now) }
    requires node { place.node.0 < vec_len search.old.best }
    requires ranked { AreRanked (A.sig_value algebra.now) (A.is_sig algebra.now)
        (carrier_of (A.expression algebra.now)) search.old.best.items search.old.standing }
    ensures count { vec_len search.new.best ≡ vec_len search.old.best }
    ensures ranked { AreRanked (A.sig_value algebra.now) (A.is_sig algebra.now)
        (carrier_of (A.expression algebra.now)) search.new.best.items search.new.standing }
    ensures offered { (l : PureLabel) → A.stands_for algebra.now lab.now l →
        let value = A.sig_value algebra.now in
        OnOk result (IsOfferedOf (carrier_of (A.expression algebra.now)) place
        (App (A.expression algebra.now) l (value sig.now))
        (best_of value search.old.best.items) (best_of value search.new.best.items)) }
{
    if let Some(sig) = algebra.apply(alloc, lab, sig)? {
        search.offer(algebra, OpenRoute { sig, place });
    }
    Ok(())
}
