ghost use Rattle.std.specs.Prelude.{◌≡◌, ◌<◌, Some, IfOk, IfSome, OnErr, OnOk, true, option_map, slice_get};
ghost use Rattle.alg_model.specs.Carriers.{carrier_of, In};
ghost use Rattle.alg_model.specs.Views.{pure_value};
ghost use Rattle.net_graph.specs.Nets.{PureArc, IsNet};
ghost use Rattle.path_vector.specs.Changes.{HasSigs, IsChange};
ghost use Rattle.path_vector.specs.Known.{known_route, heard_by};
ghost use Rattle.path_vector.specs.Node.{choice, heard_with};
ghost use Rattle.path_vector.specs.State.{IsKept, row_routes};
ghost use Rattle.path_vector.specs.Updates.{pure_shared, pure_update};
ghost use Rattle.path_vector.specs.Words.{fits_on};

use crate::heard::Heard;
use crate::known::{Known, known_of};
use crate::rechoosing::{RowChange, rechoose};
use crate::shared::Shared;
use crate::site::{Arrival, Site};
use crate::update::SharedRoute;
use alg_model::Algebra;
use meta_base::NoMemory;
use std::alloc::Global;

// The route of an update in the algebra's form, if it has one.
fn heard_route<A: Algebra>(
    alloc: Global,
    algebra: &A,
    route: &Option<Shared<SharedRoute>>,
) -> Result<Option<Known<A::Sig>>, NoMemory>
    requires { IfSome route.now (λ r. In (carrier_of (A.expression algebra.now)) (pure_value r.value)) }
    ensures sig { IfOk result (λ known. IfSome known (λ k. A.is_sig algebra.now k.sig)) }
    ensures route { IfOk result (λ known. option_map (known_route (A.sig_value algebra.now)) known ≡
        option_map pure_shared route.now) }
{
    match route {
        Some(route) => Ok(Some(known_of(alloc, algebra, route.get())?)),
        None => Ok(None),
    }
}

// Hears an update that came on the arc, and gives the change of the row for the destination, which was the node's
// choice before. After want of memory what was heard is as it was.
pub(crate) fn hear<A: Algebra>(
    alloc: Global,
    site: &Site<'_, A>,
    own: &[Option<A::Sig>],
    neighbours: &mut Heard<A::Lab, A::Sig>,
    rows: &[Option<Known<A::Sig>>],
    arrival: &Arrival<'_>,
    spare: &mut Option<A::Sig>,
) -> Result<Option<RowChange<A::Sig>>, NoMemory>
    requires algebra { let at = site.now in A.expression at.algebra.now ≡ at.net.now.alg.expression }
    requires net { IsNet site.now.net.now }
    requires kept { let at = site.now in IsKept (A.stands_for at.algebra.now) (A.is_sig at.algebra.now)
        (A.sig_value at.algebra.now) at.net.now at.node.0 own.now neighbours.old rows.now }
    requires fits { let at = site.now in
        (a : PureArc) × (slice_get at.net.now.arcs arrival.now.arc.0 ≡ Some a) × (a.tail ≡ at.node.0)
        × (fits_on at.net.now a (pure_update arrival.now.update.now) ≡ true) }
    requires chosen { let at = site.now in let value = A.sig_value at.algebra.now in
        let dest = arrival.now.update.now.dest.0 in
        row_routes value rows.now dest ≡ choice at.net.now dest at.node.0 (heard_by value neighbours.old) }
    ensures sig { IfOk result (λ change. HasSigs (A.is_sig site.now.algebra.now) change) }
    ensures kept { let at = site.now in IsKept (A.stands_for at.algebra.now) (A.is_sig at.algebra.now)
        (A.sig_value at.algebra.now) at.net.now at.node.0 own.now neighbours.new rows.now }
    ensures err { let value = A.sig_value site.now.algebra.now in
        OnErr result (heard_by value neighbours.new ≡ heard_by value neighbours.old) }
    ensures heard { let value = A.sig_value site.now.algebra.now in OnOk result (heard_by value neighbours.new ≡
        heard_with (heard_by value neighbours.old) arrival.now.arc.0 (pure_update arrival.now.update.now)) }
    ensures change { let at = site.now in let value = A.sig_value at.algebra.now in
        let dest = arrival.now.update.now.dest.0 in
        IfOk result (IsChange value at.net.now at.node.0 dest arrival.now.clock (row_routes value rows.now dest)
        (choice at.net.now dest at.node.0 (heard_by value neighbours.new))) }
{
    let dest = arrival.update.dest.0 as usize;
    let place = site.net.place_of(arrival.arc);
    let route = heard_route(alloc, site.algebra, &arrival.update.route)?;
    let earlier = neighbours.hear(place, dest, route);
    match rechoose(
        alloc,
        site,
        &own[dest],
        neighbours,
        &rows[dest],
        arrival,
        spare,
    ) {
        Ok(change) => Ok(change),
        Err(refusal) => {
            neighbours.hear(place, dest, earlier);
            Err(refusal)
        }
    }
}
