// What a node finds when it hears a report: its row is compared with what the report makes there, and the other
// neighbours are asked only where the row went by the speaker and is lost.
ghost use Rattle.std.specs.Prelude.{◌≡◌, ◌<◌, ◌∷◌, ℕ, IfOk, Some, cond, length, option_and_then, true};
ghost use Rattle.meta_base.specs.NodePaths.{numbers};
ghost use Rattle.path_store.specs.PathOf.{path_of};
ghost use Rattle.alg_model.specs.Carriers.{carrier_of};
ghost use Rattle.alg_model.specs.Tests.{same_value};
ghost use Rattle.net_graph.specs.Nets.{IsNet, PureArc};
ghost use Rattle.net_graph.specs.Routes.{PureRoute, compare_routes};
ghost use Rattle.net_graph.specs.Tables.{carrier};
ghost use Rattle.path_vector.specs.Node.{begins_with, offer_by, same_route};
ghost use Rattle.vector_block.specs.Hearings.{IsHearing, IsFinding};
ghost use Rattle.vector_block.specs.Stores.{IsReported, IsStored, pure_store, route_of, said_by};

use crate::offer::{compare_rests, offer_into};
use crate::report::{ReportId, Reported};
use crate::store::{Site, Store, row, said};
use alg_model::{Algebra, same_value};
use meta_base::{ArcId, DestId, NoMemory, NodeId};
use path_store::PathId;
use std::alloc::Global;
use std::cmp::Ordering;

// A report that is heard on an arc, at a clock: who made it, of which destination, and who hears it.
#[derive(Clone, Copy)]
pub(crate) struct Hearing {
    pub report: ReportId,
    pub dest: DestId,
    pub speaker: NodeId,
    pub arc: ArcId,
    pub node: NodeId,
    pub clock: u64,
}

// What a node finds when it hears a report.
#[derive(Clone, Copy)]
pub(crate) enum Finding {
    // Its row stays.
    Stays,
    // What it was offered is its row. Its value is spare.
    Takes,
    // Its row went by the speaker and is lost.
    Lost,
}

// What the node finds, by the label of the arc.
#[inline(always)]
pub(crate) fn look<A: Algebra>(
    alloc: Global,
    site: &Site<'_, A>,
    store: &Store<A::Sig>,
    hearing: &Hearing,
    label: &A::Lab,
    spare: &mut Option<A::Sig>,
) -> Result<Finding, NoMemory>
    requires algebra { let at = site.now in A.expression at.algebra.now ≡ at.net.now.alg.expression }
    requires net { IsNet site.now.net.now }
    requires stored { let at = site.now in IsStored (A.is_sig at.algebra.now) at.net.now store.now }
    requires hearing { let at = site.now in (a : PureArc) × A.stands_for at.algebra.now label.now a.label
        × IsHearing (A.sig_value at.algebra.now) at.net.now store.now a hearing.now }
    requires begins { let value = A.sig_value site.now.algebra.now in let h = hearing.now in (r : PureRoute) →
        (pure_store value store.now).rows h.node.0 h.dest.0 ≡ Some r → begins_with h.node.0 r.path ≡ true }
    ensures look { let at = site.now in let value = A.sig_value at.algebra.now in let h = hearing.now in
        let said = said_by value store.now.paths store.now.reports.items (Some h.report) in
        (a : PureArc) → A.stands_for at.algebra.now label.now a.label → IsHearing value at.net.now store.now a h →
        IfOk result (IsFinding (A.is_sig at.algebra.now) value (carrier at.net.now) h.speaker.0 h.node.0
        ((pure_store value store.now).rows h.node.0 h.dest.0) said
        (option_and_then (offer_by at.net.now a) said) spare.new) }
{
    let row = row(site, store, hearing.dest, hearing.node);
    if let Some(route) = said(site, store, Some(hearing.report)) {
        if offer_into(alloc, site, store, hearing.node, label, route, spare)? {
            if let Some(offer) = spare {
                let Some(row) = row else {
                    return Ok(Finding::Takes);
                };
                match compare(site, store, offer, route.path, row) {
                    Ordering::Less => return Ok(Finding::Takes),
                    Ordering::Equal => return look_alike(alloc, site.algebra, offer, &row.sig),
                    Ordering::Greater => (),
                }
            }
        }
    }
    match row {
        Some(row) if row.next.0 == hearing.speaker.0 => Ok(Finding::Lost),
        _ => Ok(Finding::Stays),
    }
}

// Which of an offer to the node and its row comes first, `Less` for the offer: it has that value, and its path is the node
// and then that path of the store.
#[inline(always)]
fn compare<A: Algebra>(
    site: &Site<'_, A>,
    store: &Store<A::Sig>,
    offer: &A::Sig,
    path: PathId,
    row: &Reported<A::Sig>,
) -> Ordering
    requires offer { A.is_sig site.now.algebra.now offer.now }
    requires path { path.0 < length store.now.paths }
    requires row { let at = site.now in
        (node : ℕ) × IsReported (A.is_sig at.algebra.now) at.net.now store.now.paths node row.now }
    ensures { (node : ℕ) → let value = A.sig_value site.now.algebra.now in
        begins_with node (route_of value store.now.paths row.now).path ≡ true →
        result ≡ compare_routes (carrier_of (A.expression site.now.algebra.now))
        (record { value = value offer.now; path = node ∷ numbers (path_of store.now.paths path) })
        (route_of value store.now.paths row.now) }
{
    match site.algebra.order(offer, &row.sig) {
        Ordering::Equal => compare_rests(&store.paths, Some(path), store.paths.rest(row.path)),
        values => values,
    }
}

// What a node finds where an offer is no better than its row and has the same path: they are one where their values are.
#[inline(never)]
fn look_alike<A: Algebra>(
    alloc: Global,
    algebra: &A,
    offer: &A::Sig,
    row: &A::Sig,
) -> Result<Finding, NoMemory>
    requires offer { A.is_sig algebra.now offer.now }
    requires row { A.is_sig algebra.now row.now }
    ensures { IfOk result (λ look. look ≡ cond
        (same_value (A.sig_value algebra.now offer.now) (A.sig_value algebra.now row.now)) Finding.Stays Finding.Takes) }
{
    if has_same_value(alloc, algebra, offer, row)? {
        return Ok(Finding::Stays);
    }
    Ok(Finding::Takes)
}

// Whether two values in the algebra's form are one.
pub(crate) fn has_same_value<A: Algebra>(
    alloc: Global,
    algebra: &A,
    first: &A::Sig,
    second: &A::Sig,
) -> Result<bool, NoMemory>
    requires first { A.is_sig algebra.now first.now }
    requires second { A.is_sig algebra.now second.now }
    ensures { IfOk result (λ same.
        same ≡ same_value (A.sig_value algebra.now first.now) (A.sig_value algebra.now second.now)) }
{
    let one = algebra.value_of(alloc, first)?;
    let other = algebra.value_of(alloc, second)?;
    Ok(same_value(&one, &other))
}
