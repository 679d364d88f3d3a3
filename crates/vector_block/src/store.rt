// What all nodes of a network reported, heard and have for rows.
ghost use Rattle.std.specs.Prelude.{◌≡◌, ◌<◌, ℕ, IfOk, IfSome, OnErr, OnOk, length, option_map};
ghost use Rattle.net_graph.specs.Nets.{PureArc};
ghost use Rattle.vector_block.specs.Stores.{IsReported, IsStored, MayBeChosen, chosen_route, pure_store, route_of, said_by, with_heard, with_report};

use crate::report::{Choice, Column, Report, ReportId, Reported};
use alg_model::Algebra;
use meta_base::{ArcId, DestId, NoMemory, NodeId};
use net_graph::Net;
use path_store::Trails;
use std::mem::replace;

// What nodes reported, the paths of their routes, and by destination what was heard and what is each node's row.
#[derive(Drop)]
pub(crate) struct Store<S> {
    pub reports: Vec<Report<S>>,
    pub paths: Trails,
    pub columns: Vec<Column>,
}

// The algebra and the network that a store is of.
#[derive(Drop)]
pub(crate) struct Site<'s, A: Algebra> {
    pub algebra: &'s A,
    pub net: &'s Net,
}

// Lends the route of a report, if there is one.
#[inline(always)]
pub(crate) fn said<'s, A: Algebra>(
    _site: &Site<'_, A>,
    store: &'s Store<A::Sig>,
    id: Option<ReportId>,
) -> Option<&'s Reported<A::Sig>>
    requires stored { let at = _site.now in IsStored (A.is_sig at.algebra.now) at.net.now store.now }
    requires id { IfSome id (λ id. id.0 < length store.now.reports.items) }
    ensures route { let value = A.sig_value _site.now.algebra.now in
        option_map (λ r. route_of value store.now.paths r.now) result
        ≡ said_by value store.now.paths store.now.reports.items id }
    ensures kept { let at = _site.now in IfSome result (λ r. (node : ℕ)
        × IsReported (A.is_sig at.algebra.now) at.net.now store.now.paths node r.now) }
{
    match id {
        Some(id) => store.reports[id.0 as usize].route.as_ref(),
        None => None,
    }
}

// Lends what was heard last on the arc for the destination, if it is a route.
#[inline(always)]
pub(crate) fn heard<'s, A: Algebra>(
    site: &Site<'_, A>,
    store: &'s Store<A::Sig>,
    dest: DestId,
    arc: ArcId,
) -> Option<&'s Reported<A::Sig>>
    requires stored { let at = site.now in IsStored (A.is_sig at.algebra.now) at.net.now store.now }
    requires dest { dest.0 < length site.now.net.now.dests }
    requires arc { arc.0 < length site.now.net.now.arcs }
    ensures route { let value = A.sig_value site.now.algebra.now in
        option_map (λ r. route_of value store.now.paths r.now) result ≡ (pure_store value store.now).heard arc.0 dest.0 }
    ensures kept { let at = site.now in IfSome result (λ r. (node : ℕ)
        × IsReported (A.is_sig at.algebra.now) at.net.now store.now.paths node r.now) }
{
    said(
        site,
        store,
        store.columns[dest.0 as usize].heard[arc.0 as usize],
    )
}

// Lends the node's row for the destination, if there is one.
#[inline(always)]
pub(crate) fn row<'s, A: Algebra>(
    _site: &Site<'_, A>,
    store: &'s Store<A::Sig>,
    dest: DestId,
    node: NodeId,
) -> Option<&'s Reported<A::Sig>>
    requires stored { let at = _site.now in IsStored (A.is_sig at.algebra.now) at.net.now store.now }
    requires dest { dest.0 < length _site.now.net.now.dests }
    requires node { node.0 < length _site.now.net.now.nodes }
    ensures route { let value = A.sig_value _site.now.algebra.now in
        option_map (λ r. route_of value store.now.paths r.now) result ≡ (pure_store value store.now).rows node.0 dest.0 }
    ensures kept { let at = _site.now in IfSome result (λ r.
        IsReported (A.is_sig at.algebra.now) at.net.now store.now.paths node.0 r.now) }
{
    match store.columns[dest.0 as usize].rows[node.0 as usize] {
        Some(id) => store.reports[id.0 as usize].route.as_ref(),
        None => None,
    }
}

// Lets this report be the one that was heard last on the arc for the destination, and gives the one before it.
#[inline(always)]
pub(crate) fn hear<A: Algebra>(
    _site: &Site<'_, A>,
    store: &mut Store<A::Sig>,
    dest: DestId,
    arc: ArcId,
    report: Option<ReportId>,
) -> Option<ReportId>
    requires stored { let at = _site.now in IsStored (A.is_sig at.algebra.now) at.net.now store.old }
    requires dest { dest.0 < length _site.now.net.now.dests }
    requires arc { arc.0 < length _site.now.net.now.arcs }
    requires report { IfSome report (λ id. id.0 < length store.old.reports.items) }
    ensures stored { let at = _site.now in IsStored (A.is_sig at.algebra.now) at.net.now store.new }
    ensures heard { let value = A.sig_value _site.now.algebra.now in pure_store value store.new
        ≡ with_heard (pure_store value store.old) arc.0 dest.0
        (said_by value store.old.paths store.old.reports.items report) }
    ensures reports { store.new.reports ≡ store.old.reports }
    ensures paths { store.new.paths ≡ store.old.paths }
    ensures earlier { IfSome result (λ id. id.0 < length store.old.reports.items) }
    ensures was { let value = A.sig_value _site.now.algebra.now in
        said_by value store.old.paths store.old.reports.items result ≡ (pure_store value store.old).heard arc.0 dest.0 }
{
    replace(
        &mut store.columns[dest.0 as usize].heard[arc.0 as usize],
        report,
    )
}

// Lets the choice be the node's row for the destination, or that there is none, and reports it. It is refused for want
// of memory alone, or of numbers of reports, of which there are 2^32.
#[inline(always)]
pub(crate) fn report<A: Algebra>(
    site: &Site<'_, A>,
    store: &mut Store<A::Sig>,
    node: NodeId,
    dest: DestId,
    stamp: u64,
    choice: Option<Choice<A::Sig>>,
) -> Result<(), NoMemory>
    requires stored { let at = site.now in IsStored (A.is_sig at.algebra.now) at.net.now store.old }
    requires node { node.0 < length site.now.net.now.nodes }
    requires dest { dest.0 < length site.now.net.now.dests }
    requires choice { IfSome choice (MayBeChosen (A.is_sig site.now.algebra.now) site.now.net.now store.old) }
    ensures stored { let at = site.now in IsStored (A.is_sig at.algebra.now) at.net.now store.new }
    ensures ok { let value = A.sig_value site.now.algebra.now in OnOk result (pure_store value store.new
        ≡ with_report (pure_store value store.old) node.0 (record {
          dest = dest.0;
          route = option_map (chosen_route value store.old.paths node.0) choice;
          stamp = stamp;
        })) }
    ensures err { let value = A.sig_value site.now.algebra.now in
        OnErr result (pure_store value store.new ≡ pure_store value store.old) }
{
    let id = next_id(store.reports.len())?;
    let route = match choice {
        Some(choice) => Some(kept(site, store, node, choice)?),
        None => None,
    };
    store.reports.push(Report {
        node,
        dest,
        stamp,
        route,
    })?;
    store.columns[dest.0 as usize].rows[node.0 as usize] = Some(id);
    Ok(())
}

// The number of a report that is made after so many, if there is one.
fn next_id(count: usize) -> Result<ReportId, NoMemory>
    ensures { IfOk result (λ id. id.0 ≡ count) }
{
    if count > u32::MAX as usize {
        return Err(NoMemory);
    }
    Ok(ReportId(count as u32))
}

// Keeps the path of the choice, and gives the route that it is.
fn kept<A: Algebra>(
    site: &Site<'_, A>,
    store: &mut Store<A::Sig>,
    node: NodeId,
    choice: Choice<A::Sig>,
) -> Result<Reported<A::Sig>, NoMemory>
    requires stored { let at = site.now in IsStored (A.is_sig at.algebra.now) at.net.now store.old }
    requires choice { MayBeChosen (A.is_sig site.now.algebra.now) site.now.net.now store.old choice }
    ensures stored { let at = site.now in IsStored (A.is_sig at.algebra.now) at.net.now store.new }
    ensures same { let value = A.sig_value site.now.algebra.now in
        pure_store value store.new ≡ pure_store value store.old }
    ensures reports { store.new.reports ≡ store.old.reports }
    ensures columns { store.new.columns ≡ store.old.columns }
    ensures kept { let at = site.now in IfOk result
        (IsReported (A.is_sig at.algebra.now) at.net.now store.new.paths node.0) }
    ensures route { let value = A.sig_value site.now.algebra.now in IfOk result (λ r.
        route_of value store.new.paths r ≡ chosen_route value store.old.paths node.0 choice) }
{
    let _site = site;
    if store.paths.count() > u32::MAX as usize {
        return Err(NoMemory);
    }
    let Choice { sig, rest } = choice;
    let next = match rest {
        Some(rest) => store.paths.first(rest),
        None => node,
    };
    let path = store.paths.add(node, rest)?;
    Ok(Reported { sig, path, next })
}
