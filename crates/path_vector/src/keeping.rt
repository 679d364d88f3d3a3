// What a node tells when it begins with the rows that it has.
ghost use Rattle.std.specs.Prelude.{◌≡◌, ◌<◌, ℕ, ◌++◌, Some, IfOk, IfSome, OnOk, false, true, length, map, option_map, slice_get};
ghost use Rattle.std.specs.Bool.{Decides};
ghost use Rattle.std.specs.List.{range_with_len};
ghost use Rattle.net_graph.specs.Nets.{PureArc, IsNet, arcs_to};
ghost use Rattle.path_vector.specs.Keeping.{all_kept_news, kept_news};
ghost use Rattle.path_vector.specs.Known.{known_route, entry_of};
ghost use Rattle.path_vector.specs.State.{row_routes};
ghost use Rattle.path_vector.specs.Updates.{noted, spoken_in};

use crate::known::Known;
use crate::rechoosing::update_of;
use crate::reporting::{report_begun, spoke_on};
use crate::site::Site;
use crate::update::Update;
use alg_model::Algebra;
use meta_base::{DestId, List, NoMemory, NodeId};
use net_graph::Net;
use node_core::Outgoing;
use std::alloc::Global;

// Whether the node spoke on each arc that it speaks on in the network that it comes from already.
fn spoke_on_all(net: &Net, before: Option<&Net>, node: NodeId) -> bool
    requires net { IsNet net.now }
    requires node { node.0 < length net.now.nodes }
    ensures { Decides result ((k : ℕ) (a : PureArc) → slice_get (arcs_to net.now node.0) k ≡ Some a →
        spoken_in (option_map (λ n. n.now) before.entry) a.tail a.head ≡ true) }
{
    for id in net.listeners(node) {
        if !spoke_on(before, &net.arc(*id)) {
            return false;
        }
    }
    true
}

// Tells of a row that stays, if it is there, those listeners that the node didn't speak to before.
fn report_kept<A: Algebra>(
    alloc: Global,
    site: &Site<'_, A>,
    before: Option<&Net>,
    dest: DestId,
    row: &Option<Known<A::Sig>>,
    out: &mut Outgoing<Update>,
) -> Result<(), NoMemory>
    requires net { IsNet site.now.net.now }
    requires node { site.now.node.0 < length site.now.net.now.nodes }
    requires row { IfSome row.now (λ k. A.is_sig site.now.algebra.now k.sig) }
    ensures { let at = site.now in let value = A.sig_value at.algebra.now in
        OnOk result (map noted out.new ≡ map noted out.old ++ kept_news at.net.now (option_map (λ n. n.now) before.entry)
        at.node.0 dest.0 (option_map (known_route value) row.now)) }
{
    if row.is_none() {
        return Ok(());
    }
    let update = update_of(alloc, site.algebra, dest, row, 0)?;
    report_begun(alloc, site.net, before, site.node, false, &update, out)
}

// What the node tells of its rows, all of which stay. Where it spoke to each listener before it says nothing, and looks
// at no row.
pub(crate) fn news_of_kept<A: Algebra>(
    alloc: Global,
    site: &Site<'_, A>,
    before: Option<&Net>,
    rows: &[Option<Known<A::Sig>>],
) -> Result<Outgoing<Update>, NoMemory>
    requires net { IsNet site.now.net.now }
    requires node { site.now.node.0 < length site.now.net.now.nodes }
    requires count { length rows.now ≡ length site.now.net.now.dests }
    requires sigs { (dest : ℕ) (k : Known A.Sig) → entry_of rows.now dest ≡ Some k →
        A.is_sig site.now.algebra.now k.sig }
    ensures { let at = site.now in let value = A.sig_value at.algebra.now in
        IfOk result (λ out. map noted out ≡ all_kept_news at.net.now (option_map (λ n. n.now) before.entry)
        at.node.0 (row_routes value rows.now) (range_with_len 0 (length rows.now))) }
{
    let mut out = List::new(alloc);
    if spoke_on_all(site.net, before, site.node) {
        return Ok(out);
    }
    for place in 0..rows.len() {
        let dest = DestId(place as u32);
        report_kept(alloc, site, before, dest, &rows[place], &mut out)?;
    }
    Ok(out)
}
