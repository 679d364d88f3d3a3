// The neighbours of a node that begins.
ghost use Rattle.std.specs.Prelude.{◌≡◌, ◌<◌, ℕ, None, Some, IfOk, length, slice_get, true};
ghost use Rattle.std.proofs.Math.ListN.{set};
ghost use Rattle.net_graph.specs.Nets.{IsNet, arcs_from};
ghost use Rattle.path_vector.specs.Alike.{AreAlike};
ghost use Rattle.path_vector.specs.Columns.{HasEntries};
ghost use Rattle.path_vector.specs.Known.{heard_by, AreNeighbours, Listened};
ghost use Rattle.path_vector.specs.Node.{heard_before};

use crate::heard::Heard;
use crate::neighbour::Neighbour;
use crate::same_arcs::renewed;
use alg_model::Algebra;
use meta_base::{NoMemory, NodeId};
use net_graph::Net;
use std::alloc::Global;

// A neighbour at each arc that the node may route by, of which nothing was heard.
pub(crate) fn silent_neighbours<A: Algebra>(
    alloc: Global,
    algebra: &A,
    net: &Net,
    node: NodeId,
) -> Result<Heard<A::Lab, A::Sig>, NoMemory>
    requires algebra { A.expression algebra.now ≡ net.now.alg.expression }
    requires node { node.0 < length net.now.nodes }
    ensures net { IsNet net.now }
    ensures neighbours { IfOk result (λ ns. AreNeighbours (A.stands_for algebra.now) (A.is_sig algebra.now)
        (A.sig_value algebra.now) net.now (arcs_from net.now node.0) ns) }
    ensures silent { let value = A.sig_value algebra.now in IfOk result (λ ns. (arc dest : ℕ) →
        heard_by value ns arc dest ≡ None) }
{
    let dests = net.dest_count();
    let arcs = net.out_arcs(node);
    let mut neighbours = Vec::with_capacity(alloc, arcs.count())?;
    for place in 0..arcs.count() {
        let arc = arcs.get(place);
        neighbours.push(Neighbour {
            arc: arc.id,
            label: algebra.lab_of(alloc, arc.label)?,
        })?;
    }
    Heard::nothing(alloc, neighbours, dests)
}

// Lets the neighbour at a place have heard all that one of others heard, who forgets it.
fn hear_all_at<L, S: Drop>(
    neighbours: &mut Heard<L, S>,
    place: usize,
    others: &mut Heard<L, S>,
    at: usize,
    dests: usize,
)
    requires here { HasEntries place dests neighbours.old }
    requires there { HasEntries at dests others.old }
    ensures heard { (n m : Listened L S) → slice_get neighbours.old place ≡ Some n → slice_get others.old at ≡ Some m →
        neighbours.new ≡ set neighbours.old place (record n { heard = m.heard }) }
    ensures after { (k : ℕ) → at < k → slice_get others.new k ≡ slice_get others.old k }
    ensures count { length others.new ≡ length others.old }
{
    for dest in 0..dests {
        let route = others.hear(at, dest, None);
        neighbours.hear(place, dest, route);
    }
}

// The neighbours of a node on a changed network: of those on arcs that were there before, it has heard what it
// heard then.
pub(crate) fn carried_neighbours<A: Algebra>(
    alloc: Global,
    algebra: &A,
    before: &Net,
    net: &Net,
    node: NodeId,
    mut old: Heard<A::Lab, A::Sig>,
) -> Result<Heard<A::Lab, A::Sig>, NoMemory>
    requires algebra { A.expression algebra.now ≡ net.now.alg.expression }
    requires node { node.0 < length net.now.nodes }
    requires before { IsNet before.now }
    requires net { net.now ≡ record before.now { arcs = net.now.arcs } }
    requires old { AreNeighbours (A.stands_for algebra.now) (A.is_sig algebra.now)
        (A.sig_value algebra.now) before.now (arcs_from before.now node.0) old }
    ensures net { IsNet net.now }
    ensures neighbours { IfOk result (λ ns. AreNeighbours (A.stands_for algebra.now) (A.is_sig algebra.now)
        (A.sig_value algebra.now) net.now (arcs_from net.now node.0) ns) }
    ensures heard { let value = A.sig_value algebra.now in IfOk result (λ ns.
        heard_by value ns ≡ heard_before before.now net.now (heard_by value old)) }
{
    let mut neighbours = silent_neighbours(alloc, algebra, net, node)?;
    let dests = net.dest_count();
    for at in 0..old.count() {
        let arc = before.arc(old.neighbour(at).arc);
        if let Some(id) = net.arc_between(arc.tail, arc.head) {
            let place = net.place_of(id);
            hear_all_at(&mut neighbours, place, &mut old, at, dests);
        }
    }
    Ok(neighbours)
}

// The neighbours of a node on a changed network, which heard what they heard before. Where the node's arcs are alike in
// both networks the neighbours stay, and only the arcs' numbers are new.
pub(crate) fn kept_neighbours<A: Algebra>(
    alloc: Global,
    algebra: &A,
    before: &Net,
    net: &Net,
    node: NodeId,
    are_alike: bool,
    old: Heard<A::Lab, A::Sig>,
) -> Result<Heard<A::Lab, A::Sig>, NoMemory>
    requires algebra { A.expression algebra.now ≡ net.now.alg.expression }
    requires node { node.0 < length net.now.nodes }
    requires before { IsNet before.now }
    requires net { net.now ≡ record before.now { arcs = net.now.arcs } }
    requires alike { are_alike ≡ true → AreAlike (arcs_from before.now node.0) (arcs_from net.now node.0) }
    requires old { AreNeighbours (A.stands_for algebra.now) (A.is_sig algebra.now)
        (A.sig_value algebra.now) before.now (arcs_from before.now node.0) old }
    ensures net { IsNet net.now }
    ensures neighbours { IfOk result (λ ns. AreNeighbours (A.stands_for algebra.now) (A.is_sig algebra.now)
        (A.sig_value algebra.now) net.now (arcs_from net.now node.0) ns) }
    ensures heard { let value = A.sig_value algebra.now in IfOk result (λ ns.
        heard_by value ns ≡ heard_before before.now net.now (heard_by value old)) }
{
    if are_alike {
        return Ok(renewed(net, node, old));
    }
    carried_neighbours(alloc, algebra, before, net, node, old)
}
