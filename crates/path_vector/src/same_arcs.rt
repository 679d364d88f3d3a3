// The neighbours of a node that routes by the same arcs in two networks.
ghost use Rattle.std.specs.Prelude.{◌≡◌, ◌<◌, length};
ghost use Rattle.std.specs.Bool.{Decides};
ghost use Rattle.net_graph.specs.Nets.{IsNet, arcs_from};
ghost use Rattle.net_graph.specs.Views.{pure_arc};
ghost use Rattle.path_vector.specs.Alike.{is_alike, AreAlike, AreRenewed};

use crate::heard::Heard;
use crate::labels::same_label;
use meta_base::NodeId;
use net_graph::{Arc, Net};

// Whether the arcs have one head and one label.
fn is_alike(arc: &Arc<'_>, other: &Arc<'_>) -> bool
    ensures { result ≡ is_alike (pure_arc arc.now) (pure_arc other.now) }
{
    arc.head.0 == other.head.0 && same_label(arc.label, other.label)
}

// Whether the arcs that the node may route by go to the same heads by the same labels in both networks, in one order.
pub(crate) fn has_arcs_alike(before: &Net, net: &Net, node: NodeId) -> bool
    requires before { node.0 < length before.now.nodes }
    requires net { node.0 < length net.now.nodes }
    ensures { Decides result (AreAlike (arcs_from before.now node.0) (arcs_from net.now node.0)) }
{
    let arcs = before.out_arcs(node);
    let others = net.out_arcs(node);
    if arcs.count() != others.count() {
        return false;
    }
    for place in 0..arcs.count() {
        if !is_alike(&arcs.get(place), &others.get(place)) {
            return false;
        }
    }
    true
}

// The neighbours at the arcs of the node in this network, with all that was heard of them at its arcs in another.
pub(crate) fn renewed<L, S>(net: &Net, node: NodeId, mut neighbours: Heard<L, S>) -> Heard<L, S>
    requires node { node.0 < length net.now.nodes }
    requires count { length neighbours ≡ length (arcs_from net.now node.0) }
    ensures net { IsNet net.now }
    ensures renewed { AreRenewed (arcs_from net.now node.0) neighbours result }
{
    // This call tells the proof that the network meets its rules.
    let _arc_count = net.arc_count();
    let arcs = net.out_arcs(node);
    for place in 0..arcs.count() {
        neighbours.put_at(place, arcs.get(place).id);
    }
    neighbours
}
