// Lists of nodes that begin: new ones, and those that are carried over a change.
ghost use Rattle.std.specs.Prelude.{◌≡◌, IfOk, map};
ghost use Rattle.net_graph.specs.Nets.{PureNet};
ghost use Rattle.path_vector.specs.Node.{carried};
ghost use Rattle.path_vector.specs.Nodes.{state_of};
ghost use Rattle.vector_runs.specs.Runs.{AreBegun, new_nodes};

use alg_model::Algebra;
use meta_base::{List, NoMemory, NodeId};
use net_graph::Net;
use path_vector::PvNode;
use std::alloc::Global;

// The new nodes of a network, in order.
pub(crate) fn new_nodes<'a, A: Algebra>(
    alloc: Global,
    algebra: &'a A,
    net: &'a Net,
) -> Result<List<PvNode<'a, A>>, NoMemory>
    requires { A.expression algebra.now ≡ net.now.alg.expression }
    ensures { IfOk result (λ nodes. map state_of nodes ≡ new_nodes net.now) }
{
    let count = net.node_count();
    let mut nodes = Vec::with_capacity(alloc, count)?;
    for number in 0..count {
        nodes.push(PvNode::new(alloc, algebra, net, NodeId(number as u32))?)?;
    }
    Ok(List::from_vec(nodes))
}

/// The nodes of a network, in order, on one that differs from it in its arcs alone: they aren't begun, keep their rows,
/// and have heard what they heard on the arcs that were there before. It is refused for want of memory alone.
pub fn carried_nodes<'a, A: Algebra>(
    alloc: Global,
    old: List<PvNode<'a, A>>,
    net: &'a Net,
) -> Result<List<PvNode<'a, A>>, NoMemory>
    requires { (before : PureNet) × (net.now ≡ record before { arcs = net.now.arcs })
        × AreBegun before 0 (map state_of old) }
    ensures { IfOk result (λ nodes. map state_of nodes ≡ map (carried net.now) (map state_of old.entry)) }
{
    let old = old.into_vec();
    let mut nodes = Vec::with_capacity(alloc, old.len())?;
    for node in old {
        nodes.push(PvNode::carry(alloc, node, net)?)?;
    }
    Ok(List::from_vec(nodes))
}
