ghost use Rattle.std.specs.Prelude.{◌≡◌, Some, IfOk, map};
ghost use Rattle.arc_labels.specs.Neighbours.{AreSpeakerLabels};
ghost use Rattle.distance_node.specs.Node.{new_nodes};
ghost use Rattle.distance_node.specs.Nodes.{state_of};

use crate::{DvNode, Mark};
use alg_model::Algebra;
use arc_labels::NeighbourLabels;
use meta_base::{List, NoMemory, NodeId};
use net_graph::Net;
use std::alloc::Global;

/// The new nodes of a network, in order. The algebra is the network's and the mark's, and lends the labels of the arcs.
/// It is refused for want of memory alone.
pub fn new_nodes<'a, A: Algebra, M: Mark<A>>(
    alloc: Global,
    algebra: &'a A,
    net: &'a Net,
    labels: &'a NeighbourLabels<'a, A::Lab>,
) -> Result<List<DvNode<'a, A, M>>, NoMemory>
    requires mark { M.algebra ≡ Some algebra.now }
    requires algebra { A.expression algebra.now ≡ net.now.alg.expression }
    requires labels { AreSpeakerLabels (A.stands_for algebra.now) net.now labels.now }
    ensures { IfOk result (λ nodes. map state_of nodes ≡ new_nodes net.now) }
{
    let count = net.node_count();
    let mut nodes = Vec::with_capacity(alloc, count)?;
    for number in 0..count {
        nodes.push(DvNode::new(alloc, algebra, net, labels, NodeId(number as u32))?)?;
    }
    Ok(List::from_vec(nodes))
}
