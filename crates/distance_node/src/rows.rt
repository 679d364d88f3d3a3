ghost use Rattle.std.specs.Prelude.{◌≡◌, ◌++◌, ◌<◌, IfOk, OnOk, length, map};
ghost use Rattle.std.specs.List.{AllByRecursion};
ghost use Rattle.net_graph.specs.Nets.{PureNet};
ghost use Rattle.distance_node.specs.Nodes.{state_of};
ghost use Rattle.distance_node.specs.Rows.{HopRows, dest_rows, pure_hop_row};

use crate::{DvNode, Mark};
use alg_model::{Algebra, Value};
use meta_base::{DestId, List, NoMemory, NodeId};
use std::alloc::Global;

/// A node's value for a destination, or none, and the neighbour that it routes by. A value without a next hop is the
/// node's own origin's.
#[derive(Debug, Drop)]
pub struct HopRow {
    /// The node.
    pub node: NodeId,
    /// The destination.
    pub dest: DestId,
    /// The value, or none where the node has no row.
    pub value: Option<Value>,
    /// The neighbour whose value it is made of.
    pub next: Option<NodeId>,
}

// Adds the nodes' rows of a destination, by node.
fn push_dest_rows<A: Algebra, M: Mark<A>>(
    alloc: Global,
    nodes: &[DvNode<'_, A, M>],
    dest: DestId,
    rows: &mut Vec<HopRow>,
) -> Result<(), NoMemory>
    requires { AllByRecursion (λ n. dest.0 < length n.net.dests) nodes.now }
    ensures { OnOk result (map pure_hop_row rows.new.items ≡
        map pure_hop_row rows.old.items ++ dest_rows (map state_of nodes.now) dest.0) }
{
    for node in nodes {
        rows.push(node.hop_row(alloc, dest)?)?;
    }
    Ok(())
}

/// The rows of nodes of one network, by destination, then in the order of the nodes. It is refused for want of memory
/// alone.
pub fn hop_rows<A: Algebra, M: Mark<A>>(
    alloc: Global,
    nodes: &[DvNode<'_, A, M>],
) -> Result<List<HopRow>, NoMemory>
    requires { (net : PureNet) × AllByRecursion (λ n. n.net ≡ net) nodes.now }
    ensures { (net : PureNet) → AllByRecursion (λ n. n.net ≡ net) nodes.now →
        IfOk result (λ rows. map pure_hop_row rows ≡ HopRows net (map state_of nodes.now)) }
{
    let Some(first) = nodes.first() else {
        return Ok(List::new(alloc));
    };
    let count = first.dest_count();
    let mut rows = Vec::with_capacity(alloc, count.saturating_mul(nodes.len()))?;
    for dest in 0..count {
        push_dest_rows(alloc, nodes, DestId(dest as u32), &mut rows)?;
    }
    Ok(List::from_vec(rows))
}
