ghost use Rattle.std.specs.Prelude.{◌≡◌, ◌++◌, ◌<◌, IfOk, OnOk, length, map};
ghost use Rattle.std.specs.List.{AllByRecursion};
ghost use Rattle.net_graph.specs.Nets.{PureNet};
ghost use Rattle.net_graph.specs.Views.{pure_row};
ghost use Rattle.path_vector.specs.Node.{dest_rows, node_rows};
ghost use Rattle.path_vector.specs.Nodes.{state_of};

use crate::node::PvNode;
use alg_model::Algebra;
use meta_base::{DestId, List, NoMemory};
use net_graph::RouteRow;
use std::alloc::Global;

// Adds the nodes' rows of a destination, by node.
fn push_dest_rows<A: Algebra>(
    alloc: Global,
    nodes: &[PvNode<'_, A>],
    dest: DestId,
    rows: &mut Vec<RouteRow>,
) -> Result<(), NoMemory>
    requires { AllByRecursion (λ n. dest.0 < length n.net.dests) nodes.now }
    ensures { OnOk result (map pure_row rows.new.items ≡
        map pure_row rows.old.items ++ dest_rows (map state_of nodes.now) dest.0) }
{
    for node in nodes {
        rows.push(node.row(alloc, dest)?)?;
    }
    Ok(())
}

/// The rows of nodes of one network, by destination, then in the order of the nodes. It is refused for want of
/// memory alone.
pub fn rows_of<A: Algebra>(
    alloc: Global,
    nodes: &[PvNode<'_, A>],
) -> Result<List<RouteRow>, NoMemory>
    requires { (net : PureNet) × AllByRecursion (λ n. n.net ≡ net) nodes.now }
    ensures { (net : PureNet) → AllByRecursion (λ n. n.net ≡ net) nodes.now →
        IfOk result (λ rows. map pure_row rows ≡ node_rows net (map state_of nodes.now)) }
{
    let Some(first) = nodes.first() else {
        return Ok(List::new(alloc));
    };
    let count = first.dest_count();
    let mut rows = Vec::with_capacity(alloc, count.saturating_mul(nodes.len()))?;
    for dest in 0..count {
        push_dest_rows(alloc, nodes, DestId(dest as u32), &mut rows)?;
    }
    Ok(List::from_vec(rows))
}
