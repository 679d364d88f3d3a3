// Whether a table is one of a network's.
ghost use Rattle.std.specs.Prelude.{◌≡◌, ◌<◌, length, nat_lt};
ghost use Rattle.std.specs.Bool.{Decides};
ghost use Rattle.std.specs.List.{list_all};
ghost use Rattle.meta_base.specs.NodePaths.{numbers};
ghost use Rattle.net_graph.specs.RowTexts.{AreNodesOf};
ghost use Rattle.net_graph.specs.Tables.{IsRouteOf, TableOf};
ghost use Rattle.net_graph.specs.Views.{pure_route, pure_row, rows_of};
ghost use Rattle.stable_check.specs.Checks.{IsRowAt};

use crate::MAX_WALK_NODES;
use alg_model::{is_at_most, value_in};
use meta_base::{DestId, NodeId};
use net_graph::{DestTable, MAX_ROW_NUMBER, Net, Route, RouteRow};

// Whether the numbers of the nodes are below the count.
fn are_below(nodes: &[NodeId], count: usize) -> bool
    ensures { result ≡ list_all (λ n. nat_lt n.0 count) nodes.now }
{
    nodes.iter().all(|node| (node.0 as usize) < count)
}

/// Whether the nodes are the network's.
pub(crate) fn are_nodes_of(net: &Net, nodes: &[NodeId]) -> bool
    ensures { Decides result (AreNodesOf net.now (numbers nodes.now)) }
{
    are_below(nodes, net.node_count())
}

// Whether the route may stand in a table of the network.
fn is_route_of(net: &Net, route: &Route) -> bool
    ensures { Decides result (IsRouteOf net.now (pure_route route.now)) }
{
    value_in(net.alg(), &route.value)
        && is_at_most(MAX_ROW_NUMBER, &route.value)
        && route.path.as_slice().len() <= MAX_WALK_NODES
}

// Whether the row may stand in a table of the destination at the node of this number.
fn is_row_at(net: &Net, dest: DestId, node: usize, row: &RouteRow) -> bool
    ensures { Decides result (IsRowAt net.now dest.0 node (pure_row row.now)) }
{
    if row.node.0 as usize != node || row.dest.0 != dest.0 {
        return false;
    }
    match &row.route {
        Some(route) => is_route_of(net, route),
        None => true,
    }
}

/// For whoever judges a given table; the program makes its own. Whether the table is one of the network's, as
/// [`crate::is_relaxed`] and [`crate::is_stable`] ask: its destination is the network's, it has one row for each node,
/// in order, and the values of its routes are the algebra's, with numbers of at most [`MAX_ROW_NUMBER`] and paths of at
/// most [`MAX_WALK_NODES`] nodes. It takes no memory.
pub fn is_table_of(net: &Net, table: &DestTable) -> bool
    ensures { Decides result ((table.now.dest.0 < length net.now.dests) ×
        TableOf net.now table.now.dest.0 (rows_of table.now)) }
{
    let rows = table.rows.as_slice();
    if table.dest.0 as usize >= net.dest_count() || rows.len() != net.node_count() {
        return false;
    }
    for node in 0..rows.len() {
        if !is_row_at(net, table.dest, node, &rows[node]) {
            return false;
        }
    }
    true
}
