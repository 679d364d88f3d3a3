ghost use Rattle.std.specs.Prelude.{◌≡◌, ◌<◌, Some, length, option_map, IfOk, IfSome};
ghost use Rattle.std.specs.Bool.{Decides};
ghost use Rattle.meta_base.specs.NodePaths.{numbers};
ghost use Rattle.alg_model.specs.Carriers.{In, IsPreferred};
ghost use Rattle.alg_model.specs.Views.{pure_label, pure_value};
ghost use Rattle.net_graph.specs.Nets.{IsNet, label_between};
ghost use Rattle.net_graph.specs.Tables.{carrier, route_at, Relaxed, TableOf};
ghost use Rattle.net_graph.specs.Views.{pure_route, rows_of};
ghost use Rattle.stable_check.specs.Checks.{begins_with, AreOwnValues, ImprovedBy, IsImproved, IsRelaxedAt, IsWalkOf};

use crate::lookup::route_at;
use crate::offers::arc_value;
use crate::own::OwnValues;
use crate::table::are_nodes_of;
use crate::weight::carry;
use alg_model::{Value, order, same_value};
use meta_base::{NoMemory, NodeId};
use net_graph::{Arc, DestTable, Net, Route};
use std::alloc::Global;
use std::cmp::Ordering;

// Whether the path begins with the node.
fn begins_with(path: &[NodeId], node: NodeId) -> bool
    ensures { result ≡ begins_with (numbers path.now) node.0 }
{
    match path {
        [first, ..] => first.0 == node.0,
        [] => false,
    }
}

// Whether there is a value, and it is this one.
fn weighs(weight: Option<&Value>, value: &Value) -> bool
    ensures { Decides result (option_map (λ v. pure_value v.now) weight.entry ≡ Some (pure_value value.now)) }
{
    match weight {
        Some(weight) => same_value(weight, value),
        None => false,
    }
}

/// Whether the path of the node's route, if it has one, is a walk from the node that weighs the route's value. It is
/// refused for want of memory alone.
pub fn has_walk(
    alloc: Global,
    net: &Net,
    table: &DestTable,
    own: &OwnValues<'_>,
    node: NodeId,
) -> Result<bool, NoMemory>
    requires net { IsNet net.now }
    requires table { TableOf net.now table.now.dest.0 (rows_of table.now) }
    requires own { AreOwnValues net.now table.now.dest.0 own.now.values.items }
    ensures { IfOk result (λ r. Decides r (IfSome (route_at (rows_of table.now) node.0)
        (IsWalkOf net.now table.now.dest.0 node.0))) }
{
    let Some(route) = route_at(table, node) else {
        return Ok(true);
    };
    let path = route.path.as_slice();
    if !begins_with(path, node) {
        return Ok(false);
    }
    if !are_nodes_of(net, path) {
        return Ok(false);
    }
    let last = path[path.len() - 1];
    let weight = carry(alloc, net, path, own.at(last))?;
    Ok(weighs(weight.as_ref(), &route.value))
}

/// Whether the value is preferred to that of the row; none is preferred to nothing, and a value to none. It takes no
/// memory.
pub fn is_preferred(net: &Net, value: Option<&Value>, row: Option<&Route>) -> bool
    requires value { IfSome (option_map (λ v. pure_value v.now) value) (In (carrier net.now)) }
    requires row { IfSome (option_map (λ r. pure_route r.now) row) (λ r. In (carrier net.now) r.value) }
    ensures { Decides result (IsPreferred (carrier net.now)
        (option_map (λ v. pure_value v.now) value.entry)
        (option_map (λ r. r.value) (option_map (λ r. pure_route r.now) row.entry))) }
{
    match (value, row) {
        (Some(value), Some(route)) => order(net.alg(), value, &route.value) == Ordering::Less,
        (Some(_), None) => true,
        (None, _) => false,
    }
}

// Whether the arc makes of its head's value one that is preferred to its tail's.
fn arc_improves(
    alloc: Global,
    net: &Net,
    table: &DestTable,
    arc: &Arc<'_>,
) -> Result<bool, NoMemory>
    requires net { IsNet net.now }
    requires table { TableOf net.now table.now.dest.0 (rows_of table.now) }
    requires arc { label_between net.now arc.now.tail.0 arc.now.head.0 ≡ Some (pure_label arc.now.label.now) }
    ensures { IfOk result (λ r. Decides r (ImprovedBy net.now (rows_of table.now) arc.now.tail.0 arc.now.head.0)) }
{
    let value = arc_value(alloc, net, table, arc)?;
    Ok(is_preferred(net, value.as_ref(), route_at(table, arc.tail)))
}

// Whether an arc of the node makes a value that is preferred to its row's.
fn is_improved(alloc: Global, net: &Net, table: &DestTable, node: NodeId) -> Result<bool, NoMemory>
    requires net { IsNet net.now }
    requires table { TableOf net.now table.now.dest.0 (rows_of table.now) }
    requires node { node.0 < length net.now.nodes }
    ensures { IfOk result (λ r. Decides r (IsImproved net.now (rows_of table.now) node.0)) }
{
    let arcs = net.out_arcs(node);
    for place in 0..arcs.count() {
        if arc_improves(alloc, net, table, &arcs.get(place))? {
            return Ok(true);
        }
    }
    Ok(false)
}

// Whether the node's row is what it is in a relaxed table.
fn is_relaxed_at(
    alloc: Global,
    net: &Net,
    table: &DestTable,
    own: &OwnValues<'_>,
    node: NodeId,
) -> Result<bool, NoMemory>
    requires net { IsNet net.now }
    requires table { TableOf net.now table.now.dest.0 (rows_of table.now) }
    requires own { AreOwnValues net.now table.now.dest.0 own.now.values.items }
    requires node { node.0 < length net.now.nodes }
    ensures { IfOk result (λ r. Decides r (IsRelaxedAt net.now table.now.dest.0 (rows_of table.now) node.0)) }
{
    if !has_walk(alloc, net, table, own, node)? {
        return Ok(false);
    }
    if is_preferred(net, own.at(node), route_at(table, node)) {
        return Ok(false);
    }
    Ok(!is_improved(alloc, net, table, node)?)
}

/// For whoever judges a given table; the program makes its own. Whether the table is relaxed: each route's path is a
/// walk from its node that weighs the route's value, and neither an origin nor an arc gives a node a value that is
/// preferred to that of its row. Where all labels are isotone, these are the tables that no walk beats
/// ([`crate::relaxed_is_optimal`]).
///
/// The table is one of the network's: its destination is the network's, and its rows are those of the nodes, in
/// order. It is refused for want of memory alone.
pub fn is_relaxed(alloc: Global, net: &Net, table: &DestTable) -> Result<bool, NoMemory>
    requires dest { table.now.dest.0 < length net.now.dests }
    requires table { TableOf net.now table.now.dest.0 (rows_of table.now) }
    ensures { IfOk result (λ r. Decides r (Relaxed net.now table.now.dest.0 (rows_of table.now))) }
{
    let own = OwnValues::of(alloc, net, table.dest)?;
    for node in 0..net.node_count() {
        if !is_relaxed_at(alloc, net, table, &own, NodeId(node as u32))? {
            return Ok(false);
        }
    }
    Ok(true)
}
