ghost use Rattle.std.specs.Prelude.{◌≡◌, ◌<◌, ℕ, Some, length, IfOk};
ghost use Rattle.std.specs.Bool.{Decides};
ghost use Rattle.alg_model.specs.Views.{pure_label};
ghost use Rattle.net_graph.specs.Nets.{IsNet, label_between};
ghost use Rattle.net_graph.specs.Tables.{route_at, IsChoice, Stable, TableOf};
ghost use Rattle.net_graph.specs.Views.{rows_of};
ghost use Rattle.stable_check.specs.Checks.{AreOwnValues, IsMade, IsOutdone, MadeBy, OutdoneBy};

use crate::lookup::route_at;
use crate::offers::{arc_offer, makes, outdoes, own_offer};
use crate::own::OwnValues;
use meta_base::{NoMemory, NodeId};
use net_graph::{Arc, DestTable, Net};
use std::alloc::Global;

// Whether what the arc offers outdoes the row of its tail.
fn arc_outdoes(alloc: Global, net: &Net, table: &DestTable, arc: &Arc<'_>) -> Result<bool, NoMemory>
    requires net { IsNet net.now }
    requires table { TableOf net.now table.now.dest.0 (rows_of table.now) }
    requires arc { label_between net.now arc.now.tail.0 arc.now.head.0 ≡ Some (pure_label arc.now.label.now) }
    ensures { let reported = route_at (rows_of table.now) in IfOk result (λ r. Decides r
        (OutdoneBy net.now reported arc.now.tail.0 arc.now.head.0)) }
{
    let offer = arc_offer(alloc, net, table, arc)?;
    Ok(outdoes(net, offer.as_ref(), route_at(table, arc.tail)))
}

// Whether what the arc offers is the route of its tail.
fn arc_makes(alloc: Global, net: &Net, table: &DestTable, arc: &Arc<'_>) -> Result<bool, NoMemory>
    requires net { IsNet net.now }
    requires table { TableOf net.now table.now.dest.0 (rows_of table.now) }
    requires arc { label_between net.now arc.now.tail.0 arc.now.head.0 ≡ Some (pure_label arc.now.label.now) }
    ensures { let reported = route_at (rows_of table.now) in IfOk result (λ r. Decides r
        (MadeBy net.now reported arc.now.tail.0 arc.now.head.0)) }
{
    let offer = arc_offer(alloc, net, table, arc)?;
    Ok(makes(offer.as_ref(), route_at(table, arc.tail)))
}

// Whether what an arc of the node offers outdoes its row.
fn is_outdone_by_arc(
    alloc: Global,
    net: &Net,
    table: &DestTable,
    node: NodeId,
) -> Result<bool, NoMemory>
    requires net { IsNet net.now }
    requires table { TableOf net.now table.now.dest.0 (rows_of table.now) }
    requires node { node.0 < length net.now.nodes }
    ensures { let reported = route_at (rows_of table.now) in IfOk result (λ r. Decides r
        ((j : ℕ) × OutdoneBy net.now reported node.0 j)) }
{
    let arcs = net.out_arcs(node);
    for place in 0..arcs.count() {
        if arc_outdoes(alloc, net, table, &arcs.get(place))? {
            return Ok(true);
        }
    }
    Ok(false)
}

// Whether what an arc of the node offers is its route.
fn is_made_by_arc(
    alloc: Global,
    net: &Net,
    table: &DestTable,
    node: NodeId,
) -> Result<bool, NoMemory>
    requires net { IsNet net.now }
    requires table { TableOf net.now table.now.dest.0 (rows_of table.now) }
    requires node { node.0 < length net.now.nodes }
    ensures { let reported = route_at (rows_of table.now) in IfOk result (λ r. Decides r
        ((j : ℕ) × MadeBy net.now reported node.0 j)) }
{
    let arcs = net.out_arcs(node);
    for place in 0..arcs.count() {
        if arc_makes(alloc, net, table, &arcs.get(place))? {
            return Ok(true);
        }
    }
    Ok(false)
}

// Whether an offer to the node outdoes its row.
fn is_outdone(
    alloc: Global,
    net: &Net,
    table: &DestTable,
    own: &OwnValues<'_>,
    node: NodeId,
) -> Result<bool, NoMemory>
    requires net { IsNet net.now }
    requires table { TableOf net.now table.now.dest.0 (rows_of table.now) }
    requires own { AreOwnValues net.now table.now.dest.0 own.now.values.items }
    requires node { node.0 < length net.now.nodes }
    ensures { IfOk result (λ r. Decides r
        (IsOutdone net.now table.now.dest.0 (route_at (rows_of table.now)) node.0)) }
{
    let offer = own_offer(alloc, own, node)?;
    if outdoes(net, offer.as_ref(), route_at(table, node)) {
        return Ok(true);
    }
    is_outdone_by_arc(alloc, net, table, node)
}

// Whether the node's route, if it has one, is an offer to it.
fn is_made(
    alloc: Global,
    net: &Net,
    table: &DestTable,
    own: &OwnValues<'_>,
    node: NodeId,
) -> Result<bool, NoMemory>
    requires net { IsNet net.now }
    requires table { TableOf net.now table.now.dest.0 (rows_of table.now) }
    requires own { AreOwnValues net.now table.now.dest.0 own.now.values.items }
    requires node { node.0 < length net.now.nodes }
    ensures { IfOk result (λ r. Decides r
        (IsMade net.now table.now.dest.0 (route_at (rows_of table.now)) node.0)) }
{
    let Some(route) = route_at(table, node) else {
        return Ok(true);
    };
    let offer = own_offer(alloc, own, node)?;
    if makes(offer.as_ref(), Some(route)) {
        return Ok(true);
    }
    is_made_by_arc(alloc, net, table, node)
}

// Whether the node's row is its choice from what the table tells.
fn is_choice(
    alloc: Global,
    net: &Net,
    table: &DestTable,
    own: &OwnValues<'_>,
    node: NodeId,
) -> Result<bool, NoMemory>
    requires net { IsNet net.now }
    requires table { TableOf net.now table.now.dest.0 (rows_of table.now) }
    requires own { AreOwnValues net.now table.now.dest.0 own.now.values.items }
    requires node { node.0 < length net.now.nodes }
    ensures { let reported = route_at (rows_of table.now) in IfOk result (λ r. Decides r
        (IsChoice net.now table.now.dest.0 reported node.0 (reported node.0))) }
{
    if is_outdone(alloc, net, table, own, node)? {
        return Ok(false);
    }
    is_made(alloc, net, table, own, node)
}

/// For whoever judges a given table; the program makes its own. Whether the table is stable: each row is the best of
/// what the node's own origin and its arcs offer it from the other rows, by value and then by path, or none where
/// nothing is offered (Sobrinho 2005).
///
/// The table is one of the network's: its destination is the network's, and its rows are those of the nodes, in
/// order. The check looks at each arc and origin once or twice, and is refused for want of memory alone.
pub fn is_stable(alloc: Global, net: &Net, table: &DestTable) -> Result<bool, NoMemory>
    requires dest { table.now.dest.0 < length net.now.dests }
    requires table { TableOf net.now table.now.dest.0 (rows_of table.now) }
    ensures { IfOk result (λ r. Decides r (Stable net.now table.now.dest.0 (rows_of table.now))) }
{
    let own = OwnValues::of(alloc, net, table.dest)?;
    for node in 0..net.node_count() {
        if !is_choice(alloc, net, table, &own, NodeId(node as u32))? {
            return Ok(false);
        }
    }
    Ok(true)
}
