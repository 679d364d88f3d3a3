// What origins and arcs offer to nodes, and how offers compare with rows.
ghost use Rattle.std.specs.Prelude.{◌≡◌, ◌==◌, ◌∷◌, ℕ, Some, option_map, IfOk, IfSome};
ghost use Rattle.std.specs.Bool.{Decides};
ghost use Rattle.std.specs.List.{list_any};
ghost use Rattle.alg_model.specs.Carriers.{In};
ghost use Rattle.alg_model.specs.Views.{pure_label, pure_value};
ghost use Rattle.net_graph.specs.Nets.{PureNet, IsNet, label_between};
ghost use Rattle.net_graph.specs.Routes.{compare_routes};
ghost use Rattle.net_graph.specs.Tables.{carrier, is_among, route_at, value_at, TableOf};
ghost use Rattle.net_graph.specs.Walks.{along};
ghost use Rattle.net_graph.specs.Views.{pure_route, rows_of};
ghost use Rattle.stable_check.specs.Checks.{offer_by, own_offer, AreOwnValues, Makes, Outdoes};

use crate::equality::is_same_route;
use crate::lookup::route_at;
use crate::own::OwnValues;
use alg_model::{Value, apply, order};
use meta_base::{List, NoMemory, NodeId};
use net_graph::{Arc, DestTable, Net, Route};
use path_store::compare;
use std::alloc::Global;
use std::cmp::Ordering;

/// The path of the node and the nodes after it. It is refused for want of memory alone.
pub fn path_from(alloc: Global, node: NodeId, after: &[NodeId]) -> Result<List<NodeId>, NoMemory>
    ensures { IfOk result (λ path. path ≡ node ∷ after.now) }
{
    let mut path = Vec::with_capacity(alloc, after.len().saturating_add(1))?;
    path.push(node)?;
    path.extend_from_slice(after)?;
    Ok(List::from_vec(path))
}

// Whether one of the nodes has this number.
fn has_node(nodes: &[NodeId], number: u32) -> bool
    ensures { result ≡ list_any (λ n. n.0 == number) nodes.now }
{
    nodes.iter().any(|node| node.0 == number)
}

/// Whether the route's path passes the node. It takes no memory.
pub fn passes(route: &Route, node: NodeId) -> bool
    ensures { result ≡ is_among (pure_route route.now).path node.0 }
{
    has_node(route.path.as_slice(), node.0)
}

/// What the node's own origin offers, if it has one. It is refused for want of memory alone.
pub fn own_offer(
    alloc: Global,
    own: &OwnValues<'_>,
    node: NodeId,
) -> Result<Option<Route>, NoMemory>
    ensures { (net : PureNet) (dest : ℕ) → AreOwnValues net dest own.now.values.items →
        IfOk result (λ offer. option_map pure_route offer ≡ own_offer net dest node.0) }
{
    let Some(value) = own.at(node) else {
        return Ok(None);
    };
    Ok(Some(Route {
        value: value.copy(alloc)?,
        path: path_from(alloc, node, &[])?,
    }))
}

/// What the arc makes of the value of its head's row: none where that has none, or the label prohibits it. It is
/// refused for want of memory alone.
pub fn arc_value(
    alloc: Global,
    net: &Net,
    table: &DestTable,
    arc: &Arc<'_>,
) -> Result<Option<Value>, NoMemory>
    requires net { IsNet net.now }
    requires table { TableOf net.now table.now.dest.0 (rows_of table.now) }
    requires arc { label_between net.now arc.now.tail.0 arc.now.head.0 ≡ Some (pure_label arc.now.label.now) }
    ensures value { IfOk result (λ value. option_map pure_value value ≡
        along net.now arc.now.tail.0 arc.now.head.0 (value_at (rows_of table.now) arc.now.head.0)) }
    ensures value_in { IfOk result (λ value. IfSome (option_map pure_value value) (In (carrier net.now))) }
{
    let Some(next) = route_at(table, arc.head) else {
        return Ok(None);
    };
    apply(alloc, net.alg(), arc.label, &next.value)
}

// What the arc offers of its head's route, if anything: a value, and a path that doesn't pass the tail twice.
pub(crate) fn arc_offer(
    alloc: Global,
    net: &Net,
    table: &DestTable,
    arc: &Arc<'_>,
) -> Result<Option<Route>, NoMemory>
    requires net { IsNet net.now }
    requires table { TableOf net.now table.now.dest.0 (rows_of table.now) }
    requires arc { label_between net.now arc.now.tail.0 arc.now.head.0 ≡ Some (pure_label arc.now.label.now) }
    ensures { IfOk result (λ offer. option_map pure_route offer ≡
        offer_by net.now (route_at (rows_of table.now)) arc.now.tail.0 arc.now.head.0) }
{
    let Some(next) = route_at(table, arc.head) else {
        return Ok(None);
    };
    if passes(next, arc.tail) {
        return Ok(None);
    }
    let Some(value) = arc_value(alloc, net, table, arc)? else {
        return Ok(None);
    };
    let path = path_from(alloc, arc.tail, next.path.as_slice())?;
    Ok(Some(Route { value, path }))
}

// Which of two routes is better.
fn compare_routes(net: &Net, r: &Route, s: &Route) -> Ordering
    requires first { In (carrier net.now) (pure_value r.now.value) }
    requires second { In (carrier net.now) (pure_value s.now.value) }
    ensures { result ≡ compare_routes (carrier net.now) (pure_route r.now) (pure_route s.now) }
{
    order(net.alg(), &r.value, &s.value).then(compare(r.path.as_slice(), s.path.as_slice()))
}

/// Whether there is an offer, and it is better than the row's route, if that has one. It takes no memory.
pub fn outdoes(net: &Net, offer: Option<&Route>, row: Option<&Route>) -> bool
    requires offer { IfSome (option_map (λ s. pure_route s.now) offer) (λ s. In (carrier net.now) s.value) }
    requires row { IfSome (option_map (λ r. pure_route r.now) row) (λ r. In (carrier net.now) r.value) }
    ensures { Decides result (Outdoes (carrier net.now)
        (option_map (λ s. pure_route s.now) offer.entry) (option_map (λ r. pure_route r.now) row.entry)) }
{
    match (offer, row) {
        (Some(offer), Some(route)) => compare_routes(net, offer, route) == Ordering::Less,
        (Some(_), None) => true,
        (None, _) => false,
    }
}

/// Whether the row has a route, and the offer is that. It takes no memory.
pub fn makes(offer: Option<&Route>, row: Option<&Route>) -> bool
    ensures { Decides result (Makes
        (option_map (λ s. pure_route s.now) offer.entry) (option_map (λ r. pure_route r.now) row.entry)) }
{
    match (offer, row) {
        (Some(offer), Some(route)) => is_same_route(offer, route),
        _ => false,
    }
}
