// Values, routes and rows of a network as texts. A row is `none`, or a value and the nodes of a path; rows stand in the
// order of destinations and then of nodes, with ` / ` between them. A node is a name, or a number that the network
// needn't have.
use crate::equality::are_same_routes;
use alg_model::{Value, same_value};
use meta_base::{DestId, List, NodeId};
use net_graph::{DestTable, Net, Route, RouteRow};
use std::alloc::Global;
use std::test::Fail;
use testkit_readers::value;

/// What stands for a list of nothing.
pub const NOTHING: &str = "-";

// The number, which the carrier needn't have, or else the value of the algebra that the text spells.
fn value_of(alloc: Global, net: &Net, text: &str) -> Result<Value, Fail> {
    match text.parse() {
        Ok(number) => Ok(Value::Number(number)),
        Err(_) => value(alloc, net.alg(), text),
    }
}

/// Whether the value is the one that the text spells, or is none where the text is `none`.
pub fn is_value(alloc: Global, net: &Net, value: Option<&Value>, text: &str) -> Result<bool, Fail> {
    match value {
        Some(value) if text != "none" => Ok(same_value(value, &value_of(alloc, net, text)?)),
        Some(_) => Ok(false),
        None => Ok(text == "none"),
    }
}

/// The destination of that name, or of that number where there is no such name.
pub fn dest_of(net: &Net, word: &str) -> Result<DestId, Fail> {
    match net.dest_named(word.as_bytes()) {
        Some(dest) => Ok(dest),
        None => Ok(DestId(word.parse()?)),
    }
}

/// The node of that name, or of that number where there is no such name.
pub fn node_of(net: &Net, word: &str) -> Result<NodeId, Fail> {
    match net.node_named(word.as_bytes()) {
        Some(node) => Ok(node),
        None => Ok(NodeId(word.parse()?)),
    }
}

/// The nodes of a path.
pub fn path_of(alloc: Global, net: &Net, words: &str) -> Result<List<NodeId>, Fail> {
    let mut path = List::new(alloc);
    if words == NOTHING {
        return Ok(path);
    }
    for word in words.split_whitespace() {
        path.push(node_of(net, word)?)?;
    }
    Ok(path)
}

/// The route of a row.
pub fn route_of(alloc: Global, net: &Net, row: &str) -> Result<Option<Route>, Fail> {
    if row == "none" {
        return Ok(None);
    }
    let (value, path) = row.split_once(' ').ok_or("no path")?;
    let path = path_of(alloc, net, path)?;
    let value = value_of(alloc, net, value)?;
    Ok(Some(Route { value, path }))
}

/// The table of the first destination with these rows.
pub fn table_of(alloc: Global, net: &Net, rows: &str) -> Result<DestTable, Fail> {
    let dest = DestId(0);
    let mut table = List::new(alloc);
    let mut node = NodeId(0);
    for row in rows.split(" / ") {
        let route = route_of(alloc, net, row)?;
        table.push(RouteRow { node, dest, route })?;
        node = NodeId(node.0.wrapping_add(1));
    }
    Ok(DestTable { dest, rows: table })
}

/// Whether the route is the one of the row.
pub fn is_route(alloc: Global, net: &Net, route: Option<&Route>, row: &str) -> Result<bool, Fail> {
    let expected = route_of(alloc, net, row)?;
    Ok(are_same_routes(route, expected.as_ref()))
}

// Whether the row is the one at that place of all rows.
fn stands_at(row: &RouteRow, net: &Net, place: usize) -> bool {
    let count = net.node_count();
    count > 0 && row.node.0 as usize == place % count && row.dest.0 as usize == place / count
}

/// Whether the rows are all those of the text.
pub fn are_rows(alloc: Global, net: &Net, found: &[RouteRow], rows: &str) -> Result<bool, Fail> {
    let mut place = 0;
    for row in rows.split(" / ") {
        if place >= found.len() {
            return Ok(found.is_empty() && row.is_empty());
        }
        let next = &found[place];
        if !stands_at(next, net, place) || !is_route(alloc, net, next.route.as_ref(), row)? {
            return Ok(false);
        }
        place += 1;
    }
    Ok(place == found.len())
}
