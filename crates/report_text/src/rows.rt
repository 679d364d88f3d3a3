// The lines of rows.
ghost use Rattle.std.specs.Prelude.{◌≡◌, map, ◌<◌, length, option_map, OnOk, IfOk, IfSome};
ghost use Rattle.meta_base.specs.Appending.{Gains};
ghost use Rattle.net_graph.specs.Views.{pure_route, pure_row};
ghost use Rattle.net_graph.specs.RowTexts.{AreNodesOf, IsRouteIn, IsRowOf, node_text, dest_text, path_text, route_text, row_text};

use meta_base::{DestId, NoMemory, NodeId, Text};
use net_graph::{Net, Route, RouteRow};
use sig_text::push_value;
use std::alloc::Global;

pub(crate) fn push_node(out: &mut String, net: &Net, node: NodeId) -> Result<(), NoMemory>
    requires { node.0 < length net.now.nodes }
    ensures { OnOk result (Gains out.old (node_text net.now node.0) out.new) }
{
    Ok(out.push_str(net.node_text(node))?)
}

pub(crate) fn push_dest(out: &mut String, net: &Net, dest: DestId) -> Result<(), NoMemory>
    requires { dest.0 < length net.now.dests }
    ensures { OnOk result (Gains out.old (dest_text net.now dest.0) out.new) }
{
    Ok(out.push_str(net.dest_text(dest))?)
}

// The names of the nodes of a path, each after a space.
pub(crate) fn push_path(out: &mut String, net: &Net, path: &[NodeId]) -> Result<(), NoMemory>
    requires { AreNodesOf net.now (map (λ node. node.0) path.now) }
    ensures { OnOk result (Gains out.old (path_text net.now (map (λ node. node.0) path.now)) out.new) }
{
    match path {
        [] => Ok(()),
        [node, rest @ ..] => {
            out.push(' ')?;
            push_node(out, net, *node)?;
            push_path(out, net, rest)
        }
    }
}

// The value and the path of a route, or the word none.
pub(crate) fn push_route(out: &mut String, net: &Net, route: Option<&Route>) -> Result<(), NoMemory>
    requires { IfSome (option_map (λ r. pure_route r.now) route) (IsRouteIn net.now) }
    ensures { OnOk result (Gains out.old
        (route_text net.now (option_map (λ r. pure_route r.now) route.entry)) out.new) }
{
    match route {
        None => Ok(out.push_str("none")?),
        Some(route) => {
            push_value(out, net.alg(), &route.value)?;
            push_path(out, net, route.path.as_slice())
        }
    }
}

/// For lines in a text; the program writes rows by row_lines::RowLines. Appends the line of a row of a network: the
/// node, the destination, and the value and the path of the route, or `none`. It is refused for want of memory alone;
/// what the text holds then isn't said.
pub fn push_row_line(out: &mut String, net: &Net, row: &RouteRow) -> Result<(), NoMemory>
    requires { IsRowOf net.now (pure_row row.now) }
    ensures { OnOk result (Gains out.old (row_text net.now (pure_row row.now)) out.new) }
{
    push_node(out, net, row.node)?;
    out.push(' ')?;
    push_dest(out, net, row.dest)?;
    out.push(' ')?;
    push_route(out, net, row.route.as_ref())?;
    Ok(out.push('\n')?)
}

// As many bytes as most rows have, so that few lines grow.
const USUAL_ROW: usize = 256;

/// For a line alone; the program writes rows by row_lines::RowLines. The line of a row alone, as [`push_row_line`]
/// appends it. It is refused for want of memory alone.
pub fn row_line(alloc: Global, net: &Net, row: &RouteRow) -> Result<Text, NoMemory>
    requires { IsRowOf net.now (pure_row row.now) }
    ensures { IfOk result (λ text. text ≡ row_text net.now (pure_row row.now)) }
{
    let mut out = String::with_capacity(alloc, USUAL_ROW)?;
    push_row_line(&mut out, net, row)?;
    Ok(Text::from_string(out))
}
