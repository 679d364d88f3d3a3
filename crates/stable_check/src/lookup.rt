// What a network and a table have for a node.
ghost use Rattle.std.specs.Prelude.{◌≡◌, ◌<◌, ◌==◌, length, find, option_map};
ghost use Rattle.alg_model.specs.Views.{pure_label, pure_value};
ghost use Rattle.net_graph.specs.Nets.{label_between, origin_value};
ghost use Rattle.net_graph.specs.Tables.{route_at};
ghost use Rattle.net_graph.specs.Views.{pure_route, rows_of};

use alg_model::{Label, Value};
use meta_base::{DestId, NodeId};
use net_graph::{DestTable, Net, Origin, Route};

// The first of the origins that stands at this node.
fn origin_in<'a>(origins: &'a [Origin], node: NodeId) -> Option<&'a Origin>
    ensures { option_map (λ o. o.now) result ≡ find (λ o. o.node.0 == node.0) origins.now }
{
    origins.iter().find(|origin| origin.node.0 == node.0)
}

// The label of the arc from the tail to the head, if there is one.
pub(crate) fn label_between<'a>(net: &'a Net, tail: NodeId, head: NodeId) -> Option<&'a Label>
    ensures { option_map (λ l. pure_label l.now) result ≡ label_between net.now tail.0 head.0 }
{
    let arc = net.arc_between(tail, head)?;
    Some(net.arc(arc).label)
}

// The value of the node's origin of the destination, if it has one.
pub(crate) fn origin_value<'a>(net: &'a Net, dest: DestId, node: NodeId) -> Option<&'a Value>
    requires { dest.0 < length net.now.dests }
    ensures { option_map (λ v. pure_value v.now) result ≡ origin_value net.now dest.0 node.0 }
{
    let origin = origin_in(net.origins_of(dest), node)?;
    Some(&origin.value)
}

/// The node's route in the table, if it has one.
pub fn route_at<'a>(table: &'a DestTable, node: NodeId) -> Option<&'a Route>
    ensures { option_map (λ r. pure_route r.now) result ≡ route_at (rows_of table.now) node.0 }
{
    let row = table.rows.as_slice().get(node.0 as usize)?;
    row.route.as_ref()
}
