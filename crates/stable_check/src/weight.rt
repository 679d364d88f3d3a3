ghost use Rattle.std.specs.Prelude.{◌≡◌, ◌<◌, ◌≤◌, None, length, option_map, IfOk, IfSome};
ghost use Rattle.meta_base.specs.NodePaths.{numbers};
ghost use Rattle.alg_model.specs.Views.{pure_value};
ghost use Rattle.net_graph.specs.Nets.{IsNet};
ghost use Rattle.net_graph.specs.RowTexts.{AreNodesOf};
ghost use Rattle.net_graph.specs.Walks.{Walk, Weight, along};
ghost use Rattle.stable_check.specs.declared.weight.TheConstants.{MAX_WALK_NODES};
ghost use Rattle.stable_check.specs.Checks.{carried, IsSmall};
ghost use Rattle.stable_check.specs.Numbers.{max_walk_nodes};

use crate::lookup::{label_between, origin_value};
use crate::table::are_nodes_of;
use alg_model::{Value, apply};
use meta_base::{DestId, NoMemory, NodeId};
use net_graph::Net;
use std::alloc::Global;

/// How many nodes a walk may have whose weight is asked for: so many labels may be applied to a value of a
/// network one after the other.
pub const MAX_WALK_NODES: usize = 1 << 29;

/// The bound of walks is the number of the specification.
pub fn numbers_are_specified()
    ensures { MAX_WALK_NODES ≡ max_walk_nodes }
{}

// What the arc from the tail to the head makes of the value; none where there is no arc or no value.
fn along(
    alloc: Global,
    net: &Net,
    tail: NodeId,
    head: NodeId,
    value: Option<&Value>,
) -> Result<Option<Value>, NoMemory>
    requires net { IsNet net.now }
    requires tail { tail.0 < length net.now.nodes }
    requires value { IfSome (option_map (λ v. pure_value v.now) value) (IsSmall net.now MAX_WALK_NODES) }
    ensures { IfOk result (λ image. option_map pure_value image ≡
        along net.now tail.0 head.0 (option_map (λ v. pure_value v.now) value.entry)) }
{
    let Some(value) = value else {
        return Ok(None);
    };
    let Some(label) = label_between(net, tail, head) else {
        return Ok(None);
    };
    apply(alloc, net.alg(), label, value)
}

// An equal value, if there is one.
fn copy_of(alloc: Global, value: Option<&Value>) -> Result<Option<Value>, NoMemory>
    ensures { IfOk result (λ copied. option_map pure_value copied ≡ option_map (λ v. pure_value v.now) value.entry) }
{
    match value {
        Some(value) => Ok(Some(value.copy(alloc)?)),
        None => Ok(None),
    }
}

// What the arcs along the nodes make of the last node's value, from the last arc to the first.
pub(crate) fn carry(
    alloc: Global,
    net: &Net,
    nodes: &[NodeId],
    value: Option<&Value>,
) -> Result<Option<Value>, NoMemory>
    requires net { IsNet net.now }
    requires nodes { AreNodesOf net.now (numbers nodes.now) }
    requires some { 0 < length nodes.now }
    requires few { length nodes.now ≤ MAX_WALK_NODES }
    requires value { IfSome (option_map (λ v. pure_value v.now) value) (IsSmall net.now 1) }
    ensures { IfOk result (λ carried_value. option_map pure_value carried_value ≡
        carried net.now (numbers nodes.now) (option_map (λ v. pure_value v.now) value.entry)) }
{
    let mut weight = copy_of(alloc, value)?;
    let mut at = nodes.len() - 1;
    while at > 0 {
        let head = nodes[at];
        at -= 1;
        weight = along(alloc, net, nodes[at], head, weight.as_ref())?;
    }
    Ok(weight)
}

/// For whoever judges a given table; the program makes its own. What the walk weighs for the destination: the value of
/// the last node's origin, changed by the labels of the arcs from the last to the first, or `None` where a label
/// prohibits it or the list isn't a walk (Griffin and Sobrinho 2005), as where it has nodes that aren't the network's.
///
/// The destination is the network's, and there are at most [`MAX_WALK_NODES`] nodes. It is refused for want of
/// memory alone.
pub fn weight_of(
    alloc: Global,
    net: &Net,
    dest: DestId,
    walk: &[NodeId],
) -> Result<Option<Value>, NoMemory>
    requires dest { dest.0 < length net.now.dests }
    requires few { length walk.now ≤ MAX_WALK_NODES }
    ensures weight { IfOk result (λ weight. option_map pure_value weight ≡ Weight net.now dest.0 (numbers walk.now)) }
    ensures no_walk { ¬ Walk net.now dest.0 (numbers walk.now) → IfOk result (λ weight. weight ≡ None) }
{
    // To count the nodes is to know that the network meets its rules.
    let _count = net.node_count();
    if walk.is_empty() || !are_nodes_of(net, walk) {
        return Ok(None);
    }
    let last = walk[walk.len() - 1];
    carry(alloc, net, walk, origin_value(net, dest, last))
}
