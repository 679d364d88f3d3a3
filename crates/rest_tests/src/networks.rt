// Drawn networks over drawn tables, and drawn changes of their arcs.
ghost use Rattle.std.specs.Prelude.{◌≡◌, ◌<◌, IfOk};

use crate::draws::Draws;
use crate::tables::Table;
use meta_base::{ArcId, NodeId};
use net_graph::{Change, MAX_ARCS, Net};
use std::alloc::Global;
use std::test::Fail;

const MOST_NODES: usize = 5;

const MOST_DESTS: usize = 2;

// The lines of arcs: from each node to each other, each with a label in six times of ten, and always from the second to
// the first.
fn push_arcs(
    alloc: Global,
    lines: &mut String,
    draws: &mut Draws,
    nodes: usize,
    labels: usize,
) -> Result<(), Fail>
    requires { 0 < labels }
{
    for tail in 0..nodes {
        for head in 0..nodes {
            let is_drawn = draws.happens(6) || (tail == 1 && head == 0);
            let label = draws.below(labels);
            if tail != head && is_drawn {
                lines.push_str(format!(in alloc; "link n{tail} n{head} : l{label}\n")?.as_str())?;
            }
        }
    }
    Ok(())
}

// The lines of the origins of a destination, one or more.
fn push_origins(
    alloc: Global,
    lines: &mut String,
    draws: &mut Draws,
    nodes: usize,
    values: usize,
    dest: usize,
) -> Result<(), Fail>
    requires nodes { 0 < nodes }
    requires values { 0 < values }
{
    let home = draws.below(nodes);
    for node in 0..nodes {
        let is_drawn = draws.happens(3) || node == home;
        let value = draws.below(values);
        if is_drawn {
            lines.push_str(format!(in alloc; "origin x{dest} at n{node} : v{value}\n")?.as_str())?;
        }
    }
    Ok(())
}

// The lines of a network of 2 to 5 nodes over the table, with 1 or 2 destinations.
pub(crate) fn drawn_lines(alloc: Global, draws: &mut Draws, table: &Table) -> Result<String, Fail> {
    let labels = table.labels.len();
    let values = table.ranks.len();
    if labels == 0 || values == 0 {
        return Err("the table is empty".into());
    }
    let mut lines = String::new(alloc);
    let nodes = 2 + draws.below(MOST_NODES - 1);
    for node in 0..nodes {
        lines.push_str(format!(in alloc; "node n{node}\n")?.as_str())?;
    }
    push_arcs(alloc, &mut lines, draws, nodes, labels)?;
    for dest in 0..1 + draws.below(MOST_DESTS) {
        push_origins(alloc, &mut lines, draws, nodes, values, dest)?;
    }
    Ok(lines)
}

// The network with the label of a drawn arc between two drawn nodes.
fn with_drawn_label(alloc: Global, net: &Net, draws: &mut Draws) -> Result<Net, Fail>
    ensures { IfOk result (λ next. next ≡ record net.now { arcs = next.arcs }) }
{
    let arcs = net.arc_count();
    let nodes = net.node_count();
    if arcs == 0 || arcs >= MAX_ARCS || nodes == 0 {
        return Err("there are no arcs, or too many".into());
    }
    let from = net.arc(ArcId(draws.below(arcs) as u32));
    let mut tail = NodeId(draws.below(nodes) as u32);
    let mut head = NodeId(draws.below(nodes) as u32);
    if tail.0 == head.0 {
        tail = from.tail;
        head = from.head;
    }
    let label = from.label.copy(alloc)?;
    Ok(net.changed(alloc, &Change::Link { tail, head, label })?)
}

// The network without a drawn arc.
fn without_drawn_arc(alloc: Global, net: &Net, draws: &mut Draws) -> Result<Net, Fail>
    ensures { IfOk result (λ next. next ≡ record net.now { arcs = next.arcs }) }
{
    let arcs = net.arc_count();
    if arcs == 0 {
        return Err("there are no arcs".into());
    }
    let arc = net.arc(ArcId(draws.below(arcs) as u32));
    let (tail, head) = (arc.tail, arc.head);
    if !net.has_arc(tail, head) {
        return Err("the arc isn't there".into());
    }
    Ok(net.changed(alloc, &Change::Drop { tail, head })?)
}

// The network with an arc more, or another label, and one less, or one of these alone.
pub(crate) fn changed_net(alloc: Global, net: &Net, draws: &mut Draws) -> Result<Net, Fail>
    ensures { IfOk result (λ next. next ≡ record net.now { arcs = next.arcs }) }
{
    match draws.below(3) {
        0 => with_drawn_label(alloc, net, draws),
        1 => without_drawn_arc(alloc, net, draws),
        _ => {
            let more = with_drawn_label(alloc, net, draws)?;
            let less = without_drawn_arc(alloc, &more, draws);
            drop(more);
            less
        }
    }
}
