ghost use Rattle.std.specs.Prelude.{◌≡◌, ◌<◌, length, map, option_map, IfOk, IfSome};
ghost use Rattle.alg_model.specs.Carriers.{carrier_of};
ghost use Rattle.alg_model.specs.Views.{pure_value};
ghost use Rattle.meta_base.specs.NodePaths.{numbers};
ghost use Rattle.net_graph.specs.Tables.{TableOf, carrier, value_at};
ghost use Rattle.net_graph.specs.Views.{pure_route, rows_of};
ghost use Rattle.net_graph.specs.Walks.{along};
ghost use Rattle.arc_labels.specs.Neighbours.{AreSpeakerLabels};
ghost use Rattle.report_check.specs.Compiled.{IsCompiled, IsHopFrom};
ghost use Rattle.report_check.specs.Hops.{are_equivalent, heads_at, hops_at, hops_of};
ghost use Rattle.report_check.specs.Views.{pure_hops};
ghost use Rattle.stable_check.specs.Checks.{own_at};

use crate::compiled::{Compiled, sig_at};
use crate::look::image_along;
use alg_model::{Algebra, Value};
use arc_labels::{Neighbour, NeighbourLabels};
use meta_base::{DestId, List, NoMemory, NodeId};
use net_graph::{DestTable, Net, Route};
use stable_check::route_at;
use std::alloc::Global;
use std::cmp::Ordering;

/// A row's value, with all next hops that are as good as its own.
#[derive(Debug, Drop)]
pub struct ManyHops {
    pub node: NodeId,
    pub dest: DestId,
    /// The value of the row, or none.
    pub value: Option<Value>,
    /// The node has an origin of the destination whose value is equivalent to the row's.
    pub here: bool,
    /// The heads of the node's arcs, in file order, whose label makes of the head's row a value equivalent to this
    /// row's.
    pub heads: List<NodeId>,
}

/// For each row of the table, in order, its value and all next hops that are equally good. A row without a route has
/// none. The algebra is the network's, and the labels are its arcs', made once for all tables. Each arc's label is
/// applied once, and it is refused for want of memory alone.
pub fn best_hops<A: Algebra>(
    alloc: Global,
    algebra: &A,
    net: &Net,
    labels: &NeighbourLabels<'_, A::Lab>,
    table: &DestTable,
) -> Result<List<ManyHops>, NoMemory>
    requires algebra { A.expression algebra.now ≡ net.now.alg.expression }
    requires labels { AreSpeakerLabels (A.stands_for algebra.now) net.now labels.now }
    requires dest { table.now.dest.0 < length net.now.dests }
    requires table { TableOf net.now table.now.dest.0 (rows_of table.now) }
    ensures { IfOk result (λ many. map pure_hops many ≡ hops_of net.now table.now.dest.0 (rows_of table.now)) }
{
    let form = Compiled::of(alloc, algebra, net, labels, table)?;
    let mut spare = None;
    let mut many = Vec::with_capacity(alloc, net.node_count())?;
    for node in 0..net.node_count() {
        many.push(hops_at(alloc, &form, NodeId(node as u32), &mut spare)?)?;
    }
    Ok(List::from_vec(many))
}

// The value of the node's row, with its equally good next hops.
fn hops_at<A: Algebra>(
    alloc: Global,
    form: &Compiled<'_, A>,
    node: NodeId,
    spare: &mut Option<A::Sig>,
) -> Result<ManyHops, NoMemory>
    requires algebra { A.expression form.now.algebra.now ≡ form.now.net.now.alg.expression }
    requires compiled { let a = form.now.algebra.now in IsCompiled (A.is_sig a) (A.sig_value a) (A.stands_for a)
        form.now.net.now form.now.table.now.dest.0 (rows_of form.now.table.now)
        form.now.labels.now form.now.rows.items form.now.own.items }
    requires node { node.0 < length form.now.net.now.nodes }
    ensures { IfOk result (λ hops. pure_hops hops ≡
        hops_at form.now.net.now form.now.table.now.dest.0 (rows_of form.now.table.now) node.0) }
{
    let row = sig_at(&form.rows, node);
    Ok(ManyHops {
        node,
        dest: form.table.dest,
        value: value_of(alloc, route_at(form.table, node))?,
        here: is_as_good(form.algebra, sig_at(&form.own, node), row),
        heads: heads_at(alloc, form, node, spare)?,
    })
}

// A copy of the route's value, if there is one.
fn value_of(alloc: Global, route: Option<&Route>) -> Result<Option<Value>, NoMemory>
    ensures { IfOk result (λ value. option_map pure_value value ≡
        option_map (λ r. r.value) (option_map (λ r. pure_route r.now) route.entry)) }
{
    match route {
        Some(route) => Ok(Some(route.value.copy(alloc)?)),
        None => Ok(None),
    }
}

// Whether both are there, and neither is preferred to the other.
fn is_as_good<A: Algebra>(algebra: &A, value: Option<&A::Sig>, row: Option<&A::Sig>) -> bool
    requires value { IfSome (option_map (λ s. s.now) value) (A.is_sig algebra.now) }
    requires row { IfSome (option_map (λ s. s.now) row) (A.is_sig algebra.now) }
    ensures { result ≡ are_equivalent (carrier_of (A.expression algebra.now))
        (option_map (λ s. A.sig_value algebra.now s.now) value.entry)
        (option_map (λ s. A.sig_value algebra.now s.now) row.entry) }
{
    match (value, row) {
        (Some(value), Some(row)) => algebra.order(value, row) == Ordering::Equal,
        _ => false,
    }
}

// The heads of the node's arcs that are as good as its row.
fn heads_at<A: Algebra>(
    alloc: Global,
    form: &Compiled<'_, A>,
    node: NodeId,
    spare: &mut Option<A::Sig>,
) -> Result<List<NodeId>, NoMemory>
    requires algebra { A.expression form.now.algebra.now ≡ form.now.net.now.alg.expression }
    requires compiled { let a = form.now.algebra.now in IsCompiled (A.is_sig a) (A.sig_value a) (A.stands_for a)
        form.now.net.now form.now.table.now.dest.0 (rows_of form.now.table.now)
        form.now.labels.now form.now.rows.items form.now.own.items }
    requires node { node.0 < length form.now.net.now.nodes }
    ensures { IfOk result (λ heads. numbers heads ≡
        heads_at form.now.net.now (rows_of form.now.table.now) node.0) }
{
    let row = sig_at(&form.rows, node);
    let hops = form.labels.of(node);
    let mut heads = Vec::with_capacity(alloc, hops.len())?;
    for hop in hops {
        if is_hop(alloc, form, node, row, hop, spare)? {
            heads.push(hop.node)?;
        }
    }
    Ok(List::from_vec(heads))
}

// Whether what the arc to the hop makes of its head's row is as good as the node's row, for whose value the one handed in
// stands.
fn is_hop<A: Algebra>(
    alloc: Global,
    form: &Compiled<'_, A>,
    node: NodeId,
    row: Option<&A::Sig>,
    hop: &Neighbour<'_, A::Lab>,
    spare: &mut Option<A::Sig>,
) -> Result<bool, NoMemory>
    requires algebra { A.expression form.now.algebra.now ≡ form.now.net.now.alg.expression }
    requires compiled { let a = form.now.algebra.now in IsCompiled (A.is_sig a) (A.sig_value a) (A.stands_for a)
        form.now.net.now form.now.table.now.dest.0 (rows_of form.now.table.now)
        form.now.labels.now form.now.rows.items form.now.own.items }
    requires row { option_map (λ s. s.now) row ≡ own_at form.now.rows.items node.0 }
    requires hop { IsHopFrom (A.stands_for form.now.algebra.now) form.now.net.now node.0 hop.now }
    ensures { IfOk result (λ r. r ≡ are_equivalent (carrier form.now.net.now) (along form.now.net.now node.0
        hop.now.node.0 (value_at (rows_of form.now.table.now) hop.now.node.0))
        (value_at (rows_of form.now.table.now) node.0)) }
{
    if !image_along(alloc, form, hop, spare)? {
        return Ok(false);
    }
    Ok(is_as_good(form.algebra, spare.as_ref(), row))
}
