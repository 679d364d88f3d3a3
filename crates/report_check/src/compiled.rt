// A table in an algebra's own form.
ghost use Rattle.std.specs.Prelude.{◌≡◌, ◌<◌, ℕ, length, option_map, IfOk, IfSome};
ghost use Rattle.alg_model.specs.Carriers.{In, carrier_of};
ghost use Rattle.alg_model.specs.Views.{pure_value};
ghost use Rattle.net_graph.specs.Nets.{IsNet, origin_value};
ghost use Rattle.net_graph.specs.Tables.{TableOf, value_at};
ghost use Rattle.net_graph.specs.Views.{pure_row, rows_of};
ghost use Rattle.arc_labels.specs.Neighbours.{AreSpeakerLabels};
ghost use Rattle.report_check.specs.Compiled.{AreSigs, IsCompiled};
ghost use Rattle.stable_check.specs.Checks.{own_at};

use alg_model::{Algebra, Value};
use arc_labels::NeighbourLabels;
use meta_base::{DestId, NoMemory, NodeId};
use net_graph::{DestTable, Net, RouteRow};
use stable_check::OwnValues;
use std::alloc::Global;

// A table of a network, with what an algebra's own form has of it: the labels of the arcs, the values of the rows, and
// those of the nodes' own origins.
#[derive(Drop)]
pub(crate) struct Compiled<'a, A: Algebra> {
    pub algebra: &'a A,
    pub net: &'a Net,
    pub labels: &'a NeighbourLabels<'a, A::Lab>,
    pub table: &'a DestTable,
    pub rows: Vec<Option<A::Sig>>,
    pub own: Vec<Option<A::Sig>>,
}

impl<'a, A: Algebra> Compiled<'a, A> {
    // The table with these labels.
    pub(crate) fn of(
        alloc: Global,
        algebra: &'a A,
        net: &'a Net,
        labels: &'a NeighbourLabels<'a, A::Lab>,
        table: &'a DestTable,
    ) -> Result<Compiled<'a, A>, NoMemory>
        requires algebra { A.expression algebra.now ≡ net.now.alg.expression }
        requires labels { AreSpeakerLabels (A.stands_for algebra.now) net.now labels.now }
        requires dest { table.now.dest.0 < length net.now.dests }
        requires table { TableOf net.now table.now.dest.0 (rows_of table.now) }
        ensures algebra { IfOk result (λ made. made.algebra.now ≡ algebra.now) }
        ensures net { IfOk result (λ made. made.net.now ≡ net.now) }
        ensures table { IfOk result (λ made. made.table.now ≡ table.now) }
        ensures compiled { IfOk result (λ made.
            IsCompiled (A.is_sig algebra.now) (A.sig_value algebra.now) (A.stands_for algebra.now)
            net.now table.now.dest.0 (rows_of table.now) made.labels.now made.rows.items made.own.items) }
    {
        Ok(Compiled {
            algebra,
            net,
            labels,
            table,
            rows: sigs_of_rows(alloc, algebra, table)?,
            own: sigs_of_own(alloc, algebra, net, table.dest)?,
        })
    }
}

// What stands for the node's value, if anything does.
pub(crate) fn sig_at<S>(sigs: &Vec<Option<S>>, node: NodeId) -> Option<&S>
    ensures { option_map (λ s. s.now) result ≡ own_at sigs.now.items node.0 }
{
    sigs.get(node.0 as usize)?.as_ref()
}

// What stands for the value, if there is one.
fn sig_of_value<A: Algebra>(
    alloc: Global,
    algebra: &A,
    value: Option<&Value>,
) -> Result<Option<A::Sig>, NoMemory>
    requires { IfSome (option_map (λ v. pure_value v.now) value) (In (carrier_of (A.expression algebra.now))) }
    ensures sig { IfOk result (λ sig. IfSome sig (A.is_sig algebra.now)) }
    ensures value { IfOk result (λ sig. option_map (A.sig_value algebra.now) sig ≡
        option_map (λ v. pure_value v.now) value.entry) }
{
    match value {
        Some(value) => Ok(Some(algebra.sig_of(alloc, value)?)),
        None => Ok(None),
    }
}

// The value of the row's route, if it has one.
fn value_of_row(row: &RouteRow) -> Option<&Value>
    ensures { option_map (λ v. pure_value v.now) result ≡
        option_map (λ r. r.value) (pure_row row.now).route }
{
    match &row.route {
        Some(route) => Some(&route.value),
        None => None,
    }
}

// What stands for the values of the rows.
fn sigs_of_rows<A: Algebra>(
    alloc: Global,
    algebra: &A,
    table: &DestTable,
) -> Result<Vec<Option<A::Sig>>, NoMemory>
    requires { (k : ℕ) → IfSome (value_at (rows_of table.now) k) (In (carrier_of (A.expression algebra.now))) }
    ensures { IfOk result (λ made.
        AreSigs (A.is_sig algebra.now) (A.sig_value algebra.now) (value_at (rows_of table.now)) made.items) }
{
    let rows = table.rows.as_slice();
    let mut sigs = Vec::with_capacity(alloc, rows.len())?;
    for row in rows {
        sigs.push(sig_of_value(alloc, algebra, value_of_row(row))?)?;
    }
    Ok(sigs)
}

// What stands for the values of the nodes' own origins of the destination.
fn sigs_of_own<A: Algebra>(
    alloc: Global,
    algebra: &A,
    net: &Net,
    dest: DestId,
) -> Result<Vec<Option<A::Sig>>, NoMemory>
    requires algebra { A.expression algebra.now ≡ net.now.alg.expression }
    requires dest { dest.0 < length net.now.dests }
    ensures sigs { IfOk result (λ made.
        AreSigs (A.is_sig algebra.now) (A.sig_value algebra.now) (origin_value net.now dest.0) made.items) }
    ensures net { IsNet net.now }
{
    let count = net.node_count();
    let own = OwnValues::of(alloc, net, dest)?;
    let mut sigs = Vec::with_capacity(alloc, count)?;
    for value in &own.values {
        sigs.push(sig_of_value(alloc, algebra, *value)?)?;
    }
    Ok(sigs)
}
