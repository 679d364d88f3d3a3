ghost use Rattle.std.specs.Prelude.{◌≡◌, ◌+◌, ◌<◌, ◌≤◌, length, IfOk, IfSome, OnOk, option_map};
ghost use Rattle.net_graph.specs.Nets.{CanBeNumbered};
ghost use Rattle.net_graph.specs.Tables.{BestFirst};
ghost use Rattle.net_graph.specs.Views.{rows_of, pure_row};
ghost use Rattle.best_first.specs.Found.{row_from, rows_from};
ghost use Rattle.best_first.specs.Fixed.{fixed_route, fixed_routes, AreFixedBy, AreFixedFrom, IsFixedOf};
ghost use Rattle.best_first.specs.Numbered.{lent_fixed};
ghost use Rattle.best_first.specs.Queue.{IsClear};
ghost use Rattle.arc_labels.specs.Neighbours.{AreListenerLabels};

use crate::fixed::{Fixed, FixedRoute};
use crate::open::Open;
use crate::search::{fix_next, offer_own, relax};
use alg_model::Algebra;
use arc_labels::{NeighbourLabels, label_forms, listener_labels};
use meta_base::{DestId, List, NoMemory, NodeId};
use net_graph::{DestTable, Net, Route, RouteRow};
use path_store::Trails;
use std::alloc::Global;
use std::marker::Brand;
use std::sync::ledger::{Blank, Ledger};

// The row of a node.
fn row_of<A: Algebra>(
    alloc: Global,
    algebra: &A,
    paths: &Trails,
    node: NodeId,
    dest: DestId,
    fixed: Option<FixedRoute<'_, A::Sig>>,
) -> Result<RouteRow, NoMemory>
    requires sig { IfSome fixed (λ f. A.is_sig algebra.now f.sig.now) }
    requires id { IfSome fixed (λ f. f.path.0 < length paths.now) }
    ensures { IfOk result (λ row. pure_row row ≡ row_from node.0 dest.0
        (option_map (fixed_route (A.sig_value algebra.now) paths.now) (option_map lent_fixed fixed.entry))) }
{
    let route = match fixed {
        Some(fixed) => Some(Route {
            value: algebra.value_of(alloc, fixed.sig)?,
            path: paths.path(fixed.path).to_list(alloc)?,
        }),
        None => None,
    };
    Ok(RouteRow { node, dest, route })
}

/// The table of the destination whose rows are these routes, which may come from [`fixed_between`]: the values are those
/// of the algebra, and each path is copied out of the store. It is refused for want of memory alone.
pub fn table_of_fixed<A: Algebra>(
    alloc: Global,
    algebra: &A,
    dest: DestId,
    fixed: Fixed<A::Sig>,
) -> Result<DestTable, NoMemory>
    requires fixed { AreFixedBy (A.is_sig algebra.now) fixed.rows fixed.paths }
    requires few { CanBeNumbered (length fixed.rows) }
    ensures rows { IfOk result (λ table. rows_of table ≡
        rows_from dest.0 0 (fixed_routes (A.sig_value algebra.now) fixed.paths fixed.rows)) }
    ensures dest { IfOk result (λ table. table.dest ≡ dest) }
{
    let mut table = Vec::with_capacity(alloc, fixed.node_count())?;
    for node in 0..fixed.node_count() {
        let node = NodeId(node as u32);
        let row = row_of(alloc, algebra, fixed.paths(), node, dest, fixed.route(node))?;
        table.push(row)?;
    }
    Ok(DestTable {
        dest,
        rows: List::from_vec(table),
    })
}

/// For one destination alone; the program compiles the labels once for all of them. The table of the destination that
/// is made best first: of all offers that own origins and fixed nodes make, the best is fixed next. It is the only such
/// table, and is optimal where all labels of the network are monotone and isotone (Sobrinho 2002).
///
/// The algebra is the network's, in whatever form its values have, and the destination is one of the
/// network's.
pub fn solve<A: Algebra>(
    alloc: Global,
    algebra: &A,
    net: &Net,
    dest: DestId,
) -> Result<DestTable, NoMemory>
    requires algebra { A.expression algebra.now ≡ net.now.alg.expression }
    requires dest { dest.0 < length net.now.dests }
    ensures rows { IfOk result (λ table. BestFirst net.now dest.0 (rows_of table)) }
    ensures dest { IfOk result (λ table. table.dest ≡ dest) }
{
    let forms = label_forms(alloc, algebra, net)?;
    let labels = listener_labels(alloc, algebra, net, &forms)?;
    solve_with(alloc, algebra, net, &labels, dest)
}

/// What [`solve`] gives, over labels of the network's arcs that are in the algebra's form already, from
/// [`listener_labels`].
pub fn solve_with<A: Algebra>(
    alloc: Global,
    algebra: &A,
    net: &Net,
    labels: &NeighbourLabels<'_, A::Lab>,
    dest: DestId,
) -> Result<DestTable, NoMemory>
    requires algebra { A.expression algebra.now ≡ net.now.alg.expression }
    requires labels { AreListenerLabels (A.stands_for algebra.now) net.now labels.now }
    requires dest { dest.0 < length net.now.dests }
    ensures rows { IfOk result (λ table. BestFirst net.now dest.0 (rows_of table)) }
    ensures dest { IfOk result (λ table. table.dest ≡ dest) }
{
    let fixed = fixed_alone::<A, Brand>(alloc, algebra, net, labels, dest, Blank::new(1))?;
    table_of_fixed(alloc, algebra, dest, fixed)
}

// The routes that `solve_with` puts into a table, with values in the algebra's own form, and all paths in one store.
fn fixed_alone<A: Algebra, L: Ledger>(
    alloc: Global,
    algebra: &A,
    net: &Net,
    labels: &NeighbourLabels<'_, A::Lab>,
    dest: DestId,
    blank: Blank,
) -> Result<Fixed<A::Sig>, NoMemory>
    requires algebra { A.expression algebra.now ≡ net.now.alg.expression }
    requires labels { AreListenerLabels (A.stands_for algebra.now) net.now labels.now }
    requires dest { dest.0 < length net.now.dests }
    requires name { blank.name ≡ L.name }
    requires parts { blank.parts ≡ L.parts }
    requires some { 0 < L.parts }
    ensures { IfOk result (IsFixedOf (A.sig_value algebra.now) (A.is_sig algebra.now) net.now dest.0) }
{
    let mut search = Open::<A, L>::new(alloc, net.node_count(), blank)?;
    fixed_by(alloc, algebra, net, labels, dest, &mut search)
}

/// What [`solve_with`] finds for the destinations from `first` to before `end`, in order, with values in the algebra's
/// own form, and all paths of a destination in one store: one search after another, in the same memory.
pub fn fixed_between<A: Algebra>(
    alloc: Global,
    algebra: &A,
    net: &Net,
    labels: &NeighbourLabels<'_, A::Lab>,
    first: usize,
    end: usize,
) -> Result<List<Fixed<A::Sig>>, NoMemory>
    requires algebra { A.expression algebra.now ≡ net.now.alg.expression }
    requires labels { AreListenerLabels (A.stands_for algebra.now) net.now labels.now }
    requires order { first ≤ end }
    requires dests { end ≤ length net.now.dests }
    ensures found { IfOk result (AreFixedFrom (A.sig_value algebra.now) (A.is_sig algebra.now) net.now first) }
    ensures count { IfOk result (λ found. first + length found ≡ end) }
{
    searched_between::<A, Brand>(alloc, algebra, net, labels, first, end, Blank::new(1))
}

// The same, where the comparisons of the searches are counted in the blank's ledger.
fn searched_between<A: Algebra, L: Ledger>(
    alloc: Global,
    algebra: &A,
    net: &Net,
    labels: &NeighbourLabels<'_, A::Lab>,
    first: usize,
    end: usize,
    blank: Blank,
) -> Result<List<Fixed<A::Sig>>, NoMemory>
    requires algebra { A.expression algebra.now ≡ net.now.alg.expression }
    requires labels { AreListenerLabels (A.stands_for algebra.now) net.now labels.now }
    requires order { first ≤ end }
    requires dests { end ≤ length net.now.dests }
    requires name { blank.name ≡ L.name }
    requires parts { blank.parts ≡ L.parts }
    requires some { 0 < L.parts }
    ensures found { IfOk result (AreFixedFrom (A.sig_value algebra.now) (A.is_sig algebra.now) net.now first) }
    ensures count { IfOk result (λ found. first + length found ≡ end) }
{
    let _dests = net.dest_count();
    let mut search = Open::<A, L>::new(alloc, net.node_count(), blank)?;
    let mut found = Vec::with_capacity(alloc, end - first)?;
    for dest in first..end {
        let fixed = fixed_by(
            alloc,
            algebra,
            net,
            labels,
            DestId(dest as u32),
            &mut search,
        )?;
        found.push(fixed)?;
    }
    Ok(List::from_vec(found))
}

// The routes for the destination, by a search in which nothing is open, nor is when it has ended.
fn fixed_by<A: Algebra, L: Ledger>(
    alloc: Global,
    algebra: &A,
    net: &Net,
    labels: &NeighbourLabels<'_, A::Lab>,
    dest: DestId,
    search: &mut Open<A, L>,
) -> Result<Fixed<A::Sig>, NoMemory>
    requires algebra { A.expression algebra.now ≡ net.now.alg.expression }
    requires labels { AreListenerLabels (A.stands_for algebra.now) net.now labels.now }
    requires dest { dest.0 < length net.now.dests }
    requires clear { IsClear (length net.now.nodes) search.old.best.items search.old.standing }
    ensures fixed { IfOk result (IsFixedOf (A.sig_value algebra.now) (A.is_sig algebra.now) net.now dest.0) }
    ensures clear { OnOk result (IsClear (length net.now.nodes) search.new.best.items search.new.standing) }
{
    let mut fixed = Fixed::new(alloc, net.node_count())?;
    offer_own(alloc, algebra, net, dest, search)?;
    while let Some(place) = fix_next(algebra, &mut fixed, search)? {
        relax(alloc, algebra, net, labels, &fixed, search, place)?;
    }
    Ok(fixed)
}
