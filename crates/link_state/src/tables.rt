ghost use Rattle.std.specs.Prelude.{◌≡◌, ◌<◌, ◌≤◌, ℕ, List, Option, Some, flat_map, map, length, vec_len, slice_index_or, IfOk, IfSome};
ghost use Rattle.meta_base.specs.Numbers.{max_workers};
ghost use Rattle.net_graph.specs.Nets.{CanBeNumbered};
ghost use Rattle.best_first.specs.Numbered.{PureFixed};
ghost use Rattle.arc_labels.specs.Neighbours.{AreListenerLabels};
ghost use Rattle.link_state.specs.Tables.{AreTablesOf};
ghost use Rattle.link_state.specs.Routes.{AreFixedOf, IsShareOf, first_of};

use alg_model::Algebra;
use arc_labels::{NeighbourLabels, label_forms, listener_labels};
use best_first::{Fixed, fixed_between, table_of_fixed};
use meta_base::{DestId, List, NoMemory};
use net_graph::{DestTable, Net};
use std::alloc::{AllocGlobal, Global};
use std::thread;
use std::thread::Threads;

/// The most workers that the words of a command may ask for; [`all_fixed`] and [`all_tables`] take any number of them.
pub const MAX_WORKERS: u32 = 16;

/// The bound of workers is the number of the specification.
pub fn numbers_are_specified()
    ensures { MAX_WORKERS ≡ max_workers }
{}

// Places for so many items, with none in them yet.
fn no_places<T: Drop>(alloc: Global, count: usize) -> Result<Vec<Option<T>>, NoMemory>
    ensures { IfOk result (λ places. vec_len places ≡ count) }
{
    let mut places = Vec::with_capacity(alloc, count)?;
    for _made in 0..count {
        places.push(None)?;
    }
    Ok(places)
}

// The first destination of a worker, where so many workers share so many destinations.
fn first_of(dests: usize, workers: usize, worker: usize) -> usize
    requires dests { CanBeNumbered dests }
    requires workers { CanBeNumbered workers }
    requires worker { worker ≤ workers }
    requires some { 0 < workers }
    ensures { result ≡ first_of dests workers worker }
{
    dests * worker / workers
}

// The routes of a worker's destinations, or none for want of memory.
fn fixed_of<A: Algebra>(
    alloc: Global,
    algebra: &A,
    net: &Net,
    labels: &NeighbourLabels<'_, A::Lab>,
    workers: usize,
    worker: usize,
) -> Option<List<Fixed<A::Sig>>>
    requires algebra { A.expression algebra.now ≡ net.now.alg.expression }
    requires labels { AreListenerLabels (A.stands_for algebra.now) net.now labels.now }
    requires workers { CanBeNumbered workers }
    requires worker { worker < workers }
    ensures { IfSome result (IsShareOf (A.sig_value algebra.now) (A.is_sig algebra.now) net.now workers worker) }
{
    let dests = net.dest_count();
    let first = first_of(dests, workers, worker);
    let end = first_of(dests, workers, worker + 1);
    fixed_between(alloc, algebra, net, labels, first, end).ok()
}

// For each of so many workers the routes of its destinations, or none for want of memory.
fn found_by<A: Algebra + Sync, R: Threads + Sync>(
    rt: &R,
    alloc: Global,
    algebra: &A,
    net: &Net,
    labels: &NeighbourLabels<'_, A::Lab>,
    workers: usize,
) -> Result<Vec<Option<List<Fixed<A::Sig>>>>, NoMemory>
where
    A::Sig: Send,
    A::Lab: Sync,
    requires algebra { A.expression algebra.now ≡ net.now.alg.expression }
    requires labels { AreListenerLabels (A.stands_for algebra.now) net.now labels.now }
    requires workers { (0 < workers) × CanBeNumbered workers }
    ensures count { IfOk result (λ found. vec_len found ≡ workers) }
    ensures fixed { (k : ℕ) (d : Option (List (PureFixed A.Sig))) → k < workers →
        IfOk result (λ found. IfSome (slice_index_or found.items k d)
        (IsShareOf (A.sig_value algebra.now) (A.is_sig algebra.now) net.now workers k)) }
{
    let mut found = no_places(alloc, workers)?;
    thread::for_each_mut(
        rt,
        found.as_mut_slice(),
        workers,
        &|worker: usize, fixed: &mut Option<List<Fixed<A::Sig>>>|
            requires { (A.expression algebra.now ≡ net.now.alg.expression)
                × AreListenerLabels (A.stands_for algebra.now) net.now labels.now
                × CanBeNumbered workers × (worker < workers) }
            ensures { IfSome fixed.new (IsShareOf (A.sig_value algebra.entry.now) (A.is_sig algebra.entry.now)
                net.entry.now workers worker) }
        { *fixed = fixed_of(alloc, algebra, net, labels, workers, worker) },
    );
    Ok(found)
}

// The items in order, if none is wanting.
fn all_of<T: Drop>(alloc: Global, found: Vec<Option<T>>) -> Result<List<T>, NoMemory>
    ensures { IfOk result (λ items. map Some items ≡ found.items) }
{
    let mut items = Vec::with_capacity(alloc, found.len())?;
    for item in found {
        items.push(item.ok_or(NoMemory)?)?;
    }
    Ok(List::from_vec(items))
}

// The items of all lists, in order.
fn joined<T: Drop>(alloc: Global, lists: List<List<T>>) -> Result<List<T>, NoMemory>
    ensures { IfOk result (λ items. items ≡ flat_map (λ list. list) lists) }
{
    let mut items = Vec::new(alloc);
    for list in lists.into_vec() {
        items.append(&mut list.into_vec())?;
    }
    Ok(List::from_vec(items))
}

/// The routes of all destinations of the network, in order, with values in the algebra's own form: those that
/// [`all_tables`] puts into tables. They are found by so many workers, one at least, each of which takes destinations
/// that follow one another; no more threads run than there are workers or destinations, the caller's own among them,
/// so one worker is the caller alone. The routes are the same for any number of workers, since the tables of them are
/// ([`crate::tables_are_unique`]).
///
/// The algebra is the network's, in whatever form its values have. It is refused for want of memory alone.
pub fn all_fixed<A: Algebra + Sync, R: AllocGlobal + Threads + Sync>(
    rt: &R,
    algebra: &A,
    net: &Net,
    workers: u32,
) -> Result<List<Fixed<A::Sig>>, NoMemory>
where
    A::Sig: Send,
    A::Lab: Sync,
    requires algebra { A.expression algebra.now ≡ net.now.alg.expression }
    requires workers { 0 < workers }
    ensures count { IfOk result (λ found. length found ≡ length net.now.dests) }
    ensures fixed { IfOk result (AreFixedOf (A.sig_value algebra.now) (A.is_sig algebra.now) net.now) }
{
    let alloc = rt.alloc();
    let forms = label_forms(alloc, algebra, net)?;
    let labels = listener_labels(alloc, algebra, net, &forms)?;
    let workers = net.dest_count().clamp(1, workers as usize);
    let found = found_by(rt, alloc, algebra, net, &labels, workers)?;
    let shares = all_of(alloc, found)?;
    joined(alloc, shares)
}

// The tables of these routes, in order. The routes of a destination are dropped before the next table is made.
fn tables_of<A: Algebra>(
    alloc: Global,
    algebra: &A,
    net: &Net,
    found: List<Fixed<A::Sig>>,
) -> Result<List<DestTable>, NoMemory>
    requires { AreFixedOf (A.sig_value algebra.now) (A.is_sig algebra.now) net.now found }
    ensures { IfOk result (AreTablesOf net.now) }
{
    let mut tables = Vec::with_capacity(alloc, net.dest_count())?;
    let mut dest = 0;
    for fixed in found.into_vec() {
        tables.push(table_of_fixed(alloc, algebra, DestId(dest), fixed)?)?;
        dest += 1;
    }
    Ok(List::from_vec(tables))
}

/// The tables of all destinations of the network, in order, each the one that is made best first. The routes are found
/// by so many workers, one at least, each of which takes destinations that follow one another; no more threads run
/// than there are workers or destinations, the caller's own among them, so one worker is the caller alone. The tables
/// are then made of the routes one after another. The rows are the same for any number of workers
/// ([`crate::tables_are_unique`]).
///
/// The algebra is the network's, in whatever form its values have. It is refused for want of memory alone.
pub fn all_tables<A: Algebra + Sync, R: AllocGlobal + Threads + Sync>(
    rt: &R,
    algebra: &A,
    net: &Net,
    workers: u32,
) -> Result<List<DestTable>, NoMemory>
where
    A::Sig: Send,
    A::Lab: Sync,
    requires algebra { A.expression algebra.now ≡ net.now.alg.expression }
    requires workers { 0 < workers }
    ensures count { IfOk result (λ tables. length tables ≡ length net.now.dests) }
    ensures tables { IfOk result (AreTablesOf net.now) }
{
    let found = all_fixed(rt, algebra, net, workers)?;
    tables_of(rt.alloc(), algebra, net, found)
}
