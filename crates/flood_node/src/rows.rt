ghost use Rattle.std.specs.Prelude.{◌≡◌, ◌⊎◌, ◌++◌, ◌<◌, ◌+◌, ◌==◌, ℕ, List, Some, None, IfOk, OnOk, cond, length, map, option_map, replicate, slice_get, take, true};
ghost use Rattle.std.proofs.Math.ListN.{set};
ghost use Rattle.std.specs.List.{AllByRecursion};
ghost use Rattle.arc_labels.specs.Neighbours.{AreListenerLabels};
ghost use Rattle.net_graph.specs.Views.{pure_row};
ghost use Rattle.flood_node.specs.FoundRows.{found_rows};
ghost use Rattle.flood_node.specs.Node.{FloodState, holds};
ghost use Rattle.flood_node.specs.Rows.{AreAllFound, AreAllPlaced, AreLeaders, is_placed, placed_at};
ghost use Rattle.flood_node.specs.Reported.{AreBegun, AreFloodRows, AreTrueCards};

use crate::node::FloodNode;
use crate::reported::reported_net;
use alg_model::Algebra;
use arc_labels::{NeighbourLabels, label_forms, listener_labels};
use best_first::solve_with;
use meta_base::{DestId, List, NoMemory};
use net_graph::{Net, RouteRow};
use std::alloc::Global;
use std::mem::replace;

// The leader of the node at that place, after those before it: the first node that holds the same cards.
fn leader_of(nodes: &[FloodNode<'_>], leaders: &[usize], place: usize) -> usize
    requires place { place < length nodes.now }
    requires leaders { AreLeaders (take place nodes.now) leaders.now }
    ensures leader { (result ≡ place) ⊎ (slice_get leaders.now result ≡ Some result) }
    ensures same { (s t : FloodState) → slice_get nodes.now place ≡ Some s → slice_get nodes.now result ≡ Some t
        → (j : ℕ) → holds s j ≡ holds t j }
{
    for earlier in 0..place {
        if leaders[earlier] == earlier && nodes[earlier].holds_same(&nodes[place]) {
            return earlier;
        }
    }
    place
}

// The leader of each node.
fn leaders_of(alloc: Global, nodes: &[FloodNode<'_>]) -> Result<Vec<usize>, NoMemory>
    ensures { IfOk result (λ leaders. AreLeaders nodes.now leaders.items) }
{
    let mut leaders = Vec::with_capacity(alloc, nodes.len())?;
    for place in 0..nodes.len() {
        let leader = leader_of(nodes, &leaders, place);
        leaders.push(leader)?;
    }
    Ok(leaders)
}

// Places for the rows of so many nodes, with none in them yet.
fn no_rows(alloc: Global, nodes: usize) -> Result<Vec<Option<RouteRow>>, NoMemory>
    ensures { IfOk result (λ found. map (option_map pure_row) found.items ≡ replicate nodes None) }
{
    let mut found = Vec::with_capacity(alloc, nodes)?;
    for _made in 0..nodes {
        found.push(None)?;
    }
    Ok(found)
}

// The same for each destination.
fn nothing_found(
    alloc: Global,
    net: &Net,
    nodes: &[FloodNode<'_>],
) -> Result<Vec<Vec<Option<RouteRow>>>, NoMemory>
    ensures { (leaders : List ℕ) → AreLeaders nodes.now leaders →
        IfOk result (λ found. AreAllFound net.now nodes.now leaders 0 0 0 (found_rows found.items)) }
{
    let mut found = Vec::with_capacity(alloc, net.dest_count())?;
    for _made in 0..net.dest_count() {
        found.push(no_rows(alloc, nodes.len())?)?;
    }
    Ok(found)
}

// Puts the row in its place where it is wanted, and lets it go else.
#[tactic(auto, using(crate::proofs::Placed::view_set))]
fn place_row(row: RouteRow, place: usize, is_wanted: bool, found: &mut Vec<Option<RouteRow>>)
    requires { place < length found.old.items }
    ensures count { length found.new.items ≡ length found.old.items }
    ensures placed { map (option_map pure_row) found.new.items ≡ cond is_wanted
        (set (map (option_map pure_row) found.old.items) place (Some (pure_row row)))
        (map (option_map pure_row) found.old.items) }
{
    if is_wanted {
        drop(replace(&mut found[place], Some(row)));
    } else {
        drop(row);
    }
}

// Puts the rows of a table in their places, those of the nodes with that leader.
fn place_rows(
    rows: List<RouteRow>,
    leaders: &[usize],
    leader: usize,
    found: &mut Vec<Option<RouteRow>>,
)
    requires leaders { length rows ≡ length leaders.now }
    requires found { length found.old.items ≡ length leaders.now }
    ensures count { length found.new.items ≡ length found.old.items }
    ensures placed { (i l : ℕ) → slice_get leaders.now i ≡ Some l →
        placed_at (map (option_map pure_row) found.new.items) i ≡ cond (l == leader) (slice_get (map pure_row rows) i)
        (placed_at (map (option_map pure_row) found.old.items) i) }
{
    let mut place = 0;
    for row in rows.into_vec() {
        place_row(row, place, leaders[place] == leader, found);
        place += 1;
    }
}

// Puts the rows of the tables that are made on the network in their places, those of the nodes with that leader.
fn place_tables<A: Algebra>(
    alloc: Global,
    algebra: &A,
    reported: &Net,
    labels: &NeighbourLabels<'_, A::Lab>,
    leaders: &[usize],
    leader: usize,
    found: &mut Vec<Vec<Option<RouteRow>>>,
) -> Result<(), NoMemory>
    requires algebra { A.expression algebra.now ≡ reported.now.alg.expression }
    requires labels { AreListenerLabels (A.stands_for algebra.now) reported.now labels.now }
    requires leaders { length leaders.now ≡ length reported.now.nodes }
    requires dests { length found.old.items ≡ length reported.now.dests }
    requires nodes { AllByRecursion (λ rows. length rows ≡ length leaders.now) (found_rows found.old.items) }
    ensures { OnOk result (AreAllPlaced reported.now leaders.now leader (length reported.now.dests)
        (found_rows found.old.items) (found_rows found.new.items)) }
{
    for dest in 0..reported.dest_count() {
        let table = solve_with(alloc, algebra, reported, labels, DestId(dest as u32))?;
        place_rows(table.rows, leaders, leader, &mut found[dest]);
    }
    Ok(())
}

// The same, where the labels of the network's arcs aren't in the algebra's form yet.
fn solve_reported<A: Algebra>(
    alloc: Global,
    algebra: &A,
    reported: &Net,
    leaders: &[usize],
    leader: usize,
    found: &mut Vec<Vec<Option<RouteRow>>>,
) -> Result<(), NoMemory>
    requires algebra { A.expression algebra.now ≡ reported.now.alg.expression }
    requires leaders { length leaders.now ≡ length reported.now.nodes }
    requires dests { length found.old.items ≡ length reported.now.dests }
    requires nodes { AllByRecursion (λ rows. length rows ≡ length leaders.now) (found_rows found.old.items) }
    ensures { OnOk result (AreAllPlaced reported.now leaders.now leader (length reported.now.dests)
        (found_rows found.old.items) (found_rows found.new.items)) }
{
    let forms = label_forms(alloc, algebra, reported)?;
    let labels = listener_labels(alloc, algebra, reported, &forms)?;
    place_tables(alloc, algebra, reported, &labels, leaders, leader, found)
}

// Solves the network of the leader's cards for each destination, and puts the rows of the nodes that it leads in their
// places.
fn find_rows<A: Algebra>(
    alloc: Global,
    algebra: &A,
    net: &Net,
    nodes: &[FloodNode<'_>],
    leaders: &[usize],
    leader: usize,
    found: &mut Vec<Vec<Option<RouteRow>>>,
) -> Result<(), NoMemory>
    requires algebra { A.expression algebra.now ≡ net.now.alg.expression }
    requires nodes { AreBegun net.now 0 nodes.now }
    requires cards { AllByRecursion (λ s. AreTrueCards net.now s.cards) nodes.now }
    requires leaders { AreLeaders nodes.now leaders.now }
    requires leader { slice_get leaders.now leader ≡ Some leader }
    requires found { AreAllFound net.now nodes.now leaders.now leader leader 0 (found_rows found.old.items) }
    ensures { OnOk result (AreAllFound net.now nodes.now leaders.now (leader + 1) (leader + 1) 0
        (found_rows found.new.items)) }
{
    let reported = reported_net(alloc, net, nodes[leader].cards())?;
    solve_reported(alloc, algebra, &reported, leaders, leader, found)
}

// Adds the rows of a destination, all of which were found.
fn push_rows(found: Vec<Option<RouteRow>>, rows: &mut List<RouteRow>) -> Result<(), NoMemory>
    requires { (i : ℕ) → i < length found.items → is_placed found.items i ≡ true }
    ensures { OnOk result (map Some (map pure_row rows.new) ≡
        map Some (map pure_row rows.old) ++ map (option_map pure_row) found.items) }
{
    for row in found {
        let Some(row) = row else { unreachable!() };
        rows.push(row)?;
    }
    Ok(())
}

// The rows of all destinations, all of which were found.
fn all_rows(
    alloc: Global,
    net: &Net,
    nodes: &[FloodNode<'_>],
    found: Vec<Vec<Option<RouteRow>>>,
) -> Result<List<RouteRow>, NoMemory>
    requires { (leaders : List ℕ) × AreLeaders nodes.now leaders
        × AreAllFound net.now nodes.now leaders (length nodes.now) (length nodes.now) 0 (found_rows found.items) }
    ensures { IfOk result (λ rows. AreFloodRows net.now nodes.now (map pure_row rows)) }
{
    let mut rows = List::new(alloc);
    for table in found {
        push_rows(table, &mut rows)?;
    }
    Ok(rows)
}

/// The rows that the nodes compute, by destination, then node: for each its row in the table that is made best first on
/// the network of its cards. A flood calls it at its end. The names come from the network; arcs and origins come from
/// each node's own cards. What nodes that hold the same cards have in common is solved once for each destination.
///
/// There is one begun node for each of the network, in order, and all cards that they hold are true. The algebra is the
/// network's, in whatever form its values have. It is refused for want of memory alone.
pub fn flood_rows<A: Algebra>(
    alloc: Global,
    algebra: &A,
    net: &Net,
    nodes: &[FloodNode<'_>],
) -> Result<List<RouteRow>, NoMemory>
    requires algebra { A.expression algebra.now ≡ net.now.alg.expression }
    requires nodes { AreBegun net.now 0 nodes.now }
    requires cards { AllByRecursion (λ s. AreTrueCards net.now s.cards) nodes.now }
    ensures { IfOk result (λ rows. AreFloodRows net.now nodes.now (map pure_row rows)) }
{
    let leaders = leaders_of(alloc, nodes)?;
    let mut found = nothing_found(alloc, net, nodes)?;
    for leader in 0..nodes.len() {
        if leaders[leader] == leader {
            find_rows(alloc, algebra, net, nodes, &leaders, leader, &mut found)?;
        }
    }
    all_rows(alloc, net, nodes, found)
}
