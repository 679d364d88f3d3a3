// Tests of `path_store`: that a path is found as it was added, which nodes it passes, and which of two comes first.
ghost use Rattle.std.specs.Prelude.{◌≡◌, []};

use meta_base::{NoMemory, NodeId};
use path_store::{PathId, Trails, before, compare};
use std::alloc::Global;
use std::cmp::Ordering;
use std::test::Fail;

// Whether an empty store takes the path 1, then 3 and 7 each before it, and then 0 alone and 4 before that, lends them,
// and tells which of two comes first.
fn keeps_five_paths(alloc: Global, mut store: Trails) -> Result<bool, NoMemory>
    requires { store ≡ [] }
{
    let end = store.add(NodeId(1), None)?;
    let low = store.add(NodeId(3), Some(end))?;
    let high = store.add(NodeId(7), Some(end))?;
    let other_end = store.add(NodeId(0), None)?;
    let other = store.add(NodeId(3), Some(other_end))?;
    let are_numbered = end == PathId(0) && low == PathId(1) && other == PathId(4);
    let low_nodes = store.path(low).to_list(alloc)?;
    let are_lent = low_nodes.as_slice() == [NodeId(3), NodeId(1)].as_slice()
        && store.path(end).len() == 1
        && store.path(high).len() == 2;
    let are_in_order = store.compare(end, low) == Ordering::Less
        && store.compare(low, end) == Ordering::Greater
        && store.compare(low, high) == Ordering::Less
        && store.compare(low, other) == Ordering::Greater
        && store.compare(other_end, end) == Ordering::Less
        && store.compare(low, low) == Ordering::Equal;
    Ok(are_numbered && are_lent && are_in_order)
}

#[test]
fn paths_are_kept(rt: HostRuntime) -> Result<(), Fail> {
    let grows = keeps_five_paths(rt.alloc(), Trails::new(rt.alloc()))?;
    let has_room = keeps_five_paths(rt.alloc(), Trails::with_room(rt.alloc(), 5)?)?;
    assert!(rt; grows && has_room);
    Ok(())
}

// Whether an empty store takes the path 1 and 7 before it, tells how many paths it holds, and takes a path apart; and
// whether 7 before 1 passes 7 and 1, but neither 65, which shares the mark of 1, nor 3, whose mark isn't there.
fn tells_what_is_passed(mut store: Trails) -> Result<bool, NoMemory>
    requires { store ≡ [] }
{
    let end = store.add(NodeId(1), None)?;
    let high = store.add(NodeId(7), Some(end))?;
    let are_parts = store.count() == 2
        && store.first(high) == NodeId(7)
        && store.rest(high) == Some(end)
        && store.rest(end).is_none();
    let are_passed = store.passes(high, NodeId(7)) && store.passes(high, NodeId(1));
    let are_missed = !store.passes(high, NodeId(65)) && !store.passes(high, NodeId(3));
    Ok(are_parts && are_passed && are_missed)
}

#[test]
fn paths_tell_what_they_pass(rt: HostRuntime) -> Result<(), Fail> {
    let tells = tells_what_is_passed(Trails::new(rt.alloc()))?;
    assert!(rt; tells);
    Ok(())
}

// The shorter first, then the smaller number where they first differ; no path before itself.
#[test]
fn shorter_paths_come_first(rt: HostRuntime) {
    let short = [NodeId(9)];
    let long = [NodeId(0), NodeId(5)];
    let larger_at_end = [NodeId(0), NodeId(6)];
    assert!(rt; before(&[], &short));
    assert!(rt; before(&short, &long));
    assert!(rt; !before(&long, &short));
    assert!(rt; before(&long, &larger_at_end));
    assert!(rt; !before(&long, &long));
    assert_eq!(rt; compare(&larger_at_end, &long), Ordering::Greater);
    assert_eq!(rt; compare(&long, &long), Ordering::Equal);
}
