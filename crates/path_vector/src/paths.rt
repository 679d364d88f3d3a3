// Tests of paths.
ghost use Rattle.std.specs.Prelude.{◌≡◌, ◌≤◌, ◌==◌, ◌∷◌, ℕ, nat_lt, true};
ghost use Rattle.std.specs.List.{list_all, list_any};
ghost use Rattle.meta_base.specs.NodePaths.{numbers};
ghost use Rattle.net_graph.specs.declared.limits.TheConstants.{MOST_NODES};
ghost use Rattle.alg_model.specs.Carriers.{distinct};
ghost use Rattle.path_vector.specs.Node.{begins_with};
ghost use Rattle.path_vector.specs.Settling.{is_next};
ghost use Rattle.path_vector.specs.Simple.{is_simple};

use crate::marks::{MARK_WORDS, WORD_BITS, is_marked, mark};
use meta_base::NodeId;

// Whether the path passes the node.
pub(crate) fn passes(path: &[NodeId], node: NodeId) -> bool
    ensures { result ≡ list_any (λ n. n.0 == node.0) path.now }
{
    path.iter().any(|passed| passed.0 == node.0)
}

// Whether the path begins with the node.
pub(crate) fn starts_at(path: &[NodeId], node: NodeId) -> bool
    ensures { result ≡ begins_with node.0 (numbers path.now) }
{
    match path.first() {
        Some(first) => first.0 == node.0,
        None => false,
    }
}

// What lies after the first node of the path.
pub(crate) fn after(path: &[NodeId]) -> &[NodeId]
    ensures { (i : ℕ) → begins_with i (numbers path.now) ≡ true → numbers path.now ≡ i ∷ numbers result.now }
{
    match path {
        [] => path,
        [_first, after @ ..] => after,
    }
}

// Whether the node is the second on the path.
pub(crate) fn is_second(path: &[NodeId], node: NodeId) -> bool
    ensures { result ≡ is_next node.0 (numbers path.now) }
{
    match path {
        [] => false,
        [_first, after @ ..] => starts_at(after, node),
    }
}

// The length up to which it costs less to look for each node in front of itself than to clear the marks.
const SHORT_PATH: usize = 12;

// Whether no node is on the path twice. The nodes are those of a network.
fn has_each_once(path: &[NodeId]) -> bool
    requires { list_all (λ n. nat_lt n.0 MOST_NODES) path.now ≡ true }
    ensures { result ≡ distinct (numbers path.now) }
{
    if path.len() <= SHORT_PATH {
        return are_apart(path) || has_none_before_itself(path);
    }
    has_each_marked_once(path)
}

// Whether the nodes of the path are apart from each other by their marks in one word, which each shares with others.
// Then none is on it twice, and most short paths are so.
fn are_apart(path: &[NodeId]) -> bool
    ensures { result ≡ true → distinct (numbers path.now) ≡ true }
{
    let mut passed = [0; 1];
    for node in path {
        let shared = NodeId(node.0 % WORD_BITS);
        if is_marked(&passed, shared) {
            return false;
        }
        mark(&mut passed, shared);
    }
    true
}

// Whether no node is on the path twice, by a look at all in front of each.
#[inline(never)]
fn has_none_before_itself(path: &[NodeId]) -> bool
    ensures { result ≡ distinct (numbers path.now) }
{
    for place in 0..path.len() {
        if passes(&path[..place], path[place]) {
            return false;
        }
    }
    true
}

// Whether no node is on the path twice, by marks. The nodes are those of a network.
#[inline(never)]
fn has_each_marked_once(path: &[NodeId]) -> bool
    requires { list_all (λ n. nat_lt n.0 MOST_NODES) path.now ≡ true }
    ensures { result ≡ distinct (numbers path.now) }
{
    let mut passed = [0; MARK_WORDS];
    for node in path {
        if is_marked(&passed, *node) {
            return false;
        }
        mark(&mut passed, *node);
    }
    true
}

// Whether all nodes of the path are of a network of so many, and none is on it twice.
#[inline(never)]
pub(crate) fn is_simple(path: &[NodeId], count: usize) -> bool
    requires { count ≤ MOST_NODES }
    ensures { result ≡ is_simple count path.now }
{
    are_below(path, count) && has_each_once(path)
}

// Whether all nodes of the path are below this number.
fn are_below(path: &[NodeId], count: usize) -> bool
    ensures { result ≡ list_all (λ n. nat_lt n.0 count) path.now }
{
    path.iter().all(|node| (node.0 as usize) < count)
}
