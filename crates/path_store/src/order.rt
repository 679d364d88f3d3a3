ghost use Rattle.std.specs.Prelude.{◌≡◌, ◌↔◌, IsTrue};
ghost use Rattle.meta_base.specs.NodePaths.{numbers, compare_nodes, compare_paths};

use meta_base::NodeId;
use std::cmp::Ordering;

/// Which path comes first, `Less` for `p`: the shorter one, and of two of one length the one with the
/// smaller node number where they first differ. Paths of the same nodes are `Equal`.
pub fn compare(p: &[NodeId], q: &[NodeId]) -> Ordering
    ensures { result ≡ compare_paths (numbers p.now) (numbers q.now) }
{
    match p.len().cmp(&q.len()) {
        Ordering::Equal => compare_in_turn(p, q),
        unequal => unequal,
    }
}

/// Whether `p` comes before `q` in the order of [`compare`]. No path comes before itself.
pub fn before(p: &[NodeId], q: &[NodeId]) -> bool
    ensures { IsTrue result ↔ (compare_paths (numbers p.now) (numbers q.now) ≡ Ordering.Less) }
{
    compare(p, q) == Ordering::Less
}

// By the numbers of the nodes, from the front.
fn compare_in_turn(first: &[NodeId], second: &[NodeId]) -> Ordering
    ensures { result ≡ compare_nodes (numbers first.now) (numbers second.now) }
{
    let mut p = first;
    let mut q = second;
    loop {
        let [i, p_rest @ ..] = p else {
            return if q.is_empty() {
                Ordering::Equal
            } else {
                Ordering::Less
            };
        };
        let [j, q_rest @ ..] = q else {
            return Ordering::Greater;
        };
        match i.0.cmp(&j.0) {
            Ordering::Equal => {
                p = p_rest;
                q = q_rest;
            }
            unequal => return unequal,
        }
    }
}
