ghost use Rattle.std.specs.Prelude.{◌≡◌, ◌<◌, vec_len};
ghost use Rattle.std.specs.Ordering.{ordering_then, nat_cmp};
ghost use Rattle.alg_model.specs.Carriers.{carrier_of};
ghost use Rattle.net_graph.specs.Routes.{is_less};
ghost use Rattle.best_first.specs.Found.{AllFound};
ghost use Rattle.best_first.specs.Keys.{best_of, compare_places, precedes};
ghost use Rattle.best_first.specs.Queue.{AreAtTheirNodes};

use alg_model::Algebra;
use frontier::{Order, Steps};
use meta_base::NodeId;
use std::cmp::Ordering;
use std::sync::ledger::Ledger;

// A route that a node may take: its value in the algebra's own form, and its place.
#[derive(Drop)]
pub(crate) struct OpenRoute<S> {
    pub sig: S,
    pub place: OpenPlace,
}

// Where an open route goes: how many nodes its path has, its node, and the node after it, which is fixed.
// The route of the node's own origin has its node for the next.
#[derive(Clone, Copy)]
pub(crate) struct OpenPlace {
    pub size: u32,
    pub node: NodeId,
    pub next: NodeId,
}

impl OpenPlace {
    // By size, node and next: `Less` is the first.
    fn compare(self, other: OpenPlace) -> Ordering
        ensures { result ≡ compare_places self other }
    {
        let nodes = self.node.0.cmp(&other.node.0);
        let nexts = self.next.0.cmp(&other.next.0);
        self.size.cmp(&other.size).then(nodes.then(nexts))
    }
}

// Whether the first of two routes is better, whose values compare so.
pub(crate) fn comes_first(values: Ordering, first: OpenPlace, second: OpenPlace) -> bool
    ensures { result ≡ is_less (ordering_then values (compare_places first second)) }
{
    match values {
        Ordering::Less => true,
        Ordering::Equal => first.compare(second) == Ordering::Less,
        Ordering::Greater => false,
    }
}

// The same of routes of two nodes, whose sizes and nodes are these: where the nodes differ, what is after them says nothing.
#[inline(always)]
fn slot_comes_first(
    values: Ordering,
    size: u32,
    slot: usize,
    other_size: u32,
    other_slot: usize,
) -> bool
    ensures { result ≡ is_less
        (ordering_then values (ordering_then (nat_cmp size other_size) (nat_cmp slot other_slot))) }
{
    // Which of two comes first can't be foretold, so a look at the numbers without a jump costs less than one with: a
    // search has a sixth fewer wrong guesses of the processor.
    let is_first = (size < other_size) | ((size == other_size) & (slot < other_slot));
    (values == Ordering::Less) | ((values == Ordering::Equal) & is_first)
}

// The order of nodes by their best open routes: the better one first, and a node without one last.
#[derive(Drop)]
pub(crate) struct ByRoute<'a, A: Algebra> {
    pub algebra: &'a A,
    pub best: &'a Vec<Option<OpenRoute<A::Sig>>>,
}

impl<'a, A: Algebra> Order<usize> for ByRoute<'a, A> {
    ghost use Rattle.best_first.specs.KeyOrder.{slots_asymmetric, slots_transitive};

    ghost is_before = { λ s k m. precedes (carrier_of (A.expression s.algebra.now))
        (best_of (A.sig_value s.algebra.now) s.best.now.items) k m };

    ghost is_key = { λ s k. (k < vec_len s.best.now) × AllFound (λ o. A.is_sig s.algebra.now o.sig) s.best.now.items
        × AreAtTheirNodes s.best.now.items };

    ghost asymmetric = { λ s k m i j. slots_asymmetric (A.sig_value s.algebra.now) (A.is_sig s.algebra.now)
        (carrier_of (A.expression s.algebra.now)) (A.sig_in s.algebra.now) s.best.now.items i.1 k m };

    ghost transitive = { λ s k m n i j l. slots_transitive (A.sig_value s.algebra.now) (A.is_sig s.algebra.now)
        (carrier_of (A.expression s.algebra.now)) (A.sig_in s.algebra.now) s.best.now.items i.1 k m n };

    #[inline(always)]
    fn before<L: Ledger>(&self, a: &usize, b: &usize, steps: &mut Steps<L>) -> bool {
        steps.tick();
        let Some(first) = &self.best[*a] else {
            return false;
        };
        let Some(second) = &self.best[*b] else {
            return true;
        };
        let values = self.algebra.order(&first.sig, &second.sig);
        slot_comes_first(values, first.place.size, *a, second.place.size, *b)
    }
}
