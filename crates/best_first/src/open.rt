ghost use Rattle.std.specs.Prelude.{◌≡◌, ◌≢◌, ◌<◌, ℕ, Some, None, true, length, vec_len, replicate, IfOk, IfSome, IfNone, option_map};
ghost use Rattle.std.proofs.Math.ListN.{set};
ghost use Rattle.frontier.specs.Tournaments.{IsJudged, IsJudgedBut, IsFirstSlot};
ghost use Rattle.alg_model.specs.Carriers.{carrier_of};
ghost use Rattle.best_first.specs.Found.{found_at, AllFound};
ghost use Rattle.best_first.specs.Keys.{key_of, key_at, best_of, precedes, beats as beats_of};
ghost use Rattle.best_first.specs.Queue.{AreAtTheirNodes, IsOffered, AreRanked, is_wanted};

use crate::fixed::none_of;
use crate::route::{ByRoute, OpenPlace, OpenRoute, comes_first};
use alg_model::Algebra;
use frontier::{Steps, Tournament};
use meta_base::{NoMemory, NodeId};
use std::alloc::Global;
use std::sync::ledger::{Blank, Ledger};

// What is open: for each node the best route that it was offered, and which node's is the best of all.
#[derive(Drop)]
pub(crate) struct Open<A: Algebra, L: Ledger> {
    pub best: Vec<Option<OpenRoute<A::Sig>>>,
    pub standing: Tournament,
    // The value that was made last, or one in whose memory the next is made.
    pub spare: Option<A::Sig>,
    pub steps: Steps<L>,
}

impl<A: Algebra, L: Ledger> Open<A, L> {
    // So many nodes, nothing of which is open.
    pub(crate) fn new(alloc: Global, count: usize, blank: Blank) -> Result<Self, NoMemory>
        requires name { blank.name ≡ L.name }
        requires parts { blank.parts ≡ L.parts }
        requires some { 0 < L.parts }
        ensures best { IfOk result (λ made. made.best.items ≡ replicate count None) }
        ensures count { IfOk result (λ made. made.standing.count ≡ count) }
    {
        Ok(Open {
            best: none_of(alloc, count)?,
            standing: Tournament::new(alloc, count)?,
            spare: None,
            steps: Steps::new(blank),
        })
    }

    // Offers the route, which is kept where it is better than its node's best, whose value is the spare one then.
    #[inline(always)]
    pub(crate) fn offer(&mut self, algebra: &A, route: OpenRoute<A::Sig>)
        requires node { route.place.node.0 < vec_len self.old.best }
        requires sig { A.is_sig algebra.now route.sig }
        requires ranked { AreRanked (A.sig_value algebra.now) (A.is_sig algebra.now)
            (carrier_of (A.expression algebra.now)) self.old.best.items self.old.standing }
        ensures count { vec_len self.new.best ≡ vec_len self.old.best }
        ensures ranked { AreRanked (A.sig_value algebra.now) (A.is_sig algebra.now)
            (carrier_of (A.expression algebra.now)) self.new.best.items self.new.standing }
        ensures offered { let value = A.sig_value algebra.now in
            IsOffered (carrier_of (A.expression algebra.now)) (key_of value route)
            (best_of value self.old.best.items) (best_of value self.new.best.items) }
    {
        if self.best[route.place.node.0 as usize].is_none() {
            self.open_node(algebra, route);
            return;
        }
        let OpenRoute { sig, place } = route;
        self.spare = Some(sig);
        if self.wants_spare(algebra, place) {
            self.keep_spare(algebra, place.size, place.node, place.next);
        }
    }

    // Keeps the first route that the node is offered.
    #[inline(always)]
    fn open_node(&mut self, algebra: &A, route: OpenRoute<A::Sig>)
        requires node { route.place.node.0 < vec_len self.old.best }
        requires none { found_at self.old.best.items route.place.node.0 ≡ None }
        requires sig { A.is_sig algebra.now route.sig }
        requires ranked { AreRanked (A.sig_value algebra.now) (A.is_sig algebra.now)
            (carrier_of (A.expression algebra.now)) self.old.best.items self.old.standing }
        ensures count { vec_len self.new.best ≡ vec_len self.old.best }
        ensures ranked { AreRanked (A.sig_value algebra.now) (A.is_sig algebra.now)
            (carrier_of (A.expression algebra.now)) self.new.best.items self.new.standing }
        ensures best { let value = A.sig_value algebra.now in
            best_of value self.new.best.items ≡
            set (best_of value self.old.best.items) route.place.node.0 (Some (key_of value route)) }
    {
        let node = route.place.node.0 as usize;
        self.best[node] = Some(route);
        self.judge(algebra, node);
    }

    // Judges the matches of a node whose best route has become better.
    #[inline(never)]
    fn judge(&mut self, algebra: &A, node: usize)
        requires node { node < vec_len self.old.best }
        requires sigs { AllFound (λ o. A.is_sig algebra.now o.sig) self.old.best.items }
        requires places { AreAtTheirNodes self.old.best.items }
        requires count { self.old.standing.count ≡ vec_len self.old.best }
        requires judged { IsJudgedBut (precedes (carrier_of (A.expression algebra.now))
            (best_of (A.sig_value algebra.now) self.old.best.items)) self.old.standing node }
        ensures best { self.new.best ≡ self.old.best }
        ensures count { self.new.standing.count ≡ self.old.standing.count }
        ensures judged { IsJudged (precedes (carrier_of (A.expression algebra.now))
            (best_of (A.sig_value algebra.now) self.new.best.items)) self.new.standing }
    {
        let order = ByRoute {
            algebra,
            best: &self.best,
        };
        self.standing.raise(&order, node, &mut self.steps);
    }

    // Whether there is a spare value, and a route there with it is better than the node's best.
    #[inline(always)]
    fn wants_spare(&self, algebra: &A, place: OpenPlace) -> bool
        requires node { place.node.0 < vec_len self.now.best }
        requires sig { IfSome self.now.spare (A.is_sig algebra.now) }
        requires sigs { AllFound (λ o. A.is_sig algebra.now o.sig) self.now.best.items }
        ensures { let value = A.sig_value algebra.now in
            result ≡ is_wanted (carrier_of (A.expression algebra.now)) place (option_map value self.now.spare)
            (best_of value self.now.best.items) }
    {
        match &self.spare {
            Some(sig) => beats(algebra, sig, place, &self.best[place.node.0 as usize]),
            None => false,
        }
    }

    // Keeps a route with the spare value as the node's best in place of another. Most offers aren't kept, so this stands
    // apart from their loop, and takes the parts of the place, so that the loop need not put one together.
    #[inline(never)]
    pub(crate) fn keep_spare(&mut self, algebra: &A, size: u32, node: NodeId, next: NodeId)
        requires node { node.0 < vec_len self.old.best }
        requires sig { IfSome self.old.spare (A.is_sig algebra.now) }
        requires ranked { AreRanked (A.sig_value algebra.now) (A.is_sig algebra.now)
            (carrier_of (A.expression algebra.now)) self.old.best.items self.old.standing }
        requires some { found_at self.old.best.items node.0 ≢ None }
        requires wanted { let value = A.sig_value algebra.now in
            is_wanted (carrier_of (A.expression algebra.now)) (record { size = size; node = node; next = next })
            (option_map value self.old.spare) (best_of value self.old.best.items) ≡ true }
        ensures count { vec_len self.new.best ≡ vec_len self.old.best }
        ensures ranked { AreRanked (A.sig_value algebra.now) (A.is_sig algebra.now)
            (carrier_of (A.expression algebra.now)) self.new.best.items self.new.standing }
        ensures best { let value = A.sig_value algebra.now in
            best_of value self.new.best.items ≡
            set (best_of value self.old.best.items) node.0
            (option_map (key_at (record { size = size; node = node; next = next }))
            (option_map value self.old.spare)) }
    {
        let place = OpenPlace { size, node, next };
        let node = node.0 as usize;
        exchange(&mut self.best[node], &mut self.spare, place);
        self.judge(algebra, node);
    }

    // Takes out the best route of all, if a route is open.
    pub(crate) fn take_best(&mut self, algebra: &A) -> Option<OpenRoute<A::Sig>>
        requires ranked { AreRanked (A.sig_value algebra.now) (A.is_sig algebra.now)
            (carrier_of (A.expression algebra.now)) self.old.best.items self.old.standing }
        ensures count { vec_len self.new.best ≡ vec_len self.old.best }
        ensures none { IfNone result ((k : ℕ) → found_at self.old.best.items k ≡ None) }
        ensures cleared { IfNone result ((k : ℕ) → found_at self.new.best.items k ≡ None) }
        ensures route { IfSome result (λ route. found_at self.old.best.items route.place.node.0 ≡ Some route) }
        ensures first { IfSome result (λ route. IsFirstSlot (precedes (carrier_of (A.expression algebra.now))
            (best_of (A.sig_value algebra.now) self.old.best.items)) (length self.old.best.items) route.place.node.0) }
        ensures taken { IfSome result (λ route.
            self.new.best.items ≡ set self.old.best.items route.place.node.0 None) }
        ensures ranked { AreRanked (A.sig_value algebra.now) (A.is_sig algebra.now)
            (carrier_of (A.expression algebra.now)) self.new.best.items self.new.standing }
    {
        if self.best.is_empty() {
            return None;
        }
        let first = self.standing.first();
        let Some(route) = self.best[first].take() else {
            return None;
        };
        let order = ByRoute {
            algebra,
            best: &self.best,
        };
        self.standing.replay(&order, first, &mut self.steps);
        Some(route)
    }
}

// Whether the route there with the value is better than the best, or there is no best. Routes compare by
// value and then by place, which is their order by value and path, since what lies after one next is one path.
#[inline(always)]
pub(crate) fn beats<A: Algebra>(
    algebra: &A,
    sig: &A::Sig,
    place: OpenPlace,
    best: &Option<OpenRoute<A::Sig>>,
) -> bool
    requires sig { A.is_sig algebra.now sig.now }
    requires best { IfSome best.now (λ o. A.is_sig algebra.now o.sig) }
    ensures { result ≡ beats_of (carrier_of (A.expression algebra.now))
        (key_at place (A.sig_value algebra.now sig.now)) (option_map (key_of (A.sig_value algebra.now)) best.now) }
{
    match best {
        Some(best) => comes_first(algebra.order(sig, &best.sig), place, best.place),
        None => true,
    }
}

// Makes a route there of the spare value, and what the route had before the spare value. There are both.
fn exchange<S: Drop>(best: &mut Option<OpenRoute<S>>, spare: &mut Option<S>, place: OpenPlace)
    requires best { best.old ≢ None }
    requires spare { spare.old ≢ None }
    ensures best { best.new ≡ option_map (λ sig. record { sig = sig; place = place }) spare.old }
    ensures spare { spare.new ≡ option_map (λ o. o.sig) best.old }
{
    if let Some(best) = best {
        if let Some(spare) = spare {
            std::mem::swap(&mut best.sig, spare);
            best.place = place;
        }
    }
}
