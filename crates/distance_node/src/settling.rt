// How a node chooses a row again once one of its offers was replaced.
ghost use Rattle.std.specs.Prelude.{◌≡◌, ◌≤◌, ◌+◌, List, None, Option, ℕ, IfOk, IfSome, option_map};
ghost use Rattle.alg_model.specs.Carriers.{carrier_of};
ghost use Rattle.alg_model.specs.Expressions.{PureCarrier, PureValue};
ghost use Rattle.arc_labels.specs.Images.{made_in};
ghost use Rattle.distance_node.specs.Arrivals.{heard_reported, IsArrival};
ghost use Rattle.distance_node.specs.Chosen.{IsBest, chosen_at};
ghost use Rattle.distance_node.specs.Node.{offers};
ghost use Rattle.distance_node.specs.Nodes.{HasHeard, IsPlaced};
ghost use Rattle.distance_node.specs.Places.{heard_by};
ghost use Rattle.distance_node.specs.Settling.{settled};

use crate::choosing::offer_into;
use crate::chosen::Chosen;
use crate::site::{Arrival, Site};
use alg_model::Algebra;
use meta_base::NoMemory;
use std::alloc::Global;
use std::cmp::Ordering;

// What is known of a row by one new offer: it stays, it moves to that offer, or all offers must be asked.
#[derive(Clone, Copy)]
pub(crate) enum Settled {
    Stays,
    Moves,
    Lost,
}

// How the row is settled where there is no longer an offer at the place.
fn settle_without<S>(before: &Option<Chosen<S>>, offer: usize) -> Settled
    ensures { (value : S → PureValue) (c : PureCarrier) → result ≡ settled value c before.now offer None }
{
    match before {
        Some(first) if first.offer == offer => Settled::Lost,
        _ => Settled::Stays,
    }
}

// How the row is settled by the offer at a place, whose value stands there if it was made.
fn settle<A: Algebra>(
    algebra: &A,
    before: &Option<Chosen<A::Sig>>,
    offer: usize,
    made: bool,
    place: &Option<A::Sig>,
) -> Settled
    requires before { IfSome before.now (λ b. A.is_sig algebra.now b.sig) }
    requires next { IfSome (made_in made place.now) (A.is_sig algebra.now) }
    ensures { result ≡ settled (A.sig_value algebra.now) (carrier_of (A.expression algebra.now)) before.now offer
        (made_in made place.now) }
{
    if !made {
        return settle_without(before, offer);
    }
    let Some(next) = place else {
        return settle_without(before, offer);
    };
    let Some(first) = before else {
        return Settled::Moves;
    };
    match algebra.order(next, &first.sig) {
        Ordering::Less => Settled::Moves,
        Ordering::Equal if first.offer < offer => Settled::Stays,
        Ordering::Equal => Settled::Moves,
        Ordering::Greater if first.offer == offer => Settled::Lost,
        Ordering::Greater => Settled::Stays,
    }
}

// How the row of a destination, which was the node's choice, is settled once the node is sent something. The new offer
// is made in the spare's place and compared with the row alone; the others must be asked only where the row's own offer
// got worse.
#[inline(always)]
pub(crate) fn settle_by<A: Algebra>(
    alloc: Global,
    site: &Site<'_, A>,
    _heard: &[Option<A::Sig>],
    before: &Option<Chosen<A::Sig>>,
    arrival: &Arrival<'_, A::Sig>,
    spare: &mut Option<A::Sig>,
) -> Result<Settled, NoMemory>
    requires algebra { let at = site.now in A.expression at.algebra.now ≡ at.net.now.alg.expression }
    requires placed { let at = site.now in IsPlaced (A.stands_for at.algebra.now)
        (A.is_sig at.algebra.now) (A.sig_value at.algebra.now) at.net.now at.node.0 at.own.now at.speakers.now }
    requires heard { let at = site.now in (clock : ℕ) × (clock ≤ arrival.now.clock)
        × HasHeard (A.is_sig at.algebra.now) (A.sig_value at.algebra.now) at.net.now at.node.0 clock _heard.now }
    requires arrival { let at = site.now in IsArrival (A.is_sig at.algebra.now)
        (A.sig_value at.algebra.now) at.net.now at.node.0 arrival.now }
    requires before { IfSome before.now (λ b. A.is_sig site.now.algebra.now b.sig) }
    requires best { let at = site.now in let value = A.sig_value at.algebra.now in let dest = arrival.now.dest.0 in
        IsBest value at.net.now at.node.0 (offers at.net.now dest at.node.0
        (λ a. heard_by value at.net.now at.node.0 _heard.now a dest)) before.now }
    ensures stays { let at = site.now in let value = A.sig_value at.algebra.now in
        IfOk result (λ how. how ≡ Settled.Stays → IsBest value at.net.now at.node.0
        (offers at.net.now arrival.now.dest.0 at.node.0
        (heard_reported value at.net.now at.node.0 _heard.now arrival.now)) before.now) }
    ensures moves { let at = site.now in let value = A.sig_value at.algebra.now in
        IfOk result (λ how. how ≡ Settled.Moves → IsBest value at.net.now at.node.0
        (offers at.net.now arrival.now.dest.0 at.node.0
        (heard_reported value at.net.now at.node.0 _heard.now arrival.now))
        (option_map (chosen_at (arrival.now.place + 1)) spare.new)) }
    ensures sig { IfOk result (λ how. how ≡ Settled.Moves → IfSome spare.new (A.is_sig site.now.algebra.now)) }
{
    let label = site.speakers[arrival.place].label;
    let made = offer_into(alloc, site.algebra, label, arrival.value, spare)?;
    Ok(settle(site.algebra, before, arrival.place + 1, made, spare))
}
