// How a node chooses a row of all that it is offered.
ghost use Rattle.std.specs.Prelude.{◌≡◌, ◌≤◌, ◌<◌, List, Option, ℕ, Some, IfOk, IfSome, cond, length, option_map, option_and_then};
ghost use Rattle.alg_model.specs.declared.alg.TheConstants.{MAX_VALUE_NUMBER};
ghost use Rattle.alg_model.specs.Application.{App};
ghost use Rattle.alg_model.specs.Bounds.{AtMost};
ghost use Rattle.alg_model.specs.Carriers.{carrier_of};
ghost use Rattle.alg_model.specs.Expressions.{PureLabel};
ghost use Rattle.arc_labels.specs.Images.{made_in};
ghost use Rattle.distance_node.specs.Arrivals.{heard_reported, IsArrival};
ghost use Rattle.distance_node.specs.Chosen.{IsBest, better_of, chosen_at, entry_of};
ghost use Rattle.distance_node.specs.Node.{offers};
ghost use Rattle.distance_node.specs.Nodes.{HasHeard, IsPlaced};

use crate::chosen::Chosen;
use crate::site::{Arrival, Site};
use alg_model::Algebra;
use arc_labels::image_into;
use meta_base::NoMemory;
use std::alloc::Global;
use std::cmp::Ordering;
use std::mem::swap;

// What the node's own origin offers it, if there is one with that value.
pub(crate) fn own_offer<A: Algebra>(
    alloc: Global,
    algebra: &A,
    own: &Option<A::Sig>,
) -> Result<Option<Chosen<A::Sig>>, NoMemory>
    requires { IfSome own.now (A.is_sig algebra.now) }
    ensures sig { IfOk result (λ offer. IfSome offer (λ o. A.is_sig algebra.now o.sig)) }
    ensures place { IfOk result (λ offer. IfSome offer (λ o. o.offer ≡ 0)) }
    ensures value { let value = A.sig_value algebra.now in
        IfOk result (λ offer. option_map (λ o. value o.sig) offer ≡ option_map value own.now) }
{
    match own {
        Some(sig) => Ok(Some(Chosen {
            sig: algebra.copy(alloc, sig)?,
            offer: 0,
        })),
        None => Ok(None),
    }
}

// What the label makes of what was heard, put into the place: true where it stands there, and false where nothing was
// heard or the label prohibits it.
pub(crate) fn offer_into<A: Algebra>(
    alloc: Global,
    algebra: &A,
    label: &A::Lab,
    heard: &Option<A::Sig>,
    place: &mut Option<A::Sig>,
) -> Result<bool, NoMemory>
    requires label { (l : PureLabel) × A.stands_for algebra.now label.now l }
    requires heard { IfSome heard.now (λ s.
        A.is_sig algebra.now s × AtMost MAX_VALUE_NUMBER (A.sig_value algebra.now s)) }
    ensures sig { IfOk result (λ made. IfSome (made_in made place.new) (A.is_sig algebra.now)) }
    ensures value { (l : PureLabel) → A.stands_for algebra.now label.now l →
        let value = A.sig_value algebra.now in IfOk result (λ made. option_map value (made_in made place.new) ≡
        option_and_then (App (A.expression algebra.now) l) (option_map value heard.now)) }
{
    match heard {
        Some(sig) => image_into(alloc, algebra, label, sig, place),
        None => Ok(false),
    }
}

// The offer at a place, whose value is taken from where it stands if it was made.
pub(crate) fn taken<S>(made: bool, offer: usize, place: &mut Option<S>) -> Option<Chosen<S>>
    ensures { result ≡ option_map (chosen_at offer) (made_in made place.old) }
{
    if made {
        Some(Chosen {
            sig: place.take()?,
            offer,
        })
    } else {
        None
    }
}

// Lets the better of two offers be the best; the first, where the next one isn't preferred. The value of the next one
// stands in the place if it was made, and there stays the value of the other.
fn keep_better<A: Algebra>(
    algebra: &A,
    best: &mut Option<Chosen<A::Sig>>,
    offer: usize,
    made: bool,
    place: &mut Option<A::Sig>,
)
    requires best { IfSome best.old (λ o. A.is_sig algebra.now o.sig) }
    requires next { IfSome (made_in made place.old) (A.is_sig algebra.now) }
    ensures sig { IfSome best.new (λ o. A.is_sig algebra.now o.sig) }
    ensures better { best.new ≡ better_of (A.sig_value algebra.now) (carrier_of (A.expression algebra.now))
        best.old (option_map (chosen_at offer) (made_in made place.old)) }
{
    let Some(first) = best else {
        *best = taken(made, offer, place);
        return;
    };
    if !made {
        return;
    }
    let Some(next) = place else {
        return;
    };
    if algebra.order(next, &first.sig) == Ordering::Less {
        swap(&mut first.sig, next);
        first.offer = offer;
    }
}

// What was sent, or the entry of what was heard.
fn known_at<'h, S>(
    heard: &'h [Option<S>],
    entry: usize,
    reported: &'h Option<S>,
    is_reported: bool,
) -> &'h Option<S>
    requires { entry < length heard.now }
    ensures { result.now ≡ cond is_reported reported.now (entry_of heard.now entry) }
{
    if is_reported {
        return reported;
    }
    &heard[entry]
}

// The node's choice of what it is offered, once it is sent that. Offers are made in the memory of the spare value.
#[inline(never)]
pub(crate) fn choose<A: Algebra>(
    alloc: Global,
    site: &Site<'_, A>,
    heard: &[Option<A::Sig>],
    arrival: &Arrival<'_, A::Sig>,
    spare: &mut Option<A::Sig>,
) -> Result<Option<Chosen<A::Sig>>, NoMemory>
    requires algebra { let at = site.now in A.expression at.algebra.now ≡ at.net.now.alg.expression }
    requires placed { let at = site.now in IsPlaced (A.stands_for at.algebra.now)
        (A.is_sig at.algebra.now) (A.sig_value at.algebra.now) at.net.now at.node.0 at.own.now at.speakers.now }
    requires heard { let at = site.now in (clock : ℕ) × (clock ≤ arrival.now.clock)
        × HasHeard (A.is_sig at.algebra.now) (A.sig_value at.algebra.now) at.net.now at.node.0 clock heard.now }
    requires arrival { let at = site.now in IsArrival (A.is_sig at.algebra.now)
        (A.sig_value at.algebra.now) at.net.now at.node.0 arrival.now }
    ensures sig { IfOk result (λ row. IfSome row (λ r. A.is_sig site.now.algebra.now r.sig)) }
    ensures best { let at = site.now in let value = A.sig_value at.algebra.now in
        IfOk result (IsBest value at.net.now at.node.0 (offers at.net.now arrival.now.dest.0 at.node.0
        (heard_reported value at.net.now at.node.0 heard.now arrival.now))) }
{
    let dest = arrival.dest.0 as usize;
    let base = dest * site.speakers.len();
    let mut best = own_offer(alloc, site.algebra, &site.own[dest])?;
    for place in 0..site.speakers.len() {
        let is_reported = place == arrival.place;
        let known = known_at(&*heard, base + place, &*arrival.value, is_reported);
        let label = site.speakers[place].label;
        let made = offer_into(alloc, site.algebra, label, known, spare)?;
        keep_better(site.algebra, &mut best, place + 1, made, spare);
    }
    Ok(best)
}
