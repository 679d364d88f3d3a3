ghost use Rattle.std.specs.Prelude.{◌≡◌, ◌<◌, ◌∷◌, [], ℕ, IfOk, IfSome, length, option_map};
ghost use Rattle.net_graph.specs.Nets.{IsNet, arcs_from, origin_value};
ghost use Rattle.path_vector.specs.Known.{known_route, offered_route, heard_by, AreNeighbours};
ghost use Rattle.path_vector.specs.Node.{choice};

use crate::heard::Heard;
use crate::known::Known;
use crate::offer::{Offer, keep_better, offer_into, taken_by};
use crate::site::Site;
use alg_model::Algebra;
use meta_base::{DestId, NoMemory};
use std::alloc::Global;

// What the node's own origin offers it, if there is one with that value.
fn own_offer<'p, A: Algebra>(
    alloc: Global,
    algebra: &A,
    own: &Option<A::Sig>,
) -> Result<Option<Offer<'p, A::Sig>>, NoMemory>
    requires { IfSome own.now (A.is_sig algebra.now) }
    ensures sig { IfOk result (λ offer. IfSome offer (λ o. A.is_sig algebra.now o.sig)) }
    ensures offer { (node : ℕ) → let value = A.sig_value algebra.now in IfOk result (λ offer.
        option_map (offered_route value node) offer ≡
        option_map (λ s. record { value = value s; path = node ∷ [] }) own.now) }
{
    match own {
        Some(sig) => Ok(Some(Offer {
            sig: algebra.copy(alloc, sig)?,
            after: &[],
        })),
        None => Ok(None),
    }
}

// The node's choice for a destination, from its own origin's value there and what it heard of its neighbours, one
// for each arc that it may route by. Offers are made in the memory of the spare value.
pub(crate) fn choose<A: Algebra>(
    alloc: Global,
    site: &Site<'_, A>,
    own: &Option<A::Sig>,
    neighbours: &Heard<A::Lab, A::Sig>,
    dest: DestId,
    spare: &mut Option<A::Sig>,
) -> Result<Option<Known<A::Sig>>, NoMemory>
    requires algebra { let at = site.now in A.expression at.algebra.now ≡ at.net.now.alg.expression }
    requires net { IsNet site.now.net.now }
    requires dest { dest.0 < length site.now.net.now.dests }
    requires own { IfSome own.now (A.is_sig site.now.algebra.now) }
    requires origin { let at = site.now in
        option_map (A.sig_value at.algebra.now) own.now ≡ origin_value at.net.now dest.0 at.node.0 }
    requires neighbours { let at = site.now in AreNeighbours (A.stands_for at.algebra.now) (A.is_sig at.algebra.now)
        (A.sig_value at.algebra.now) at.net.now (arcs_from at.net.now at.node.0) neighbours.now }
    ensures sig { IfOk result (λ row. IfSome row (λ k. A.is_sig site.now.algebra.now k.sig)) }
    ensures choice { let at = site.now in let value = A.sig_value at.algebra.now in
        IfOk result (λ row. option_map (known_route value) row ≡
        choice at.net.now dest.0 at.node.0 (heard_by value neighbours.now)) }
{
    let mut best = own_offer(alloc, site.algebra, own)?;
    for place in 0..neighbours.count() {
        let label = &neighbours.neighbour(place).label;
        let known = neighbours.route(place, dest.0 as usize);
        let after = offer_into(
            alloc,
            site.algebra,
            site.net,
            site.node,
            label,
            known,
            spare,
        )?;
        keep_better(site.algebra, &mut best, after, spare);
    }
    match best {
        Some(offer) => Ok(Some(taken_by(alloc, site.net, site.node, offer)?)),
        None => Ok(None),
    }
}
