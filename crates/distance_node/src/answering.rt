ghost use Rattle.std.specs.Prelude.{◌≡◌, ◌<◌, ◌≤◌, [], List, Option, ℕ, Some, OnErr, OnOk, IfSome, cond, length, map, option_map};
ghost use Rattle.alg_model.specs.Bounds.{AtMost};
ghost use Rattle.net_graph.specs.Nets.{arcs_to};
ghost use Rattle.distance_node.specs.Arrivals.{heard_reported, IsArrival};
ghost use Rattle.distance_node.specs.Chosen.{IsBest};
ghost use Rattle.distance_node.specs.Node.{greatest_at, offers, same_reported, reported_on};
ghost use Rattle.distance_node.specs.Nodes.{HasHeard, IsPlaced};
ghost use Rattle.distance_node.specs.Places.{heard_by};
ghost use Rattle.distance_node.specs.Tellings.{reported_of};
ghost use Rattle.distance_node.specs.Vectors.{noted};

use crate::choosing::{choose, taken};
use crate::chosen::Chosen;
use crate::settling::{Settled, settle_by};
use crate::site::{Arrival, Site};
use crate::telling::news;
use crate::{Mark, Vector};
use alg_model::Algebra;
use meta_base::NoMemory;
use node_core::Outgoing;
use std::alloc::Global;
use std::mem::replace;

// Lets a row move to another, and puts into `out`, which is empty, what the node tells of it. The value of the old row
// is kept for offers.
#[inline(never)]
fn move_row<A: Algebra, M: Mark<A>>(
    alloc: Global,
    site: &Site<'_, A>,
    row: &mut Option<Chosen<A::Sig>>,
    next: Option<Chosen<A::Sig>>,
    arrival: &Arrival<'_, A::Sig>,
    spare: &mut Option<A::Sig>,
    out: &mut Outgoing<Vector<A, M>>,
) -> Result<(), NoMemory>
    requires out { out.old ≡ [] }
    requires mark { M.algebra ≡ Some site.now.algebra.now }
    requires node { site.now.node.0 < length site.now.net.now.nodes }
    requires before { IfSome row.old (λ r. A.is_sig site.now.algebra.now r.sig) }
    requires sig { IfSome next (λ r. A.is_sig site.now.algebra.now r.sig) }
    requires small { let value = A.sig_value site.now.algebra.now in
        IfSome (reported_of value next) (AtMost (greatest_at arrival.now.clock)) }
    ensures moved { OnOk result (row.new ≡ next) }
    ensures sent { let at = site.now in let value = A.sig_value at.algebra.now in OnOk result (map noted out.new ≡
        cond (same_reported (reported_of value next) (reported_of value row.old)) [] (reported_on (arcs_to at.net.now at.node.0)
        (record { dest = arrival.now.dest.0; value = reported_of value next; stamp = arrival.now.clock }))) }
    ensures err { OnErr result ((row.new ≡ row.old) × (out.new ≡ [])) }
{
    news(alloc, site, arrival.dest, row, &next, arrival.clock, out)?;
    if let Some(old) = replace(row, next) {
        *spare = Some(old.sig);
    }
    Ok(())
}

// Lets the row of a destination, which was the node's choice, be its choice again once the node is sent something, and
// puts into `out`, which is empty, what the node tells of it.
#[tactic(auto, using(crate::specs::Fitting::same_reported_self))]
pub(crate) fn reply_to<A: Algebra, M: Mark<A>>(
    alloc: Global,
    site: &Site<'_, A>,
    heard: &[Option<A::Sig>],
    row: &mut Option<Chosen<A::Sig>>,
    arrival: &Arrival<'_, A::Sig>,
    spare: &mut Option<A::Sig>,
    out: &mut Outgoing<Vector<A, M>>,
) -> Result<(), NoMemory>
    requires out { out.old ≡ [] }
    requires mark { M.algebra ≡ Some site.now.algebra.now }
    requires algebra { let at = site.now in A.expression at.algebra.now ≡ at.net.now.alg.expression }
    requires placed { let at = site.now in IsPlaced (A.stands_for at.algebra.now)
        (A.is_sig at.algebra.now) (A.sig_value at.algebra.now) at.net.now at.node.0 at.own.now at.speakers.now }
    requires heard { let at = site.now in (clock : ℕ) × (clock ≤ arrival.now.clock)
        × HasHeard (A.is_sig at.algebra.now) (A.sig_value at.algebra.now) at.net.now at.node.0 clock heard.now }
    requires arrival { let at = site.now in IsArrival (A.is_sig at.algebra.now)
        (A.sig_value at.algebra.now) at.net.now at.node.0 arrival.now }
    requires before { IfSome row.old (λ b. A.is_sig site.now.algebra.now b.sig) }
    requires best { let at = site.now in let value = A.sig_value at.algebra.now in let dest = arrival.now.dest.0 in
        IsBest value at.net.now at.node.0 (offers at.net.now dest at.node.0
        (λ a. heard_by value at.net.now at.node.0 heard.now a dest)) row.old }
    ensures sig { OnOk result (IfSome row.new (λ r. A.is_sig site.now.algebra.now r.sig)) }
    ensures best { let at = site.now in let value = A.sig_value at.algebra.now in
        OnOk result (IsBest value at.net.now at.node.0 (offers at.net.now arrival.now.dest.0 at.node.0
        (heard_reported value at.net.now at.node.0 heard.now arrival.now)) row.new) }
    ensures sent { let at = site.now in let value = A.sig_value at.algebra.now in OnOk result (map noted out.new ≡
        cond (same_reported (reported_of value row.new) (reported_of value row.old)) [] (reported_on (arcs_to at.net.now at.node.0)
        (record { dest = arrival.now.dest.0; value = reported_of value row.new; stamp = arrival.now.clock }))) }
    ensures err { OnErr result ((row.new ≡ row.old) × (out.new ≡ [])) }
{
    match settle_by(alloc, site, heard, row, arrival, spare)? {
        Settled::Stays => Ok(()),
        Settled::Moves => {
            let next = taken(true, arrival.place + 1, spare);
            move_row(alloc, site, row, next, arrival, spare, out)
        }
        Settled::Lost => {
            let next = choose(alloc, site, heard, arrival, spare)?;
            move_row(alloc, site, row, next, arrival, spare, out)
        }
    }
}
