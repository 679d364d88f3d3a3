ghost use Rattle.std.specs.Prelude.{◌≡◌, ◌<◌, ◌∷◌, ℕ, List, None, Some, length};
ghost use Rattle.meta_base.specs.declared.ids.Delivery.{Delivery};
ghost use Rattle.alg_model.specs.Carriers.{IsPreferred};
ghost use Rattle.alg_model.specs.Properties.{strict, isotone};
ghost use Rattle.net_graph.specs.Nets.{PureNet, IsNet};
ghost use Rattle.net_graph.specs.Tables.{PureRow, NetHas, BestFirst, Optimal, carrier, value_at};
ghost use Rattle.net_graph.specs.Walks.{Walk, Weight};
ghost use Rattle.node_core.specs.Machine.{Machine, Replay, Drained};
ghost use Rattle.distance_node.specs.Coherent.{IsCoherent};
ghost use Rattle.distance_node.specs.Node.{Hop, DvState, PureVector, value_of, distance, new_nodes};
ghost use Rattle.distance_node.specs.Tables.{AreAsGood, HopTable, IsChosen, Leads, table_of};

use best_first::best_first_is_optimal;
use settled_laws::strict_is_monotone;

/// From the start of the new nodes of a network, every list of deliveries leads to a coherent machine: each row is its
/// node's choice from what it heard, and what a listener heard, with what is on its way, is the value of the speaker's
/// row.
pub fn runs_are_coherent()
    ensures { (net : PureNet) (journal : List Delivery) (c : Machine DvState PureVector) → IsNet net →
        Replay distance net (new_nodes net) journal ≡ Some c → IsCoherent net c }
{}

/// Once nothing is on its way, each row is its node's choice with its neighbours' values in place of what it heard.
pub fn drained_rows_are_choices()
    ensures { (net : PureNet) (journal : List Delivery) (c : Machine DvState PureVector) (dest : ℕ) → IsNet net →
        Replay distance net (new_nodes net) journal ≡ Some c → Drained c → IsChosen net dest (table_of c dest) }
{}

/// Over labels that are strict, next hops lead from each row with a value along a walk that weighs it, and come to no node
/// twice. Over labels that are isotone, no walk weighs better than the row of its first node, and where that one has no
/// value each walk weighs none (after Sobrinho 2002; Griffin and Sobrinho 2005).
pub fn next_hops_lead_along_best_walks()
    ensures leads { (net : PureNet) (dest : ℕ) (table : HopTable) (i : ℕ) (h : Hop) → IsNet net → NetHas strict net →
        IsChosen net dest table → i < length net.nodes → table i ≡ Some h → Leads net dest table i h }
    ensures unbeaten { (net : PureNet) (dest : ℕ) (table : HopTable) (i : ℕ) (p : List ℕ) → IsNet net →
        NetHas isotone net → IsChosen net dest table → Walk net dest (i ∷ p) →
        ¬ IsPreferred (carrier net) (Weight net dest (i ∷ p)) (value_of (table i)) }
    ensures none { (net : PureNet) (dest : ℕ) (table : HopTable) (i : ℕ) (p : List ℕ) → IsNet net →
        NetHas isotone net → IsChosen net dest table → table i ≡ None → Walk net dest (i ∷ p) →
        Weight net dest (i ∷ p) ≡ None }
{}

/// Over labels that are strict and isotone, the values of such rows are those of any optimal table, as the one that is
/// made best first is: neither is preferred to the other, and one is none exactly where the other is.
pub fn quiet_values_are_optimal()
    ensures { (net : PureNet) (dest : ℕ) (table : HopTable) (best : List PureRow) (i : ℕ) → IsNet net →
        NetHas strict net → NetHas isotone net → IsChosen net dest table → Optimal net dest best →
        i < length net.nodes → AreAsGood (carrier net) (value_of (table i)) (value_at best i) }
{}

/// So once nothing is on its way, each node's value is as good as the one in the table that is made best first, as link
/// state makes it, and there is none exactly where that one has none.
pub fn quiet_values_are_link_states()
    ensures { (net : PureNet) (journal : List Delivery) (c : Machine DvState PureVector) (dest : ℕ)
        (best : List PureRow) (i : ℕ) → IsNet net → NetHas strict net → NetHas isotone net →
        Replay distance net (new_nodes net) journal ≡ Some c → Drained c → BestFirst net dest best →
        i < length net.nodes → AreAsGood (carrier net) (value_of (table_of c dest i)) (value_at best i) }
{
    best_first_is_optimal();
    strict_is_monotone();
}
