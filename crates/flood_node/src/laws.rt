ghost use Rattle.std.specs.Prelude.{◌≡◌, ◌↔◌, ℕ, ◌+◌, ◌<◌, ◌≤◌, List, length, true, Some, slice_get};
ghost use Rattle.std.specs.List.{AllByRecursion};
ghost use Rattle.meta_base.specs.declared.ids.Delivery.{Delivery};
ghost use Rattle.net_graph.specs.Nets.{PureNet, IsNet};
ghost use Rattle.net_graph.specs.Tables.{PureRow, BestFirst, AreRowsOfTables};
ghost use Rattle.node_core.specs.Machine.{Machine, AreUnbegun, Start, Replay, Drained, replay_from};
ghost use Rattle.node_core.specs.Running.{IsRunning};
ghost use Rattle.rest_laws.specs.Ways.{left};
ghost use Rattle.flood_node.specs.Cards.{PureFlooded};
ghost use Rattle.flood_node.specs.Node.{FloodState, flooding, holds};
ghost use Rattle.flood_node.specs.Reach.{Reach, reaches, cards_sent};
ghost use Rattle.flood_node.specs.Knowing.{IsFlood, IsReachedCard};
ghost use Rattle.flood_node.specs.Missing.{card_budgets};
ghost use Rattle.flood_node.specs.Reported.{AreBegun, AreFloodRows, AreTrueCards};

use best_first::best_first_is_unique;

/// In every replay, whatever deliveries are made, the cards that a node holds are true cards of nodes that it reaches.
pub fn cards_are_true()
    ensures { (net : PureNet) (nodes : List FloodState) (journal : List Delivery)
        (c : Machine FloodState PureFlooded) (i : ℕ) (s : FloodState) → IsNet net → AreUnbegun flooding net 0 nodes
        → Replay flooding net nodes journal ≡ Some c → c.node i ≡ Some s → AllByRecursion (IsReachedCard net i) s.cards }
{}

/// The nodes of a machine that floods, whose start and whose deliveries keep it so, are begun, one for each of the network
/// in order, and the cards that they hold are true. So `flood_rows` can be called on them at any time.
pub fn machines_hold_true_cards()
    ensures begun { (net : PureNet) (c : Machine FloodState PureFlooded) (states : List FloodState) → IsFlood net c
        → ((i : ℕ) → c.node i ≡ slice_get states i) → AreBegun net 0 states }
    ensures cards { (net : PureNet) (c : Machine FloodState PureFlooded) (states : List FloodState) → IsFlood net c
        → ((i : ℕ) → c.node i ≡ slice_get states i) → AllByRecursion (λ s. AreTrueCards net s.cards) states }
{}

/// And so are the nodes that a replay leads to.
pub fn replayed_nodes_are_ready()
    ensures begun { (net : PureNet) (nodes states : List FloodState) (journal : List Delivery)
        (c : Machine FloodState PureFlooded) → IsNet net → AreUnbegun flooding net 0 nodes
        → Replay flooding net nodes journal ≡ Some c → ((i : ℕ) → c.node i ≡ slice_get states i)
        → AreBegun net 0 states }
    ensures cards { (net : PureNet) (nodes states : List FloodState) (journal : List Delivery)
        (c : Machine FloodState PureFlooded) → IsNet net → AreUnbegun flooding net 0 nodes
        → Replay flooding net nodes journal ≡ Some c → ((i : ℕ) → c.node i ≡ slice_get states i)
        → AllByRecursion (λ s. AreTrueCards net s.cards) states }
{}

/// Once nothing is on its way it holds the cards of exactly the nodes that it reaches.
pub fn drained_nodes_hold_what_they_reach()
    ensures { (net : PureNet) (nodes : List FloodState) (journal : List Delivery)
        (c : Machine FloodState PureFlooded) (i j : ℕ) (s : FloodState) → IsNet net → AreUnbegun flooding net 0 nodes
        → Replay flooding net nodes journal ≡ Some c → Drained c → c.node i ≡ Some s
        → (holds s j ≡ true) ↔ Reach net i j }
{}

/// The test of what a node of the network reaches is exact.
pub fn reaching_is_tested()
    ensures { (net : PureNet) (i j : ℕ) → IsNet net → i < length net.nodes → (reaches net i j ≡ true) ↔ Reach net i j }
{}

/// A replay after which nothing is on its way has exactly as many deliveries as cards are sent: over all nodes, one for
/// each node that it reaches and each arc that it speaks on. Any other replay has fewer.
pub fn deliveries_are_counted()
    ensures drained { (net : PureNet) (nodes : List FloodState) (journal : List Delivery)
        (c : Machine FloodState PureFlooded) → IsNet net → AreUnbegun flooding net 0 nodes
        → Replay flooding net nodes journal ≡ Some c → Drained c → length journal ≡ cards_sent net }
    ensures fewer { (net : PureNet) (nodes : List FloodState) (journal : List Delivery)
        (c : Machine FloodState PureFlooded) → IsNet net → AreUnbegun flooding net 0 nodes
        → Replay flooding net nodes journal ≡ Some c → ¬ Drained c → length journal < cards_sent net }
{}

/// Every run of flooding nodes ends, from any machine that runs and in whatever order deliveries are made: a card that
/// waits has the number of nodes that don't hold it as its budget, and there are no more deliveries than are left at the
/// start by these budgets.
pub fn floods_end()
    ensures { (net : PureNet) (start c : Machine FloodState PureFlooded) (journal : List Delivery) → IsNet net
        → IsRunning flooding net start → replay_from flooding net start journal ≡ Some c
        → length journal + left net (card_budgets net c) ≤ left net (card_budgets net start) }
{}

/// Once nothing is on its way, the rows that flooding nodes compute are those that link state finds on the whole network,
/// row for row, though each node knows only what it reaches.
pub fn quiet_rows_are_link_states()
    ensures { (net : PureNet) (nodes states : List FloodState) (journal : List Delivery)
        (c : Machine FloodState PureFlooded) (rows routed : List PureRow) → IsNet net
        → AreUnbegun flooding net 0 nodes → Replay flooding net nodes journal ≡ Some c → Drained c
        → ((k : ℕ) → c.node k ≡ slice_get states k) → length states ≡ length net.nodes → AreFloodRows net states rows
        → AreRowsOfTables net (BestFirst net) routed → rows ≡ routed }
{
    best_first_is_unique();
}
