ghost use Rattle.std.specs.Prelude.{◌≡◌, ◌↔◌, ◌<◌, ℕ, Bool, true, false, List, length};
ghost use Rattle.std.specs.List.{AllByRecursion};
ghost use Rattle.meta_base.specs.declared.ids.Delivery.{Delivery};
ghost use Rattle.net_graph.specs.Nets.{PureNet, IsNet};
ghost use Rattle.net_graph.specs.RowTexts.{IsRowOf};
ghost use Rattle.net_graph.specs.Tables.{PureRow, BestFirst, AreRowsOfTables};
ghost use Rattle.flood_node.specs.Reach.{cards_sent};
ghost use Rattle.flood_runs.specs.Floods.{IsFloodRun};

use best_first::best_first_rows_are_the_networks;
use flood_node::{deliveries_are_counted, quiet_rows_are_link_states};

/// The rows of a flood that is quiet are those that link state finds on the whole network, row for row, whatever its
/// workers and deliveries.
pub fn quiet_floods_are_link_states()
    ensures { (net : PureNet) (turns : ℕ) (rows routed : List PureRow) (journal : List Delivery) → IsNet net
        → IsFloodRun net turns rows journal true → AreRowsOfTables net (BestFirst net) routed → rows ≡ routed }
{
    quiet_rows_are_link_states();
}

/// A flood ends before it is quiet exactly where it has fewer turns than cards are sent: over all nodes, one for each
/// node that it reaches and each arc that it speaks on. A quiet flood made as many deliveries.
pub fn floods_are_spent_exactly()
    ensures spent { (net : PureNet) (turns : ℕ) (rows : List PureRow) (journal : List Delivery) (quiet : Bool)
        → IsNet net → IsFloodRun net turns rows journal quiet → (quiet ≡ false) ↔ (turns < cards_sent net) }
    ensures quiet { (net : PureNet) (turns : ℕ) (rows : List PureRow) (journal : List Delivery)
        → IsNet net → IsFloodRun net turns rows journal true → length journal ≡ cards_sent net }
{
    deliveries_are_counted();
}

/// The rows of every flood, quiet or not, are rows of the network: their nodes, their destinations, the nodes of their
/// paths and their values.
pub fn flood_rows_are_the_networks()
    ensures { (net : PureNet) (turns : ℕ) (rows : List PureRow) (journal : List Delivery) (quiet : Bool) → IsNet net
        → IsFloodRun net turns rows journal quiet → AllByRecursion (IsRowOf net) rows }
{
    best_first_rows_are_the_networks();
}
