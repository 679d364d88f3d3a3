ghost use Rattle.std.specs.Prelude.{ℕ, Bool, true, List};
ghost use Rattle.std.specs.List.{AllByRecursion};
ghost use Rattle.meta_base.specs.declared.ids.Delivery.{Delivery};
ghost use Rattle.alg_model.specs.Properties.{strict, isotone};
ghost use Rattle.net_graph.specs.Nets.{PureNet, IsNet};
ghost use Rattle.net_graph.specs.Tables.{PureRow, NetHas, BestFirst, AreRowsOfTables, carrier};
ghost use Rattle.distance_node.specs.Rows.{PureHopRow, IsHopRowOf};
ghost use Rattle.distance_runs.specs.Runs.{AreAsGoodRows, AreBestHops, IsDistanceRun};

/// Over labels that are strict and isotone, the rows of a run that is quiet lead along best walks, whatever its workers
/// and deliveries: next hops lead from each row with a value along a walk that weighs it and passes no node twice, no
/// walk weighs better, and where a node has no value each walk from it weighs none.
pub fn quiet_hops_lead_along_best_walks()
    ensures { (net : PureNet) (turns : ℕ) (hops : List PureHopRow) (journal : List Delivery) → IsNet net
        → NetHas strict net → NetHas isotone net → IsDistanceRun net turns hops journal true → AreBestHops net hops }
{}

/// So its values are as good as those that link state finds, row for row: neither is preferred to the other, and a node
/// has none exactly where link state gives it none.
pub fn quiet_values_are_link_states()
    ensures { (net : PureNet) (turns : ℕ) (hops : List PureHopRow) (routed : List PureRow) (journal : List Delivery)
        → IsNet net → NetHas strict net → NetHas isotone net → IsDistanceRun net turns hops journal true
        → AreRowsOfTables net (BestFirst net) routed → AreAsGoodRows (carrier net) hops routed }
{
    distance_node::quiet_values_are_link_states();
}

/// The rows of every run, quiet or not, are rows of the network: their nodes, their destinations, their values and
/// their next hops.
pub fn distance_rows_are_the_networks()
    ensures { (net : PureNet) (turns : ℕ) (hops : List PureHopRow) (journal : List Delivery) (quiet : Bool)
        → IsNet net → IsDistanceRun net turns hops journal quiet → AllByRecursion (IsHopRowOf net) hops }
{}
