ghost use Rattle.std.specs.Prelude.{◌≡◌, ◌<◌, ℕ, List, Some, length, map};
ghost use Rattle.std.specs.List.{range_with_len};
ghost use Rattle.meta_base.specs.declared.ids.Delivery.{Delivery};
ghost use Rattle.net_graph.specs.Nets.{PureNet, IsNet};
ghost use Rattle.net_graph.specs.Tables.{Stable};
ghost use Rattle.node_core.specs.Machine.{Machine, Start, Replay, Drained};
ghost use Rattle.path_vector.specs.Node.{PvState, PureUpdate, new_node, carried, dest_rows, path_vector};
ghost use Rattle.path_vector.specs.Coherent.{IsCoherent, AreNodesOf, MayBegin, deliver_along};

/// From the start of nodes that may begin, every list of deliveries leads to a coherent machine: each row is its
/// node's choice from what it heard, and what a listener heard, with what is on its way, is the speaker's row
/// (Griffin and Sobrinho 2005).
#[tactic(auto, using(crate::specs::Laws::runs_are_coherent))]
pub fn runs_are_coherent()
    ensures { (net : PureNet) (nodes : List PvState) (journal : List Delivery) (c : Machine PvState PureUpdate) →
        IsNet net → MayBegin net nodes → Replay path_vector net nodes journal ≡ Some c → IsCoherent net c }
{}

/// Once nothing is on its way, the rows of the nodes, in order, are a stable table for each destination.
pub fn quiet_runs_are_stable()
    ensures { (net : PureNet) (nodes states : List PvState) (journal : List Delivery) (c : Machine PvState PureUpdate)
        (dest : ℕ) → IsNet net → MayBegin net nodes → Replay path_vector net nodes journal ≡ Some c → Drained c →
        AreNodesOf c 0 states → length states ≡ length net.nodes → dest < length net.dests →
        Stable net dest (dest_rows states dest) }
{}

/// The same of any deliveries, by the arcs that they are made on, one after another: no clock is said, and they may be
/// in any order.
pub fn drained_machines_are_stable()
    ensures coherent { (net : PureNet) (nodes : List PvState) (arcs : List ℕ) (c : Machine PvState PureUpdate) →
        IsNet net → MayBegin net nodes → deliver_along net (Start path_vector nodes) arcs ≡ Some c → IsCoherent net c }
    ensures stable { (net : PureNet) (nodes states : List PvState) (arcs : List ℕ) (c : Machine PvState PureUpdate)
        (dest : ℕ) → IsNet net → MayBegin net nodes → deliver_along net (Start path_vector nodes) arcs ≡ Some c →
        Drained c → AreNodesOf c 0 states → length states ≡ length net.nodes → dest < length net.dests →
        Stable net dest (dest_rows states dest) }
{}

/// The new nodes of a network may begin.
pub fn new_nodes_may_begin()
    ensures { (net : PureNet) → MayBegin net (map (new_node net) (range_with_len 0 (length net.nodes))) }
{}

/// The nodes of a coherent machine in which nothing is on its way may begin on another network, with their rows,
/// where that one differs in its arcs alone.
pub fn carried_nodes_may_begin()
    ensures { (old net : PureNet) (c : Machine PvState PureUpdate) (states : List PvState) →
        IsNet old → net ≡ record old { arcs = net.arcs } → IsCoherent old c → Drained c → AreNodesOf c 0 states →
        length states ≡ length old.nodes → MayBegin net (map (carried net) states) }
{}
