ghost use Rattle.std.specs.Prelude.{◌≡◌, ◌<◌, ◌≤◌, ◌+◌, ℕ, List, min, Option, Some, length, map};
ghost use Rattle.std.specs.List.{range_with_len};
ghost use Rattle.meta_base.specs.declared.ids.Delivery.{Delivery};
ghost use Rattle.alg_model.specs.Carriers.{In};
ghost use Rattle.alg_model.specs.Expressions.{PureValue};
ghost use Rattle.alg_model.specs.Properties.{monotone};
ghost use Rattle.alg_model.specs.Tests.{same_value};
ghost use Rattle.net_graph.specs.Nets.{PureNet, IsNet, AreDistinct};
ghost use Rattle.net_graph.specs.Routes.{PureRoute};
ghost use Rattle.net_graph.specs.Tables.{Reported, NetHas, carrier};
ghost use Rattle.node_core.specs.Machine.{Machine, Drained, Start, Replay, replay_from};
ghost use Rattle.node_core.specs.Running.{IsRunning};
ghost use Rattle.rest_laws.specs.Budgets.{AreRead};
ghost use Rattle.path_vector.specs.Node.{PvState, PureUpdate, new_node, path_vector};
ghost use Rattle.path_vector.specs.Coherent.{IsCoherent, MayBegin};
ghost use Rattle.path_vector.specs.Items.{IsItem};
ghost use Rattle.vector_rest.specs.Levels.{Occurs, ChangesByOne, budget_from, known_on, learn, level, values_from};
ghost use Rattle.vector_rest.specs.Left.{AreCarried, left_at_start, left_from};

/// The core, over routes alone. Labels are monotone. Where the report of one neighbour changes, and with it a node's
/// choice, the lower of the levels of the two choices is above the lower of the levels of the two reports: one of the
/// choices is made of one of the reports, and is no worse than the other choice. An arc raises the level, since its
/// label makes no value better (Sobrinho 2005) and the path gets longer. Levels by rank and length are this project's
/// own.
pub fn levels_rise()
    ensures { (net : PureNet) (values : List PureValue) (n dest i j : ℕ) (reported other : Reported)
        (r s : Option PureRoute) → NetHas monotone net → ((v : PureValue) → IsItem v values → In (carrier net) v)
        → ChangesByOne net (Occurs values n) dest i j reported other r s
        → min (level (carrier net) values n (reported j)) (level (carrier net) values n (other j))
        < min (level (carrier net) values n r) (level (carrier net) values n s) }
{}

/// So path-vector nodes (Griffin and Sobrinho 2005) put out only updates with less of a budget than the one that was
/// taken, and a delivery changes the budget of no other update. The start is any coherent machine.
pub fn updates_are_read()
    ensures { (net : PureNet) (start : Machine PvState PureUpdate) → IsNet net → NetHas monotone net
        → IsCoherent net start → AreRead path_vector net (budget_from net start) learn start (known_on net) }
{}

/// So a replay from any coherent machine has no more deliveries than are left there, in whatever order they are made:
/// that path-vector protocols come to rest where labels are monotone is Sobrinho's (2005), the falling sum and its
/// bound are this project's own.
pub fn vector_runs_end()
    ensures { (net : PureNet) (start c : Machine PvState PureUpdate) (journal : List Delivery) → IsNet net
        → NetHas monotone net → IsCoherent net start → IsRunning path_vector net start
        → replay_from path_vector net start journal ≡ Some c
        → length journal + left_from net start c ≤ left_from net start start }
{}

/// The same from the start of nodes that may begin, new or carried.
pub fn begun_runs_end()
    ensures { (net : PureNet) (nodes : List PvState) (journal : List Delivery) (c : Machine PvState PureUpdate)
        → IsNet net → NetHas monotone net → MayBegin net nodes → Replay path_vector net nodes journal ≡ Some c
        → length journal + left_from net (Start path_vector nodes) c ≤ left_at_start net nodes }
{}

/// So from the new nodes of a network every replay ends.
pub fn new_runs_end()
    ensures { (net : PureNet) (nodes : List PvState) (journal : List Delivery) (c : Machine PvState PureUpdate)
        → IsNet net → NetHas monotone net → nodes ≡ map (new_node net) (range_with_len 0 (length net.nodes))
        → Replay path_vector net nodes journal ≡ Some c → length journal ≤ left_at_start net nodes }
{}

/// And from nodes that are carried over a change of the network's arcs. The labels of the old network need not be
/// monotone.
pub fn carried_runs_end()
    ensures { (old net : PureNet) (before c : Machine PvState PureUpdate) (nodes : List PvState)
        (journal : List Delivery) → IsNet old → IsNet net → NetHas monotone net → AreCarried old net before nodes
        → Replay path_vector net nodes journal ≡ Some c → length journal ≤ left_at_start net nodes }
{}

/// Once a replay has as many deliveries as were left at its start, nothing is on its way. So with so many turns a phase
/// is quiet.
pub fn enough_deliveries_drain()
    ensures { (net : PureNet) (nodes : List PvState) (journal : List Delivery) (c : Machine PvState PureUpdate)
        → IsNet net → NetHas monotone net → MayBegin net nodes → Replay path_vector net nodes journal ≡ Some c
        → left_at_start net nodes ≤ length journal → Drained c }
{}

/// The values that levels are counted by: each occurs once in the list and is in the carrier, and the route of each row
/// of each machine that the start leads to has one of them, with a path of at most as many nodes as the network has.
/// For this, labels need not be monotone.
pub fn rows_occur()
    ensures once { (net : PureNet) (start : Machine PvState PureUpdate) (dest : ℕ)
        → AreDistinct same_value (values_from net start dest) }
    ensures carrier { (net : PureNet) (start : Machine PvState PureUpdate) (dest : ℕ) (v : PureValue) → IsNet net
        → IsCoherent net start → IsItem v (values_from net start dest) → In (carrier net) v }
    ensures rows { (net : PureNet) (start c : Machine PvState PureUpdate) (journal : List Delivery) (i dest : ℕ)
        (s : PvState) (r : PureRoute) → IsNet net → IsCoherent net start
        → replay_from path_vector net start journal ≡ Some c → c.node i ≡ Some s → s.rows dest ≡ Some r
        → Occurs (values_from net start dest) (length net.nodes) r }
{}
