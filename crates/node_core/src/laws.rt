ghost use Rattle.std.specs.Prelude.{◌≡◌, ◌+◌, ℕ, List, [], ◌∷◌, ◌++◌, Some, length};
ghost use Rattle.meta_base.specs.declared.ids.Delivery.{Delivery};
ghost use Rattle.net_graph.specs.Nets.{PureNet, IsNet};
ghost use Rattle.node_core.specs.Machine.{Machine, AreUnbegun, Start, Deliver, Replay};
ghost use Rattle.node_core.specs.Running.{IsRunning, AreUpTo, IsLeast, LeadsTo};

use crate::NodeCore;

/// Every replay from the start keeps the network's nodes, each begun and with the machine's clock, and no clock
/// and no stamp is above the number of its deliveries.
pub fn replays_run<N: NodeCore>()
    ensures running { (net : PureNet) (nodes : List N.State) (journal : List Delivery) (c : Machine N.State N.Note)
        → IsNet net → AreUnbegun N.kind net 0 nodes → Replay N.kind net nodes journal ≡ Some c
        → IsRunning N.kind net c }
    ensures clocks { (net : PureNet) (nodes : List N.State) (journal : List Delivery) (c : Machine N.State N.Note)
        → Replay N.kind net nodes journal ≡ Some c → AreUpTo N.kind c (length journal) }
{}

/// A journal that is made least first is in order: each delivery comes, by its clock and then by its listener,
/// before all that can be made after it.
pub fn least_first_is_in_order<N: NodeCore>()
    ensures { (net : PureNet) (start c d : Machine N.State N.Note) (journal : List Delivery) (e : Delivery)
        → LeadsTo N.kind net start journal c → IsLeast N.kind net c e → Deliver N.kind net c e.arc.0 ≡ Some d
        → LeadsTo N.kind net start (journal ++ e ∷ []) d }
{}
