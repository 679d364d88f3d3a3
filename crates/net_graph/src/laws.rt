ghost use Rattle.std.specs.Prelude.{ℕ, List};
ghost use Rattle.net_graph.specs.Nets.{PureNet, IsNet};
ghost use Rattle.net_graph.specs.Changes.{PureChange, changed, After, MayChange, AreChanges};

/// A network with a change that it may have is a network.
#[tactic(auto, using(crate::specs::Laws::changed_is_net))]
pub fn changed_networks_are_networks()
    ensures { (net : PureNet) (c : PureChange) → IsNet net → MayChange net c → IsNet (changed net c) }
{}

/// A network after any number of its changes is a network.
#[tactic(auto, using(crate::specs::Laws::after_is_net))]
pub fn networks_after_changes_are_networks()
    ensures { (net : PureNet) (cs : List PureChange) (k : ℕ) → IsNet net → AreChanges net cs → IsNet (After net cs k) }
{}
