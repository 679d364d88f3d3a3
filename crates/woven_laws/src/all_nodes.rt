ghost use Rattle.std.specs.Prelude.{◌≡◌, ◌≤◌, ℕ, List, Some, IfOk};
ghost use Rattle.meta_base.specs.declared.ids.Delivery.{Delivery};
ghost use Rattle.net_graph.specs.Nets.{PureNet, IsNet};
ghost use Rattle.node_core.specs.declared.node.TheConstants.{MAX_CLOCK};
ghost use Rattle.node_core.specs.Kinds.{Kind, IsLawful};
ghost use Rattle.node_core.specs.Machine.{Machine, Drained, front_clock};
ghost use Rattle.node_core.specs.Running.{IsRunning};
ghost use Rattle.woven_laws.specs.Delivered.{HasDelivered};

use meta_base::{Gate, NoMemory};

/// All nodes of a network with what waits on its arcs, run by one worker. `machine` says what they are to contracts, and
/// `log` which deliveries each node took.
pub trait AllNodes {
    /// What a node is, and what a message says.
    ghost State: { Type 0 };

    ghost Note: { Type 0 };

    /// How such nodes begin and step.
    ghost kind: { Kind State Note };

    ghost net: { Self → PureNet };

    ghost machine: { Self → Machine State Note };

    ghost log: { Self → ℕ → List Delivery };

    /// Makes a delivery on an arc on which a message waits, and gives how many messages it sent. One waits somewhere, and no
    /// delivery gives a clock above [`node_core::MAX_CLOCK`]. The gate gets a report of it, as made by worker 0. It is
    /// refused for want of memory alone, and then nothing is said of the nodes.
    fn deliver<G: Gate>(&mut self, gate: &G) -> Result<u64, NoMemory>
        requires is_net { IsNet (net self.old) }
        requires running { IsRunning kind (net self.old) (machine self.old) }
        requires waits { ¬ Drained (machine self.old) }
        requires early { (a t : ℕ) → front_clock kind (net self.old) (machine self.old) a ≡ Some t → t ≤ MAX_CLOCK }
        ensures net { net self.new ≡ net self.old }
        ensures delivered { IfOk result (λ sent. HasDelivered kind (net self.old)
            (machine self.old) (log self.old) sent (machine self.new) (log self.new)) };

    /// What holds of every kind of node holds of these.
    ghost lawful: { IsLawful kind };
}
