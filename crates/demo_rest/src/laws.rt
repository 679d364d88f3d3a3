ghost use Rattle.std.specs.Prelude.{◌≡◌, ◌<◌, ◌≤◌, ℕ, Bool, true, List, [], Some, length};
ghost use Rattle.meta_base.specs.declared.ids.Delivery.{Delivery};
ghost use Rattle.net_graph.specs.Nets.{IsNet};
ghost use Rattle.node_core.specs.Machine.{Machine, Replay};
ghost use Rattle.path_vector.specs.Node.{PvState, PureUpdate, path_vector};
ghost use Rattle.vector_runs.specs.Runs.{PurePhase, IsRun, new_nodes};
ghost use Rattle.net_gen.specs.Generated.{AreDemoNodes};
ghost use Rattle.net_gen.specs.Networks.{generated_net};
ghost use Rattle.demo_rest.specs.Most.{most_demo_deliveries, demo_turns};

/// A generated network keeps the rules of networks.
pub fn generated_nets_are_nets()
    ensures { (seed n : ℕ) → AreDemoNodes n → IsNet (generated_net seed n) }
{}

/// The new nodes of a generated network make at most 6,223 deliveries, in whatever order they are made. A node listens
/// to at most two nodes, of the group before its own, so from group to group the deliveries on an arc at most double,
/// and there are five groups.
pub fn generated_runs_are_short()
    ensures { (seed n : ℕ) (journal : List Delivery) (c : Machine PvState PureUpdate) → AreDemoNodes n
        → Replay path_vector (generated_net seed n) (new_nodes (generated_net seed n)) journal ≡ Some c
        → length journal ≤ most_demo_deliveries }
{}

/// So a run of these nodes that has more turns than that is quiet, and so is one that has the turns of `demo`.
pub fn generated_runs_are_quiet()
    ensures turns { (seed n turns : ℕ) (last : PurePhase) (quiet : Bool) → AreDemoNodes n
        → most_demo_deliveries < turns → IsRun (generated_net seed n) [] turns [] last quiet → quiet ≡ true }
    ensures demo { (seed n : ℕ) (last : PurePhase) (quiet : Bool) → AreDemoNodes n
        → IsRun (generated_net seed n) [] demo_turns [] last quiet → quiet ≡ true }
{}
