ghost use Rattle.std.specs.Prelude.{◌≡◌, ℕ, ◌+◌, List, Some, length};
ghost use Rattle.meta_base.specs.declared.ids.Delivery.{Delivery};
ghost use Rattle.net_graph.specs.Nets.{PureNet, IsNet};
ghost use Rattle.node_core.specs.Machine.{Machine, AreUnbegun, Start, Ordered, Replay, SentIn, replay_from};
ghost use Rattle.woven_laws.specs.Counts.{sent_by_all, taken_by_all, waiting_on};
ghost use Rattle.woven_laws.specs.Histories.{Taken};
ghost use Rattle.woven_laws.specs.Woven.{IsMergeOf, Woven};

use crate::all_nodes::AllNodes;
use node_core::NodeCore;

/// A journal in order that merges what the nodes took replays, from where they were to where they are.
pub fn histories_replay<N: NodeCore>()
    ensures { (net : PureNet) (c d : Machine N.State N.Note) (history : ℕ → List (Taken N.Note))
        (journal : List Delivery) → Woven N.kind net c history d → IsMergeOf net history journal
        → Ordered net journal → replay_from N.kind net c journal ≡ Some d }
{}

/// What waited and what the nodes put out is what they took and what waits.
pub fn histories_count<N: NodeCore>()
    ensures { (net : PureNet) (c d : Machine N.State N.Note) (history : ℕ → List (Taken N.Note))
        → IsNet net → Woven N.kind net c history d
        → waiting_on net c + sent_by_all N.kind net c.node history ≡ taken_by_all net history + waiting_on net d }
{}

/// The same of nodes that one worker runs.
pub fn deliveries_count<A: AllNodes>()
    ensures { (net : PureNet) (c d : Machine A.State A.Note) (history : ℕ → List (Taken A.Note))
        → IsNet net → Woven A.kind net c history d
        → waiting_on net c + sent_by_all A.kind net c.node history ≡ taken_by_all net history + waiting_on net d }
{}

/// The messages that are sent in a replay are those that it takes and those that wait at its end.
pub fn replays_count<N: NodeCore>()
    ensures { (net : PureNet) (nodes : List N.State) (journal : List Delivery) (c : Machine N.State N.Note)
        → IsNet net → AreUnbegun N.kind net 0 nodes → Replay N.kind net nodes journal ≡ Some c
        → SentIn N.kind net nodes journal ≡ length journal + waiting_on net c }
{}
