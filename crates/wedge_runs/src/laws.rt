ghost use Rattle.std.specs.Prelude.{◌≡◌, ◌≢◌, ◌≤◌, ℕ, Bool, true, List, [], ◌∷◌, length, map, take};
ghost use Rattle.alg_model.specs.Expressions.{PureAlg, PureLabel, PureValue};
ghost use Rattle.alg_model.specs.Formation.{IsAlg};
ghost use Rattle.net_graph.specs.Changes.{After};
ghost use Rattle.settled_laws.specs.Pair.{pair_net, table_by_q, table_by_p, Fits, Improves};
ghost use Rattle.settled_laws.specs.Wedge.{wedge_net, wedge_changes};
ghost use Rattle.vector_runs.specs.Runs.{PurePhase, IsRun, new_nodes};
ghost use Rattle.wedge_runs.specs.WedgePhases.{EachDrainsAlone, HaveSameArcs, ends, wedge_two, wedge_three, wedge_four};
ghost use Rattle.wedge_runs.specs.WedgePhases.{wedge_journals, wedge_later, wedge_past, wedge_last};

/// Path-vector nodes on the wedge have a memory. Where the label makes the value better, each of the four phases has
/// one replay that drains its machine, of one delivery (`replays`). So every run that is quiet in the end has the same
/// four phases (`only`), every other run has the same ones before its last (`begins`), and with four turns such a run
/// is there (`some`).
///
/// The last three networks are those that the changes make of the first (`networks`), and the second is that of the
/// pair (`pair`). The fourth has the same arcs with the same labels (`same_arcs`), in another order (`orders`). Yet p
/// comes to route by q on the second, and q by p on the fourth, and these are two tables (`differ`). The nodes are
/// those of Griffin and Sobrinho 2005 and of Sobrinho 2005, who ask for labels that make no value better.
pub fn wedge_has_a_memory()
    ensures replays { (alg : PureAlg) (l : PureLabel) (v w : PureValue) → IsAlg alg → Fits alg l v →
        Improves alg l v w →
        EachDrainsAlone (new_nodes (wedge_net alg l v)) (wedge_net alg l v) (wedge_later alg l v) wedge_journals }
    ensures only { (alg : PureAlg) (l : PureLabel) (v w : PureValue) → IsAlg alg → Fits alg l v → Improves alg l v w →
        (turns : ℕ) (past : List PurePhase) (last : PurePhase) →
        IsRun (wedge_net alg l v) (wedge_later alg l v) turns past last true →
        (past ≡ wedge_past v w) × (last ≡ wedge_last v w) }
    ensures begins { (alg : PureAlg) (l : PureLabel) (v w : PureValue) → IsAlg alg → Fits alg l v →
        Improves alg l v w → (turns : ℕ) (past : List PurePhase) (last : PurePhase) (quiet : Bool) →
        IsRun (wedge_net alg l v) (wedge_later alg l v) turns past last quiet →
        past ≡ take (length past) (wedge_past v w) }
    ensures some { (alg : PureAlg) (l : PureLabel) (v w : PureValue) → IsAlg alg → Fits alg l v → Improves alg l v w →
        (turns : ℕ) → 4 ≤ turns →
        IsRun (wedge_net alg l v) (wedge_later alg l v) turns (wedge_past v w) (wedge_last v w) true }
    ensures networks { (alg : PureAlg) (l : PureLabel) (v : PureValue) →
        (After (wedge_net alg l v) (wedge_changes l) 1 ≡ wedge_two alg l v)
        × (After (wedge_net alg l v) (wedge_changes l) 2 ≡ wedge_three alg l v)
        × (After (wedge_net alg l v) (wedge_changes l) 3 ≡ wedge_four alg l v) }
    ensures pair { (alg : PureAlg) (l : PureLabel) (v : PureValue) → wedge_two alg l v ≡ pair_net alg l v }
    ensures same_arcs { (alg : PureAlg) (l : PureLabel) (v : PureValue) →
        HaveSameArcs (wedge_two alg l v) (wedge_four alg l v) }
    ensures orders { (alg : PureAlg) (l : PureLabel) (v : PureValue) →
        (map ends (wedge_two alg l v).arcs ≡ (0, 1) ∷ (1, 0) ∷ [])
        × (map ends (wedge_four alg l v).arcs ≡ (1, 0) ∷ (0, 1) ∷ []) }
    ensures differ { (v w : PureValue) → table_by_q v w ≢ table_by_p v w }
{}
