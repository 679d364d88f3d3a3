ghost use Rattle.std.specs.Prelude.{◌↔◌, ℕ};
ghost use Rattle.alg_model.specs.Expressions.{PureAlg, PureLabel, PureValue};
ghost use Rattle.alg_model.specs.Formation.{IsAlg};
ghost use Rattle.settled_laws.specs.Pair.{pair_net, Fits, Improves};
ghost use Rattle.settled_laws.specs.UniqueTables.{LabelsAreMonotone};
ghost use Rattle.pair_runs.specs.Unfinished.{HasUnfinishedRun, AllRunsAreBounded};

/// Where the label makes the value better, the new nodes of the pair can make any number of deliveries, in order, and
/// something is still on its way. Where p and q take turns, each changes to the route by the other, then both change
/// back to their own values, and so on.
pub fn improving_pair_never_rests()
    ensures { (alg : PureAlg) (l : PureLabel) (v w : PureValue) (count : ℕ) → IsAlg alg → Fits alg l v
        → Improves alg l v w → HasUnfinishedRun (pair_net alg l v) count }
{}

/// So the runs of new nodes are bounded on every network over an algebra, in whatever order deliveries are made,
/// exactly if all labels of the algebra are monotone (after Sobrinho 2005, who asks for strictly monotone labels,
/// without ties broken by the path).
pub fn runs_are_bounded_exactly_where_labels_are_monotone()
    ensures { (alg : PureAlg) → IsAlg alg → (AllRunsAreBounded alg ↔ LabelsAreMonotone alg) }
{}
