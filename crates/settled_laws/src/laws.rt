ghost use Rattle.std.specs.Prelude.{◌≡◌, ◌↔◌, ℕ, List};
ghost use Rattle.alg_model.specs.Expressions.{PureAlg, PureLabel, PureValue};
ghost use Rattle.alg_model.specs.Application.{IsLabel};
ghost use Rattle.alg_model.specs.Formation.{IsAlg};
ghost use Rattle.alg_model.specs.Properties.{monotone, strict};
ghost use Rattle.alg_model.specs.Verdicts.{PureVerdict, holds, IsExact};
ghost use Rattle.net_graph.specs.Nets.{PureNet, IsNet};
ghost use Rattle.net_graph.specs.Tables.{PureRow, NetHas, BestFirst, Stable, AreStableRows, AreSettledRows};
ghost use Rattle.settled_laws.specs.Pair.{pair_net, table_by_q, table_by_p, Fits, Improves};
ghost use Rattle.settled_laws.specs.UniqueTables.{LabelsAreMonotone, TablesAreUnique};

/// Where all labels are monotone, a table that is made best first is stable: a route is better than what an arc makes
/// of it, since where the value isn't worse the path is longer (after Sobrinho 2005; Griffin and Sobrinho 2005).
#[tactic(auto, using(crate::proofs::BestFirst::best_first_is_stable))]
pub fn best_first_is_stable()
    ensures { (net : PureNet) (dest : ℕ) (t : List PureRow) → IsNet net → NetHas monotone net → BestFirst net dest t →
        Stable net dest t }
{}

/// Where all labels are monotone, at most one table of a destination is stable, values and paths (after Sobrinho 2005,
/// who asks for strictly monotone labels, without ties broken by the path).
#[tactic(auto, using(crate::specs::Agreement::stable_is_unique))]
pub fn stable_is_unique()
    ensures { (net : PureNet) (dest : ℕ) (t u : List PureRow) → NetHas monotone net → Stable net dest t →
        Stable net dest u → t ≡ u }
{}

/// The rows of stable tables of all destinations are settled: where all labels are monotone, no other rows are those
/// of stable tables.
pub fn stable_rows_are_settled()
    ensures { (net : PureNet) (rows : List PureRow) → AreStableRows net rows → AreSettledRows net rows }
{}

/// Labels that are strictly monotone are monotone, so all of this holds of them too.
#[tactic(auto, using(crate::proofs::StrictLabels::strict_net_is_monotone))]
pub fn strict_is_monotone()
    ensures { (net : PureNet) → NetHas strict net → NetHas monotone net }
{}

/// Two nodes with an arc each way and a value of their own make a network, with any label and value that a text of the
/// algebra's edition can hold.
#[tactic(auto, using(crate::specs::PairIsNet::pair_is_net))]
pub fn pair_is_net()
    ensures { (alg : PureAlg) (l : PureLabel) (v : PureValue) → IsAlg alg → Fits alg l v → IsNet (pair_net alg l v) }
{}

/// Where the label makes the value better, that network has two stable tables: either node may route by the other,
/// which then keeps its own value.
#[tactic(auto, using(crate::specs::PairTables::tables_differ))]
pub fn improving_pair_has_two_tables()
    ensures by_q { (alg : PureAlg) (l : PureLabel) (v w : PureValue) → IsAlg alg → Fits alg l v → Improves alg l v w →
        Stable (pair_net alg l v) 0 (table_by_q v w) }
    ensures by_p { (alg : PureAlg) (l : PureLabel) (v w : PureValue) → IsAlg alg → Fits alg l v → Improves alg l v w →
        Stable (pair_net alg l v) 0 (table_by_p v w) }
    ensures differ { (v w : PureValue) → ¬ (table_by_q v w ≡ table_by_p v w) }
{}

/// In every network over an algebra any two stable tables of one destination are equal, exactly if all labels of the
/// algebra are monotone.
#[tactic(auto, using(crate::specs::OneTable::unique_exactly_where_monotone))]
pub fn tables_are_unique_exactly_where_labels_are_monotone()
    ensures { (alg : PureAlg) → IsAlg alg → (TablesAreUnique alg ↔ LabelsAreMonotone alg) }
{}

/// So a verdict on monotone that is exact for all labels of an algebra decides it.
#[tactic(auto, using(crate::specs::OneTable::verdict_decides))]
pub fn monotone_verdict_decides_uniqueness()
    ensures { (alg : PureAlg) (verdict : PureVerdict) → IsAlg alg →
        IsExact monotone alg.expression (IsLabel alg.expression) verdict → ((verdict ≡ holds) ↔ TablesAreUnique alg) }
{}
