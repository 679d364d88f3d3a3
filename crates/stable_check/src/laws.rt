ghost use Rattle.std.specs.Prelude.{◌↔◌, ℕ, List};
ghost use Rattle.alg_model.specs.Properties.{isotone};
ghost use Rattle.net_graph.specs.Nets.{PureNet, IsNet};
ghost use Rattle.net_graph.specs.Tables.{PureRow, NetHas, Optimal, Relaxed};

/// Where all labels are isotone, a table is relaxed exactly where it is optimal (Griffin and Sobrinho 2005;
/// Sobrinho 2005). So there the look at single origins and arcs of [`crate::is_relaxed`] tells that no walk
/// is better than a row.
#[tactic(auto, using(crate::proofs::Optima::relaxed_optimal))]
pub fn relaxed_is_optimal()
    ensures { (net : PureNet) (dest : ℕ) (t : List PureRow) → IsNet net → NetHas isotone net →
        (Relaxed net dest t ↔ Optimal net dest t) }
{}
