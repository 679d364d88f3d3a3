ghost use Rattle.std.specs.Prelude.{◌≡◌, ◌<◌, ℕ, List, length};
ghost use Rattle.std.specs.List.{AllByRecursion};
ghost use Rattle.alg_model.specs.Properties.{monotone, isotone};
ghost use Rattle.net_graph.specs.Nets.{PureNet, IsNet};
ghost use Rattle.net_graph.specs.Tables.{PureRow, NetHas, BestFirst, Optimal};
ghost use Rattle.net_graph.specs.RowTexts.{IsRowOf};

/// At most one table of a destination is made best first.
pub fn best_first_is_unique()
    ensures { (net : PureNet) (dest : ℕ) (t u : List PureRow) → IsNet net → dest < length net.dests →
        BestFirst net dest t → BestFirst net dest u → t ≡ u }
{}

/// Where all labels are monotone and isotone, a table that is made best first is beaten by no walk
/// (Sobrinho 2002; Griffin and Sobrinho 2005).
#[tactic(auto, using(crate::proofs::Unbeaten::optimal))]
pub fn best_first_is_optimal()
    ensures { (net : PureNet) (dest : ℕ) (t : List PureRow) → IsNet net → NetHas monotone net → NetHas isotone net →
        BestFirst net dest t → Optimal net dest t }
{}

/// The rows of a table that is made best first are the network's, over any algebra: their nodes, their
/// destinations, the nodes of their paths and their values.
pub fn best_first_rows_are_the_networks()
    ensures { (net : PureNet) (dest : ℕ) (t : List PureRow) → IsNet net → dest < length net.dests →
        BestFirst net dest t → AllByRecursion (IsRowOf net) t }
{}
