// How large a network may be, by the edition of its algebra.
ghost use Rattle.std.specs.Prelude.{◌≡◌};
ghost use Rattle.alg_model.specs.declared.edition.Edition.{Edition};
ghost use Rattle.alg_model.specs.Numbers.{IsMost, limits_of};
ghost use Rattle.net_graph.specs.Limits as limits;
ghost use Rattle.net_graph.specs.declared.route.TheConstants.{MAX_ROW_NUMBER};

use alg_model::Edition;

/// The most nodes of a network in any edition.
pub const MOST_NODES: usize = 4_096;

/// The most destinations of a network in any edition.
pub const MOST_DESTS: usize = 64;

/// The most arcs of a network, as many in each edition.
pub const MAX_ARCS: usize = 8_192;

/// The most nodes of a network of this edition.
pub fn max_nodes(edition: Edition) -> usize
    ensures { result ≡ limits.max_nodes edition }
{
    edition.limits().nodes
}

/// The most destinations of a network of this edition.
pub fn max_dests(edition: Edition) -> usize
    ensures { result ≡ limits.max_dests edition }
{
    edition.limits().dests
}

/// The most changes of a network of this edition.
pub fn max_changes(edition: Edition) -> usize
    ensures { result ≡ limits.max_changes edition }
{
    edition.limits().changes
}

/// The bounds of networks and rows are the numbers of the specification. Those of nodes and destinations are the
/// greatest of any edition.
#[tactic(auto, using(crate::specs::NetLaws::most_of_nodes, crate::specs::NetLaws::most_of_dests))]
pub fn numbers_are_specified()
    ensures nodes { IsMost limits.max_nodes MOST_NODES }
    ensures dests { IsMost limits.max_dests MOST_DESTS }
    ensures arcs { MAX_ARCS ≡ limits.max_arcs }
    ensures row { MAX_ROW_NUMBER ≡ limits.max_row_number }
{}

/// Networks have as many arcs in each edition: what counts them asks for none.
#[tactic(auto, using(crate::specs::NetLaws::arcs_alike))]
pub fn editions_are_alike()
    ensures { (e : Edition) → (limits_of e).arcs ≡ limits.max_arcs }
{}
