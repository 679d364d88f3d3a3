ghost use Rattle.std.specs.Prelude.{◌≡◌};
ghost use Rattle.report_check.specs.Findings.{first_optimal, first_stable, is_no_walk, is_stable, is_unbeaten};
ghost use Rattle.report_check.specs.Views.{pure_optimal, pure_stable};

use alg_classes::Instance;
use meta_base::{ArcId, DestId, List, NodeId};
use net_graph::Route;

/// What is found of how good the routes of tables are.
#[derive(Debug, Drop)]
pub enum OptimalFinding {
    /// No walk beats a row.
    Yes,
    /// The path of this row isn't a walk from its node that weighs the row's value.
    NoWalk {
        node: NodeId,
        dest: DestId,
    },
    /// This walk from the node weighs a value that is preferred to that of its row.
    Beaten {
        node: NodeId,
        dest: DestId,
        walk: List<NodeId>,
    },
    /// Neither an origin nor an arc improves a row; but the label on this arc isn't isotone, so a walk may beat one.
    Unsettled {
        arc: ArcId,
        instance: Instance,
    },
}

/// What is found of whether tables are stable.
#[derive(Debug, Drop)]
pub enum StableFinding {
    /// Each row is its node's choice from what the table says.
    Yes,
    /// Nothing offers the route of this row.
    NotOffered {
        node: NodeId,
        dest: DestId,
    },
    /// This offer to the node is better than its row.
    Better {
        node: NodeId,
        dest: DestId,
        offer: Route,
    },
}

/// What tables of routes are judged to be.
#[derive(Debug, Drop)]
pub struct Judgement {
    pub optimal: OptimalFinding,
    pub stable: StableFinding,
}

impl OptimalFinding {
    // Whether nothing was found.
    pub(crate) fn is_yes(&self) -> bool
        ensures { result ≡ is_unbeaten (pure_optimal self.now) }
    {
        matches!(self, OptimalFinding::Yes)
    }

    // Whether a path was found that is no walk of its value.
    pub(crate) fn is_no_walk(&self) -> bool
        ensures { result ≡ is_no_walk (pure_optimal self.now) }
    {
        matches!(self, OptimalFinding::NoWalk { .. })
    }

    // What was found, or else the other.
    pub(crate) fn or(self, other: OptimalFinding) -> OptimalFinding
        ensures { pure_optimal result ≡ first_optimal (pure_optimal self) (pure_optimal other) }
    {
        match self {
            OptimalFinding::Yes => other,
            found => found,
        }
    }
}

impl StableFinding {
    // Whether nothing was found.
    pub(crate) fn is_yes(&self) -> bool
        ensures { result ≡ is_stable (pure_stable self.now) }
    {
        matches!(self, StableFinding::Yes)
    }

    // What was found, or else the other.
    pub(crate) fn or(self, other: StableFinding) -> StableFinding
        ensures { pure_stable result ≡ first_stable (pure_stable self) (pure_stable other) }
    {
        match self {
            StableFinding::Yes => other,
            found => found,
        }
    }
}
