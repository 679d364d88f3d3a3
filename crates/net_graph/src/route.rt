ghost use Rattle.std.specs.Prelude.{◌≡◌, IfOk};

use alg_model::{Amount, Value};
use meta_base::{DestId, List, NoMemory, NodeId};
use std::alloc::Global;

/// The greatest number of the value of a row: the next arc's label may still be applied to it.
pub const MAX_ROW_NUMBER: Amount = 1 << 119;

/// A route: a value, and the path from the node itself to the origin.
#[derive(Debug, Drop)]
pub struct Route {
    pub value: Value,
    pub path: List<NodeId>,
}

impl Route {
    ghost use Rattle.net_graph.specs.Views.{pure_route};

    /// An equal route.
    pub fn copy(&self, alloc: Global) -> Result<Route, NoMemory>
        ensures { IfOk result (λ copied. pure_route copied ≡ pure_route self.now) }
    {
        Ok(Route {
            value: self.value.copy(alloc)?,
            path: List::from_vec(Vec::from_slice(alloc, self.path.as_slice())?),
        })
    }
}

/// A node's route for a destination, or none.
#[derive(Debug, Drop)]
pub struct RouteRow {
    pub node: NodeId,
    pub dest: DestId,
    pub route: Option<Route>,
}

/// The routes for a destination: one row for each node of the network, in order.
#[derive(Debug, Drop)]
pub struct DestTable {
    pub dest: DestId,
    pub rows: List<RouteRow>,
}
