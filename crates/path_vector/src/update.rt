ghost use Rattle.std.specs.Prelude.{◌≡◌, IfOk};

use crate::node_path::NodePath;
use crate::shared::Shared;
use alg_model::Value;
use meta_base::{DestId, NoMemory};

/// A route as it is reported: its value, and the path from the speaker to the origin. All who keep what they heard
/// share the path.
#[derive(Debug, Drop)]
pub struct SharedRoute {
    pub value: Value,
    pub path: Shared<NodePath>,
}

/// What a node tells those that may route by it: its route for a destination, which all of them share, or that it
/// has none.
#[derive(Debug, Drop)]
pub struct Update {
    pub dest: DestId,
    pub route: Option<Shared<SharedRoute>>,
    /// The clock of the delivery that made the node send it, and 0 where it was sent at the start.
    pub stamp: u64,
}

impl Update {
    ghost use Rattle.path_vector.specs.Updates.{pure_update};

    // The same update for one listener more. It takes no memory.
    pub(crate) fn share(&self) -> Result<Update, NoMemory>
        ensures { IfOk result (λ shared. pure_update shared ≡ pure_update self.now) }
    {
        let route = match &self.route {
            Some(route) => Some(route.share()?),
            None => None,
        };
        Ok(Update {
            dest: self.dest,
            route,
            stamp: self.stamp,
        })
    }
}
