// The values that nodes have for a destination of their own.
ghost use Rattle.std.specs.Prelude.{◌≡◌, ◌<◌, ℕ, length, option_map, IfOk};
ghost use Rattle.alg_model.specs.Views.{pure_value};
ghost use Rattle.net_graph.specs.Nets.{PureNet, origin_value};
ghost use Rattle.stable_check.specs.Checks.{AreOwnValues};

use alg_model::Value;
use meta_base::{DestId, NoMemory, NodeId};
use net_graph::Net;
use std::alloc::Global;

/// For each node the value of its origin of a destination, if it has one, so that it is found without a look at
/// the other origins.
#[derive(Debug, Drop)]
pub struct OwnValues<'a> {
    pub values: Vec<Option<&'a Value>>,
}

impl<'a> OwnValues<'a> {
    /// The values that the network's nodes have. It is refused for want of memory alone.
    pub fn of(alloc: Global, net: &'a Net, dest: DestId) -> Result<OwnValues<'a>, NoMemory>
        requires { dest.0 < length net.now.dests }
        ensures { IfOk result (λ own. AreOwnValues net.now dest.0 own.values.items) }
    {
        let count = net.node_count();
        let mut values = Vec::with_capacity(alloc, count)?;
        for _node in 0..count {
            values.push(None)?;
        }
        for origin in net.origins_of(dest) {
            let place = origin.node.0 as usize;
            values[place] = values[place].or(Some(&origin.value));
        }
        Ok(OwnValues { values })
    }

    /// The node's.
    pub fn at(&self, node: NodeId) -> Option<&'a Value>
        ensures { (net : PureNet) (dest : ℕ) → AreOwnValues net dest self.now.values.items →
            option_map (λ v. pure_value v.now) result ≡ origin_value net dest node.0 }
    {
        *self.values.get(node.0 as usize)?
    }
}
