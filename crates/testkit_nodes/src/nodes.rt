ghost use Rattle.std.specs.Prelude.{◌≡◌, ℕ, List, IfOk, map, slice_get};
ghost use Rattle.net_graph.specs.Views.{pure_row};
ghost use Rattle.node_core.specs.Machine.{AreUnbegun};
ghost use Rattle.node_core.specs.MachineOf.{machine_of, net_of};
ghost use Rattle.node_core.specs.Running.{IsRunning};
ghost use Rattle.path_vector.specs.Node.{PvState, node_rows, path_vector};
ghost use Rattle.path_vector.specs.Nodes.{state_of};
ghost use Rattle.path_vector.specs.Updates.{pure_update};

use alg_model::Algebra;
use meta_base::{List, NoMemory, NodeId};
use net_graph::{Net, RouteRow};
use node_core::Config;
use path_vector::{PvNode, rows_of};
use std::alloc::Global;

/// The new path-vector nodes of a network, in order. The algebra is the network's.
pub fn new_nodes<'a, A: Algebra>(
    alloc: Global,
    algebra: &'a A,
    net: &'a Net,
) -> Result<List<PvNode<'a, A>>, NoMemory>
    requires { A.expression algebra.now ≡ net.now.alg.expression }
    ensures { IfOk result (λ nodes. AreUnbegun path_vector net.now 0 (map state_of nodes)) }
{
    let count = net.node_count();
    let mut nodes = Vec::with_capacity(alloc, count)?;
    for number in 0..count {
        nodes.push(PvNode::new(alloc, algebra, net, NodeId(number as u32))?)?;
    }
    Ok(List::from_vec(nodes))
}

/// The rows of the machine's nodes as they are now, by destination, then in the order of the nodes.
pub fn rows_now<A: Algebra>(
    alloc: Global,
    config: &Config<'_, PvNode<'_, A>>,
) -> Result<List<RouteRow>, NoMemory>
    requires { IsRunning path_vector (net_of config.now) (machine_of state_of pure_update config.now) }
    ensures { IfOk result (λ rows. (states : List PvState)
        → ((i : ℕ) → (machine_of state_of pure_update config.now).node i ≡ slice_get states i)
        → map pure_row rows ≡ node_rows (net_of config.now) states) }
{
    rows_of(alloc, config.nodes())
}
