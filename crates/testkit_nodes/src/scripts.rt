ghost use Rattle.std.specs.Prelude.{◌≡◌, ◌∷◌, IfOk, map};
ghost use Rattle.net_graph.specs.Changes.{AreChanges};
ghost use Rattle.net_graph.specs.Views.{pure_change};
ghost use Rattle.node_core.specs.Machine.{AreUnbegun};
ghost use Rattle.node_core.specs.MachineOf.{machine_of, net_of};
ghost use Rattle.node_core.specs.Running.{IsRunning};
ghost use Rattle.path_vector.specs.Node.{path_vector};
ghost use Rattle.path_vector.specs.Nodes.{state_of};
ghost use Rattle.path_vector.specs.Updates.{pure_update};
ghost use Rattle.vector_runs.specs.Runs.{AreLater};

use alg_model::Algebra;
use meta_base::{List, MAX_FILE_BYTES, NoMemory};
use net_graph::{Change, Net};
use node_core::Config;
use path_vector::PvNode;
use std::alloc::Global;
use std::test::Fail;
use testkit_readers::algebra;
use topology_file::{NetFile, read_net};
use vector_runs::carried_nodes;

/// What a change script means: the network of the file over the algebra of the expression, with its changes.
pub fn change_script(alloc: Global, expression: &str, text: &[u8]) -> Result<NetFile, Fail>
    ensures { IfOk result (λ file. AreChanges file.net (map pure_change file.changes)) }
{
    if text.len() > MAX_FILE_BYTES {
        return Err("the network file is too long".into());
    }
    let alg = algebra(alloc, expression)?;
    Ok(read_net(alloc, alg, text)?)
}

/// The networks after the first of these changes, the first two, and so on.
pub fn networks_after(alloc: Global, net: &Net, changes: &[Change]) -> Result<Vec<Net>, NoMemory>
    requires { AreChanges net.now (map pure_change changes.now) }
    ensures { IfOk result (λ nets. AreLater net.now nets.items) }
{
    match changes {
        [] => Ok(Vec::new(alloc)),
        [change, rest @ ..] => {
            let next = net.changed(alloc, change)?;
            match networks_after(alloc, &next, rest) {
                Ok(nets) => led_by(next, nets),
                Err(NoMemory) => {
                    drop(next);
                    Err(NoMemory)
                }
            }
        }
    }
}

// These networks with that one before them.
fn led_by(net: Net, mut nets: Vec<Net>) -> Result<Vec<Net>, NoMemory>
    ensures { IfOk result (λ led. led.items ≡ net ∷ nets.items) }
{
    match nets.insert(0, net) {
        Ok(()) => Ok(nets),
        Err(refused) => {
            drop(refused);
            drop(nets);
            Err(NoMemory)
        }
    }
}

/// The nodes of the machine, carried to a network that differs from theirs in its arcs alone.
pub fn carried_from<'a, A: Algebra>(
    alloc: Global,
    config: Config<'a, PvNode<'a, A>>,
    next: &'a Net,
) -> Result<List<PvNode<'a, A>>, NoMemory>
    requires running { IsRunning path_vector (net_of config) (machine_of state_of pure_update config) }
    requires next { next.now ≡ record (net_of config) { arcs = next.now.arcs } }
    ensures { IfOk result (λ nodes. AreUnbegun path_vector next.now 0 (map state_of nodes)) }
{
    let (nodes, _waiting) = config.into_parts();
    let carried = carried_nodes(alloc, nodes, next)?;
    Ok(carried)
}
