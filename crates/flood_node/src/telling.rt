// What a node sends to those that listen to it.
ghost use Rattle.std.specs.Prelude.{◌≡◌, ◌<◌, [], OnOk, length, map};
ghost use Rattle.net_graph.specs.Nets.{arcs_to};
ghost use Rattle.flood_node.specs.Node.{reported_on};
ghost use Rattle.flood_node.specs.Views.{noted, pure_flooded};

use crate::card::Flooded;
use meta_base::{ArcId, NoMemory, NodeId};
use net_graph::Net;

// Puts the message for each listener of the node into what is empty.
pub(crate) fn tell(
    net: &Net,
    node: NodeId,
    message: Flooded,
    out: &mut Vec<(ArcId, Flooded)>,
) -> Result<(), NoMemory>
    requires out { out.old.items ≡ [] }
    requires node { node.0 < length net.now.nodes }
    ensures { OnOk result (map noted out.new.items ≡ reported_on (arcs_to net.now node.0) (pure_flooded message)) }
{
    tell_all(net.listeners(node), message, out)
}

// Puts the message for each of these arcs into what is empty. The last one gets the message itself, which isn't shared
// once more for it.
fn tell_all(
    arcs: &[ArcId],
    message: Flooded,
    out: &mut Vec<(ArcId, Flooded)>,
) -> Result<(), NoMemory>
    requires { out.old.items ≡ [] }
    ensures { OnOk result (map noted out.new.items ≡ map (λ a. (a.0, pure_flooded message)) arcs.now) }
{
    let [others @ .., last] = arcs else {
        return Ok(());
    };
    out.reserve(arcs.len())?;
    for arc in others {
        out.push_reserved((*arc, message.share()?));
    }
    out.push_reserved((*last, message));
    Ok(())
}
