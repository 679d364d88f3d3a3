ghost use Rattle.std.specs.Prelude.{◌≡◌, ◌<◌, [], ◌∷◌, ◌++◌, map, cond, is_some, filter, length, IfOk, OnOk, option_map};
ghost use Rattle.net_graph.specs.Nets.{PureArc, IsNet, arcs_to, has_arc};
ghost use Rattle.path_vector.specs.Node.{reported_on};
ghost use Rattle.path_vector.specs.Updates.{noted, pure_update, spoken_in};

use crate::update::Update;
use meta_base::{ArcId, List, NoMemory, NodeId};
use net_graph::{Arc, Net};
use node_core::Outgoing;
use std::alloc::Global;

// An equal update for each listener of the node.
pub(crate) fn reported(
    alloc: Global,
    net: &Net,
    node: NodeId,
    update: Update,
) -> Result<Outgoing<Update>, NoMemory>
    requires { node.0 < length net.now.nodes }
    ensures { IfOk result (λ out. map noted out ≡ reported_on (arcs_to net.now node.0) (pure_update update)) }
{
    report_all(alloc, net.listeners(node), update)
}

// An equal update for each of these arcs. The last one gets the update itself, which isn't copied for it.
fn report_all(alloc: Global, arcs: &[ArcId], update: Update) -> Result<Outgoing<Update>, NoMemory>
    ensures { IfOk result (λ out. map noted out ≡ map (λ a. (a.0, pure_update update)) arcs.now) }
{
    let [others @ .., last] = arcs else {
        return Ok(List::new(alloc));
    };
    let mut out = Vec::with_capacity(alloc, arcs.len())?;
    for arc in others {
        out.push_reserved((*arc, update.share()?));
    }
    out.push_reserved((*last, update));
    Ok(List::from_vec(out))
}

// Whether the node spoke on the arc in the network that it comes from, if it was carried.
pub(crate) fn spoke_on(before: Option<&Net>, arc: &Arc<'_>) -> bool
    ensures { result ≡ spoken_in (option_map (λ n. n.now) before.entry) arc.now.tail.0 arc.now.head.0 }
{
    match before {
        Some(net) => net.has_arc(arc.tail, arc.head),
        None => false,
    }
}

// Whether the listener on an arc doesn't know the row yet that the update tells of.
fn is_news(before: Option<&Net>, arc: &Arc<'_>, is_other: bool, update: &Update) -> bool
    ensures { result ≡ cond (spoken_in (option_map (λ n. n.now) before.entry) arc.now.tail.0 arc.now.head.0)
        is_other (is_some update.now.route) }
{
    if spoke_on(before, arc) {
        return is_other;
    }
    update.route.is_some()
}

// Puts an equal update on the arc, if it is news there.
fn report_if(
    alloc: Global,
    is_news: bool,
    arc: ArcId,
    update: &Update,
    out: &mut Outgoing<Update>,
) -> Result<(), NoMemory>
    ensures { OnOk result (map noted out.new ≡
        map noted out.old ++ cond is_news ((arc.0, pure_update update.now) ∷ []) []) }
{
    if is_news {
        out.push((arc, update.share()?))?;
    }
    Ok(())
}

// Tells the listeners of a node that begins of its row, unless they know it: where the node spoke on the arc
// before, if the row is another than it was then, and elsewhere if there is a route.
pub(crate) fn report_begun(
    alloc: Global,
    net: &Net,
    before: Option<&Net>,
    node: NodeId,
    is_other: bool,
    update: &Update,
    out: &mut Outgoing<Update>,
) -> Result<(), NoMemory>
    requires net { IsNet net.now }
    requires node { node.0 < length net.now.nodes }
    ensures { OnOk result (map noted out.new ≡ map noted out.old ++
        reported_on (filter (λ (a : PureArc). cond (spoken_in (option_map (λ n. n.now) before.entry) a.tail a.head)
        is_other (is_some update.now.route)) (arcs_to net.now node.0)) (pure_update update.now)) }
{
    for id in net.listeners(node) {
        let is_news = is_news(before, &net.arc(*id), is_other, update);
        report_if(alloc, is_news, *id, update, out)?;
    }
    Ok(())
}
