// A node's own card.
ghost use Rattle.std.specs.Prelude.{◌≡◌, ◌++◌, ◌<◌, IfOk, OnOk, length, map};
ghost use Rattle.net_graph.specs.Nets.{arcs_from, origin_value};
ghost use Rattle.flood_node.specs.Cards.{card_arc, card_origin, card_origins, card_of};
ghost use Rattle.flood_node.specs.Views.{pure_card, pure_card_arc, pure_card_origin};

use crate::card::{Card, CardArc, CardOrigin};
use meta_base::{DestId, List, NoMemory, NodeId};
use net_graph::Net;
use std::alloc::Global;

// What the card says of the arcs that the node may route by.
fn card_arcs(alloc: Global, net: &Net, node: NodeId) -> Result<List<CardArc>, NoMemory>
    requires { node.0 < length net.now.nodes }
    ensures { IfOk result (λ arcs. map pure_card_arc arcs ≡ map card_arc (arcs_from net.now node.0)) }
{
    let out = net.out_arcs(node);
    let mut arcs = Vec::with_capacity(alloc, out.count())?;
    for place in 0..out.count() {
        let arc = out.get(place);
        let label = arc.label.copy(alloc)?;
        arcs.push(CardArc {
            head: arc.head,
            label,
        })?;
    }
    Ok(List::from_vec(arcs))
}

// Adds what the card says of the node's origin of a destination, if there is one.
fn push_origin(
    alloc: Global,
    net: &Net,
    node: NodeId,
    dest: DestId,
    origins: &mut Vec<CardOrigin>,
) -> Result<(), NoMemory>
    ensures { OnOk result (map pure_card_origin origins.new.items
        ≡ map pure_card_origin origins.old.items ++ card_origin dest.0 (origin_value net.now dest.0 node.0)) }
{
    if let Some(origin) = net.origin_at(dest, node) {
        let value = origin.value.copy(alloc)?;
        origins.push(CardOrigin { dest, value })?;
    }
    Ok(())
}

// What the card says of the node's origins.
fn card_origins(alloc: Global, net: &Net, node: NodeId) -> Result<List<CardOrigin>, NoMemory>
    ensures { IfOk result (λ origins.
        map pure_card_origin origins ≡ card_origins net.now node.0 (length net.now.dests)) }
{
    let mut origins = Vec::new(alloc);
    for dest in 0..net.dest_count() {
        push_origin(alloc, net, node, DestId(dest as u32), &mut origins)?;
    }
    Ok(List::from_vec(origins))
}

// The node's card.
pub(crate) fn card_of(alloc: Global, net: &Net, node: NodeId) -> Result<Card, NoMemory>
    requires { node.0 < length net.now.nodes }
    ensures { IfOk result (λ card. pure_card card ≡ card_of net.now node.0) }
{
    Ok(Card {
        node,
        arcs: card_arcs(alloc, net, node)?,
        origins: card_origins(alloc, net, node)?,
    })
}
