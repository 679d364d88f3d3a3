// The network of the cards that a node holds.
ghost use Rattle.std.specs.Prelude.{◌≡◌, ◌++◌, ◌<◌, [], ℕ, false, Some, IfOk, IfSome, OnOk, length, map, slice_get};
ghost use Rattle.std.specs.Arc.{arc_value};
ghost use Rattle.net_graph.specs.Lines.{arcs_with, empty_net};
ghost use Rattle.net_graph.specs.Nets.{PureArc, IsNet, has_arc, has_origin};
ghost use Rattle.flood_node.specs.Cards.{card_of};
ghost use Rattle.flood_node.specs.Node.{has_card};
ghost use Rattle.flood_node.specs.Rows.{AreTrueAt, IsAsReported, is_placed, origins_on, reported_origins};
ghost use Rattle.flood_node.specs.Reported.{AreTrueCards, Reported};
ghost use Rattle.flood_node.specs.Views.{pure_card};

use crate::card::Card;
use alg_model::Alg;
use meta_base::{ArcId, DestId, NoMemory, NodeId};
use net_graph::{Net, NetDraft};
use std::alloc::Global;
use std::sync::Arc;

fn copy_alg(alloc: Global, alg: &Alg) -> Result<Alg, NoMemory>
    ensures { IfOk result (λ copied. copied ≡ alg.now) }
{
    alg.copy_part(alloc, alg.tree())
}

// Adds the names of a network.
fn add_names(net: &Net, draft: &mut NetDraft) -> Result<(), NoMemory>
    requires { draft.old ≡ empty_net net.now.alg }
    ensures { OnOk result (draft.new ≡ record net.now { arcs = []; origins = [] }) }
{
    for node in 0..net.node_count() {
        draft.add_node(net.node_name(NodeId(node as u32)))?;
    }
    for dest in 0..net.dest_count() {
        draft.add_dest(net.dest_name(DestId(dest as u32)))?;
    }
    Ok(())
}

// For each node its card, if it is among these, which are true cards of the network.
fn cards_by_node<'c>(
    alloc: Global,
    net: &Net,
    cards: &'c [Arc<Card>],
) -> Result<Vec<Option<&'c Card>>, NoMemory>
    requires { AreTrueCards net.now (map (λ c. pure_card (arc_value c)) cards.now) }
    ensures net { IsNet net.now }
    ensures count { IfOk result (λ placed. length placed.items ≡ length net.now.nodes) }
    ensures cards { IfOk result (λ placed. AreTrueAt (λ c. pure_card c.now) net.now placed.items) }
    ensures placed { IfOk result (λ placed. (i : ℕ) →
        is_placed placed.items i ≡ has_card (map (λ c. pure_card (arc_value c)) cards.now) i) }
{
    let count = net.node_count();
    let mut placed = Vec::with_capacity(alloc, count)?;
    for _made in 0..count {
        placed.push(None)?;
    }
    for card in cards {
        let card: &Card = card;
        placed[card.node.0 as usize] = Some(card);
    }
    Ok(placed)
}

// Adds the arc of that number, as the card of its tail tells of it.
fn add_arc(
    alloc: Global,
    net: &Net,
    id: ArcId,
    card: &Card,
    draft: &mut NetDraft,
) -> Result<(), NoMemory>
    requires net { IsNet net.now }
    requires arc { (a : PureArc) × (slice_get net.now.arcs id.0 ≡ Some a)
        × (pure_card card.now ≡ card_of net.now a.tail) × (has_arc draft.old a.tail a.head ≡ false) }
    requires room { length draft.old.arcs < length net.now.arcs }
    requires draft { draft.old ≡ record net.now { arcs = draft.old.arcs; origins = [] } }
    ensures { OnOk result (IfSome (slice_get net.now.arcs id.0) (λ a.
        draft.new ≡ record draft.old { arcs = arcs_with a.tail a.head a.label draft.old.arcs })) }
{
    let arc = &card.arcs.as_slice()[net.place_of(id)];
    let label = arc.label.copy(alloc)?;
    draft.add_arc(card.node, arc.head, label)
}

// Adds the arcs that the cards tell of, in the network's order.
fn add_arcs(
    alloc: Global,
    net: &Net,
    cards: &[Option<&Card>],
    draft: &mut NetDraft,
) -> Result<(), NoMemory>
    requires count { length cards.now ≡ length net.now.nodes }
    requires cards { AreTrueAt (λ c. pure_card c.now) net.now cards.now }
    requires draft { draft.old ≡ record net.now { arcs = []; origins = [] } }
    ensures { OnOk result (draft.new ≡ record (Reported net.now (is_placed cards.now)) { origins = [] }) }
{
    for number in 0..net.arc_count() {
        let id = ArcId(number as u32);
        let tail = net.arc(id).tail;
        if let Some(card) = cards[tail.0 as usize] {
            add_arc(alloc, net, id, card, draft)?;
        }
    }
    Ok(())
}

// Adds the origins that the card of a node tells of.
fn add_own_origins(
    alloc: Global,
    net: &Net,
    card: &Card,
    draft: &mut NetDraft,
) -> Result<(), NoMemory>
    requires net { IsNet net.now }
    requires node { card.now.node.0 < length net.now.nodes }
    requires card { pure_card card.now ≡ card_of net.now card.now.node.0 }
    requires draft { draft.old ≡ record net.now { arcs = draft.old.arcs; origins = draft.old.origins } }
    requires none { (dest : ℕ) → has_origin draft.old dest card.now.node.0 ≡ false }
    ensures { OnOk result (draft.new ≡ record draft.old {
      origins = draft.old.origins ++ origins_on card.now.node.0 (card_of net.now card.now.node.0).origins;
    }) }
{
    for origin in card.origins.as_slice() {
        let value = origin.value.copy(alloc)?;
        draft.add_origin_of(origin.dest, card.node, value)?;
    }
    Ok(())
}

// Adds the origins that the cards tell of, by node.
fn add_origins(
    alloc: Global,
    net: &Net,
    cards: &[Option<&Card>],
    draft: &mut NetDraft,
) -> Result<(), NoMemory>
    requires net { IsNet net.now }
    requires count { length cards.now ≡ length net.now.nodes }
    requires cards { AreTrueAt (λ c. pure_card c.now) net.now cards.now }
    requires draft { draft.old ≡ record (Reported net.now (is_placed cards.now)) { origins = [] } }
    ensures { OnOk result (draft.new ≡ record draft.old {
      origins = reported_origins net.now (is_placed cards.now) (length net.now.nodes);
    }) }
{
    for card in cards {
        if let Some(card) = card {
            add_own_origins(alloc, net, card, draft)?;
        }
    }
    Ok(())
}

// Adds the names of a network, and what the cards say of it.
fn add_reported(
    alloc: Global,
    net: &Net,
    cards: &[Option<&Card>],
    draft: &mut NetDraft,
) -> Result<(), NoMemory>
    requires net { IsNet net.now }
    requires count { length cards.now ≡ length net.now.nodes }
    requires cards { AreTrueAt (λ c. pure_card c.now) net.now cards.now }
    requires draft { draft.old ≡ empty_net net.now.alg }
    ensures { OnOk result (draft.new ≡ record (Reported net.now (is_placed cards.now)) {
      origins = reported_origins net.now (is_placed cards.now) (length net.now.nodes);
    }) }
{
    add_names(net, draft)?;
    add_arcs(alloc, net, cards, draft)?;
    add_origins(alloc, net, cards, draft)
}

// The network of what the cards say, which are true cards of the network, with its names.
pub(crate) fn reported_net(alloc: Global, net: &Net, cards: &[Arc<Card>]) -> Result<Net, NoMemory>
    requires { AreTrueCards net.now (map (λ c. pure_card (arc_value c)) cards.now) }
    ensures { IfOk result (IsAsReported net.now (has_card (map (λ c. pure_card (arc_value c)) cards.now))) }
{
    let placed = cards_by_node(alloc, net, cards)?;
    let mut draft = NetDraft::new(alloc, copy_alg(alloc, net.alg())?);
    add_reported(alloc, net, &placed, &mut draft)?;
    draft.finish()
}
