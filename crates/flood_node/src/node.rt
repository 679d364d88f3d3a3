ghost use Rattle.std.specs.Prelude.{◌≡◌, ◌<◌, ◌++◌, ◌∷◌, [], ℕ, true, false, IfOk, OnErr, OnOk, length, map};
ghost use Rattle.std.specs.Arc.{arc_value};
ghost use Rattle.flood_node.specs.Cards.{PureFlooded, card_of};
ghost use Rattle.flood_node.specs.Lawful.{flooding_is_lawful};
ghost use Rattle.flood_node.specs.Node.{FloodState, Begin, flooding, holds, new_node, reported_by};
ghost use Rattle.flood_node.specs.Views.{noted, pure_card, pure_flooded};

use crate::card::{Card, Flooded};
use crate::own_card::card_of;
use crate::telling::tell;
use meta_base::{ArcId, List, NoMemory, NodeId};
use net_graph::Net;
use node_core::{NodeCore, Outgoing};
use number_sets::NumberSet;
use std::alloc::Global;
use std::marker::Model;
use std::mem::replace;
use std::sync::Arc;

/// A node that floods, as a router of OSPF does (RFC 2328, section 13): at the start it sends its card to all that listen
/// to it, and it keeps each card that it didn't hold before and sends it on to them. Since a network stays as it is while
/// its nodes flood, a card needs neither age nor sequence number: one of a node whose card is held already is let go.
/// So a node holds at most one card for each node of the network. Contracts see its state.
#[derive(Drop)]
pub struct FloodNode<'a> {
    net: &'a Net,
    number: NodeId,
    is_begun: bool,
    // The cards that it holds, in the order in which they came, and the numbers of their nodes.
    cards: Vec<Arc<Card>>,
    held: NumberSet,
    last: u64,
}

impl<'a> Model for FloodNode<'a> {
    ghost use Rattle.std.specs.Prelude.{map};
    ghost use Rattle.std.specs.Arc.{arc_value};
    ghost use Rattle.flood_node.specs.Node.{FloodState};
    ghost use Rattle.flood_node.specs.Codes.{coded_state};
    ghost use Rattle.flood_node.specs.Sets.{IsHolder};
    ghost use Rattle.flood_node.specs.Views.{pure_card};

    ghost Value = { FloodState };

    ghost coded = { coded_state };

    ghost view = { λ n. record {
      net = n.net.now;
      number = n.number.0;
      is_begun = n.is_begun;
      cards = map (λ c. pure_card (arc_value c)) n.cards.items;
      last = n.last;
    } };

    ghost invariant = { λ n. IsHolder n.net.now n.number.0 n.held
        (map (λ c. pure_card (arc_value c)) n.cards.items) };
}

impl<'a> FloodNode<'a> {
    /// The node of that number of the network, which isn't begun: it holds no card. It is refused for want of memory
    /// alone.
    pub fn new(alloc: Global, net: &'a Net, number: NodeId) -> Result<FloodNode<'a>, NoMemory>
        requires { number.0 < length net.now.nodes }
        ensures { IfOk result (λ node. node ≡ new_node net.now number.0) }
    {
        Ok(FloodNode {
            net,
            number,
            is_begun: false,
            cards: Vec::new(alloc),
            held: NumberSet::new(alloc),
            last: 0,
        })
    }

    /// Whether the node holds that node's card. It takes no memory.
    pub fn holds(&self, node: NodeId) -> bool
        ensures { result ≡ holds self.now node.0 }
    {
        self.held.contains(node.0)
    }

    /// Whether both nodes hold the same cards, as far as their words of bits tell: a yes is right.
    pub(crate) fn holds_same(&self, other: &FloodNode<'_>) -> bool
        ensures { result ≡ true → (j : ℕ) → holds self.now j ≡ holds other.now j }
    {
        self.held.is_same(&other.held)
    }

    /// Lends the cards that the node holds, in the order in which they came.
    pub(crate) fn cards(&self) -> &[Arc<Card>]
        ensures { map (λ c. pure_card (arc_value c)) result.now ≡ self.now.cards }
    {
        &self.cards
    }

    // Keeps a card that it doesn't hold, and puts into `out`, which is empty, what it sends then. The memory of `out` is
    // used again.
    fn keep(
        &mut self,
        card: &Arc<Card>,
        clock: u64,
        out: &mut Outgoing<Flooded>,
    ) -> Result<(), NoMemory>
        requires out { out.old ≡ [] }
        requires card { holds self.old (arc_value card.now).node.0 ≡ false }
        ensures ok { OnOk result (self.new ≡ record self.old {
          cards = self.old.cards ++ pure_card (arc_value card.now) ∷ [];
          last = clock;
        }) }
        ensures out { OnOk result (map noted out.new ≡ reported_by self.old (pure_card (arc_value card.now)) clock) }
        ensures err { OnErr result ((self.new ≡ self.old) × (out.new ≡ [])) }
    {
        let message = Flooded {
            card: Arc::try_clone(card)?,
            stamp: clock,
        };
        let kept = Arc::try_clone(card)?;
        let mut reported = replace(out, List::new(*self.cards.allocator())).into_vec();
        tell(self.net, self.number, message, &mut reported)?;
        self.cards.reserve(1)?;
        self.held.insert(card.node.0)?;
        self.cards.push(kept).unwrap();
        self.last = clock;
        *out = List::from_vec(reported);
        Ok(())
    }
}

impl<'a> NodeCore for FloodNode<'a> {
    type Message = Flooded;

    ghost State = { FloodState };

    ghost Note = { PureFlooded };

    ghost state = { λ n. n };

    ghost note = { pure_flooded };

    ghost kind = { flooding };

    ghost lawful = { flooding_is_lawful };

    fn stamp(message: &Flooded) -> u64
        ensures { result ≡ flooding.stamp (pure_flooded message.now) }
    {
        message.stamp
    }

    fn on_start(&mut self, out: &mut Outgoing<Flooded>) -> Result<(), NoMemory> {
        let alloc = *self.cards.allocator();
        let card = Arc::new(alloc, card_of(alloc, self.net, self.number)?)?;
        let message = Flooded {
            card: Arc::try_clone(&card)?,
            stamp: 0,
        };
        let mut reported = Vec::new(alloc);
        tell(self.net, self.number, message, &mut reported)?;
        let mut held = NumberSet::new(alloc);
        held.insert(self.number.0)?;
        self.cards = vec![in alloc; card]?;
        self.held = held;
        self.is_begun = true;
        self.last = 0;
        *out = List::from_vec(reported);
        Ok(())
    }

    fn on_message(
        &mut self,
        _arc: ArcId,
        message: &Flooded,
        clock: u64,
        out: &mut Outgoing<Flooded>,
    ) -> Result<(), NoMemory> {
        if self.holds(message.card.node) {
            self.last = clock;
            return Ok(());
        }
        self.keep(&message.card, clock, out)
    }
}
