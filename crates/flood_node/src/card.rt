use alg_model::{Label, Value};
use meta_base::{DestId, List, NodeId};
use std::sync::Arc;

/// What a card says of an arc: its head, and its label. The arc's tail is the card's node.
#[derive(Debug, Drop)]
pub struct CardArc {
    pub head: NodeId,
    pub label: Label,
}

/// What a card says of an origin at the card's node.
#[derive(Debug, Drop)]
pub struct CardOrigin {
    pub dest: DestId,
    pub value: Value,
}

/// What a node tells all others of itself, as a link-state advertisement does (RFC 2328, section 12): the arcs that it may
/// route by in file order, and its origins in the order of the destinations.
#[derive(Debug, Drop)]
pub struct Card {
    pub node: NodeId,
    pub arcs: List<CardArc>,
    pub origins: List<CardOrigin>,
}

/// A card on its way. All nodes that hold it share it.
#[derive(Debug, Drop)]
pub struct Flooded {
    pub card: Arc<Card>,
    /// The clock of the delivery that made the node send it, and 0 where it was sent at the start.
    pub stamp: u64,
}

impl Flooded {
    ghost use Rattle.std.specs.Prelude.{◌≡◌, IfOk};
    ghost use Rattle.flood_node.specs.Views.{pure_flooded};

    // The same for one listener more. It takes no memory.
    pub(crate) fn share(&self) -> Result<Flooded, meta_base::NoMemory>
        ensures { IfOk result (λ shared. pure_flooded shared ≡ pure_flooded self.now) }
    {
        Ok(Flooded {
            card: Arc::try_clone(&self.card)?,
            stamp: self.stamp,
        })
    }
}
