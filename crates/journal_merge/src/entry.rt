ghost use Rattle.std.specs.Prelude.{◌≡◌};
ghost use Rattle.journal_merge.specs.Timing.{tagged_of};

use meta_base::{ArcId, Delivery, NodeId};

/// A delivery with the node that took it. The order of such entries is that of a journal, so the fields stand in the
/// order in which they are compared.
#[derive(Clone, Copy, Debug, PartialEq, Eq, PartialOrd, Ord)]
pub struct NodeDelivery {
    clock: u64,
    node: NodeId,
    arc: ArcId,
}

impl NodeDelivery {
    /// The delivery that the node took.
    pub fn new(node: NodeId, delivery: Delivery) -> NodeDelivery
        ensures { tagged_of result ≡ (node.0, delivery) }
    {
        NodeDelivery {
            clock: delivery.clock,
            node,
            arc: delivery.arc,
        }
    }

    pub(crate) fn clock(&self) -> u64
        ensures { result ≡ self.now.clock }
    {
        self.clock
    }

    pub(crate) fn node(&self) -> NodeId
        ensures { result ≡ self.now.node }
    {
        self.node
    }

    pub(crate) fn delivery(&self) -> Delivery
        ensures { result ≡ (tagged_of self.now).1 }
    {
        Delivery {
            clock: self.clock,
            arc: self.arc,
        }
    }
}
