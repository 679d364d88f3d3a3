use meta_base::{Delivery, List, NodeId};

/// The deliveries to one node, oldest first.
#[derive(Debug, Drop)]
pub struct NodeLog {
    pub node: NodeId,
    pub entries: List<Delivery>,
}
