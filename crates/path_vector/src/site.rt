use crate::update::Update;
use meta_base::{ArcId, NodeId};
use net_graph::Net;

// Where rows are chosen: the node of that number in a network, whose algebra it is.
#[derive(Drop)]
pub(crate) struct Site<'s, A> {
    pub algebra: &'s A,
    pub net: &'s Net,
    pub node: NodeId,
}

// An update that came to a node on an arc, and the clock that the node gets by it.
#[derive(Drop)]
pub(crate) struct Arrival<'u> {
    pub arc: ArcId,
    pub update: &'u Update,
    pub clock: u64,
}
