use alg_model::Algebra;
use arc_labels::Neighbour;
use meta_base::{ArcId, DestId, NodeId};
use net_graph::Net;

// Where rows are chosen: the node of that number in a network, whose algebra it is, with the values of its own origins
// by destination, and the neighbours that it may route by, in the order of the arcs to them.
#[derive(Drop)]
pub(crate) struct Site<'s, A: Algebra> {
    pub algebra: &'s A,
    pub net: &'s Net,
    pub node: NodeId,
    pub own: &'s [Option<A::Sig>],
    pub speakers: &'s [Neighbour<'s, A::Lab>],
}

// What a node is sent of a destination: on which arc, where that one stands among the node's arcs, the value, and the
// clock that the node gets by it.
#[derive(Drop)]
pub(crate) struct Arrival<'t, S> {
    pub arc: ArcId,
    pub place: usize,
    pub dest: DestId,
    pub value: &'t Option<S>,
    pub clock: u64,
}
