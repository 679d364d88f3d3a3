// What nodes report to each other, and what of it they keep.
use meta_base::{DestId, NodeId};
use path_store::PathId;

// The number of a report, from 0 in the order in which they were made.
#[derive(Clone, Copy, Debug, PartialEq, Eq)]
pub(crate) struct ReportId(pub u32);

// A route that was reported: its value in the algebra's form, and its path. The node after the first stands beside the
// path, so that it need not be looked up; where there is none, the first.
#[derive(Drop)]
pub(crate) struct Reported<S> {
    pub sig: S,
    pub path: PathId,
    pub next: NodeId,
}

// What a node reported of a destination: its route, or that it has none. The stamp is the clock of the delivery that made
// it do so, and 0 at the start.
#[derive(Drop)]
pub(crate) struct Report<S> {
    pub node: NodeId,
    pub dest: DestId,
    pub stamp: u64,
    pub route: Option<Reported<S>>,
}

// A route that a node chose: its value, and the path that goes on after the node, if one does.
#[derive(Drop)]
pub(crate) struct Choice<S> {
    pub sig: S,
    pub rest: Option<PathId>,
}

// Of one destination: by arc the report that was heard there last, and by node the one that it made last.
#[derive(Drop)]
pub(crate) struct Column {
    pub heard: Vec<Option<ReportId>>,
    pub rows: Vec<Option<ReportId>>,
}
