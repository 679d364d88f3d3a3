// Rows that a table lends.
use label_code::Word;
use meta_base::{DestId, NodeId};
use path_store::Trail;

/// A route: the words of its value, and the path from the node itself to the origin.
#[derive(Debug, Drop)]
pub struct LentRoute<'t> {
    pub words: &'t [Word],
    pub path: Trail<'t>,
}

/// A node's route for a destination, or none.
#[derive(Debug, Drop)]
pub struct LentRow<'t> {
    pub node: NodeId,
    pub dest: DestId,
    pub route: Option<LentRoute<'t>>,
}
