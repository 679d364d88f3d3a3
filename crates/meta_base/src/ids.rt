/// A node of a network, numbered from 0 in the order in which the network's file names them.
#[derive(Clone, Copy, Debug, PartialEq, Eq, PartialOrd, Ord)]
pub struct NodeId(pub u32);

/// A destination of a network, numbered from 0 in order of first sight.
#[derive(Clone, Copy, Debug, PartialEq, Eq, PartialOrd, Ord)]
pub struct DestId(pub u32);

/// An arc of a network, numbered from 0 in file order.
#[derive(Clone, Copy, Debug, PartialEq, Eq, PartialOrd, Ord)]
pub struct ArcId(pub u32);

/// A place in a text: the line and the column, both from 1, columns in bytes.
#[derive(Clone, Copy, Debug, PartialEq, Eq)]
pub struct Place {
    pub line: u32,
    pub column: u32,
}

/// One event of a path-vector run: the listener of `arc` took the front message of that arc's link,
/// and its clock became `clock`.
#[derive(Clone, Copy, Debug, PartialEq, Eq)]
pub struct Delivery {
    pub clock: u64,
    pub arc: ArcId,
}

/// Which file of a command is meant.
#[derive(Clone, Copy, Debug, PartialEq, Eq)]
pub enum Which {
    /// The file of the routing algebra's expression.
    Expr,
    /// The file of the network.
    Network,
    /// The file of a report of routes.
    Report,
}
