ghost use Rattle.std.specs.Prelude.{◌≡◌};
ghost use Rattle.topology_file.specs.Faults.{net_kind_number};
ghost use Rattle.topology_file.specs.declared.faults.NetError.TheVariants.{NoMemory as NoMemoryLeft};

use meta_base::NoMemory;
use sig_text::LitFault;
use thiserror::Error;

/// What a network has a greatest count of.
#[derive(Clone, Copy, Debug, PartialEq, Eq)]
pub enum What {
    /// Nodes: at most [`net_graph::max_nodes`].
    Nodes,
    /// Arcs: at most [`net_graph::MAX_ARCS`], also after the changes so far.
    Arcs,
    /// Destinations: at most [`net_graph::max_dests`].
    Dests,
    /// Changes: at most [`net_graph::max_changes`].
    Changes,
}

/// What is wrong with a line of a network file: the first rule that it breaks, in the order bad line, after
/// `then`, unknown node, node twice, self arc, arc twice, no arc, bad label, origin twice, bad value, too
/// many.
#[derive(Clone, Copy, Debug, PartialEq, Eq)]
pub enum NetKind {
    /// The line has none of the forms of a network file, a name in it is misspelled, or it has more than
    /// [`MAX_LINE_BYTES`](crate::MAX_LINE_BYTES) bytes; printed as N1.
    BadLine,
    /// It names a node that no earlier line names; printed as N2.
    UnknownNode,
    /// It adds a node that is there, also from the same line; printed as N3.
    NodeTwice,
    /// The network has an arc for that ordered pair of nodes; printed as N4.
    ArcTwice,
    /// It speaks of an arc from a node to itself; printed as N5.
    SelfArc,
    /// The text of its label is refused; printed as N6.
    BadLabel(LitFault),
    /// The text of its value is refused; printed as N7.
    BadValue(LitFault),
    /// The destination has an origin at that node; printed as N8.
    OriginTwice,
    /// With it the network would have too many of these; printed as N9.
    TooMany(What),
    /// It adds to the network, and a `then` line came before; printed as N10.
    AfterThen,
    /// It takes out an arc that isn't there after the changes before it; printed as N11.
    NoArc,
}

impl NetKind {
    /// The number that stands after the N of a printed fault. It takes no memory.
    pub fn number(&self) -> u8
        ensures { result ≡ net_kind_number self.now }
    {
        match self {
            NetKind::BadLine => 1,
            NetKind::UnknownNode => 2,
            NetKind::NodeTwice => 3,
            NetKind::ArcTwice => 4,
            NetKind::SelfArc => 5,
            NetKind::BadLabel(_) => 6,
            NetKind::BadValue(_) => 7,
            NetKind::OriginTwice => 8,
            NetKind::TooMany(_) => 9,
            NetKind::AfterThen => 10,
            NetKind::NoArc => 11,
        }
    }
}

/// What is wrong with a network file: its first bad line, numbered from 1.
#[derive(Clone, Copy, Debug, PartialEq, Eq)]
pub struct NetFault {
    pub line: u32,
    pub kind: NetKind,
}

/// Why a text gave no network.
#[derive(Clone, Copy, Debug, PartialEq, Eq, Error)]
pub enum NetError {
    /// It isn't a network file over the algebra.
    #[error("the network is refused")]
    Bad(NetFault),
    /// There was no memory for the network.
    #[error("out of memory")]
    NoMemory,
}

impl From<NoMemory> for NetError {
    ghost from_gives = { λ _ e. e ≡ NoMemoryLeft };

    fn from(_: NoMemory) -> Self {
        NetError::NoMemory
    }
}
