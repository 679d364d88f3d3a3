ghost use Rattle.std.specs.Prelude.{IfOk, List, map};
ghost use Rattle.net_graph.specs.Nets.{PureNet};
ghost use Rattle.node_runs.specs.Runs.{HaveRun};

use meta_base::NoMemory;
use net_graph::Net;
use node_core::NodeCore;
use std::alloc::Global;

/// What finds what the nodes of one kind come to, as their rows, or how far they are from a place. A finder holds what it
/// needs beside the nodes, as an algebra.
pub trait Finder {
    /// The kind of node.
    type Node: NodeCore;

    /// What such nodes come to.
    type Found: Drop;

    /// The finder may be asked on the network.
    ghost Fits: { Self → PureNet → Type 0 };

    /// Nodes of the network come to this.
    ghost AreFound: { PureNet → List Self.Node → Self.Found → Type 0 };

    /// What the nodes come to, which are one for each of the network, in order, and have run a phase on it, to its end
    /// or not. It is refused for want of memory alone.
    fn find(&self, alloc: Global, net: &Net, nodes: &[Self::Node]) -> Result<Self::Found, NoMemory>
        requires fits { Fits self.now net.now }
        requires run { HaveRun Self.Node.kind net.now (map Self.Node.state nodes.now) }
        ensures { IfOk result (AreFound net.now nodes.now) };
}
