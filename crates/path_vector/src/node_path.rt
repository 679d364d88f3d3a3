ghost use Rattle.std.specs.Prelude.{◌≡◌, ◌≤◌};
ghost use Rattle.net_graph.specs.declared.limits.TheConstants.{MOST_NODES};
ghost use Rattle.path_vector.specs.Simple.{is_simple};

use crate::paths::is_simple;
use crate::shared::Shared;
use meta_base::{List, NodeId};
use std::marker::Model;

/// A path, and whether it is one of a network of so many nodes: all are of the network, and none is on it twice. That
/// is looked up once, for all who share the path. Contracts see the nodes.
#[derive(Debug, Drop)]
pub struct NodePath {
    nodes: List<NodeId>,
    count: usize,
    is_of_network: bool,
}

impl Model for NodePath {
    ghost use Rattle.std.specs.Prelude.{◌≡◌, List};
    ghost use Rattle.meta_base.specs.declared.ids.NodeId.{NodeId};
    ghost use Rattle.path_vector.specs.Simple.{is_simple};

    ghost Value = { List NodeId };

    ghost view = { λ p. p.nodes };

    ghost invariant = { λ p. p.is_of_network ≡ is_simple p.count p.nodes };
}

impl NodePath {
    /// The path of these nodes, which is to be one of a network of so many.
    pub fn new(nodes: List<NodeId>, count: usize) -> NodePath
        requires { count ≤ MOST_NODES }
        ensures { result ≡ nodes }
    {
        let is_of_network = is_simple(nodes.as_slice(), count);
        NodePath {
            nodes,
            count,
            is_of_network,
        }
    }

    // Whether all nodes are of a network of so many, and none is on the path twice.
    pub(crate) fn is_simple(&self, count: usize) -> bool
        requires { count ≤ MOST_NODES }
        ensures { result ≡ is_simple count self.now }
    {
        if self.count == count {
            return self.is_of_network;
        }
        is_simple(self.nodes.as_slice(), count)
    }
}

impl Shared<NodePath> {
    /// Lends the nodes of the path in order.
    pub fn as_slice(&self) -> &[NodeId]
        ensures { result.now ≡ self.now }
    {
        self.get().nodes.as_slice()
    }
}
