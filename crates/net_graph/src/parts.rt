ghost use Rattle.std.specs.Prelude.{◌≡◌, ◌++◌, ◌∷◌, [], ℕ, false, length, option_map, IfOk, OnOk, OnErr, true};
ghost use Rattle.net_graph.specs.Nets.{CanBeNumbered, is_name, number_of};
ghost use Rattle.net_graph.specs.Dests.{dests_with, dest_number};
ghost use Rattle.net_graph.specs.Pairs.{has_pair};

use crate::arcs::{Arcs, KeptArc};
use crate::joins::Joins;
use crate::names::Names;
use crate::pairs::Pairs;
use alg_model::{Alg, Value};
use meta_base::{DestId, NoMemory, NodeId};
use std::alloc::Global;

/// An origin: the node has a value of its own for the destination.
#[derive(Debug, Drop)]
pub struct Origin {
    pub node: NodeId,
    pub dest: DestId,
    pub value: Value,
}

impl Origin {
    ghost use Rattle.net_graph.specs.Views.{pure_origin};

    // An equal origin.
    pub(crate) fn copy(&self, alloc: Global) -> Result<Origin, NoMemory>
        ensures { IfOk result (λ copied. pure_origin copied ≡ pure_origin self.now) }
    {
        Ok(Origin {
            node: self.node,
            dest: self.dest,
            value: self.value.copy(alloc)?,
        })
    }
}

// An equal algebra.
fn copy_alg(alloc: Global, alg: &Alg) -> Result<Alg, NoMemory>
    ensures { IfOk result (λ copied. copied ≡ alg.now) }
{
    alg.copy_part(alloc, alg.tree())
}

// What a network is looked up by.
#[derive(Debug, Drop)]
pub(crate) struct NetIndex {
    pub alg: Alg,
    pub nodes: Names,
    pub dests: Names,
    // Which nodes the arcs join.
    pub joins: Joins,
    // The destinations and nodes of the origins, in file order.
    pub origin_pairs: Pairs,
}

impl NetIndex {
    ghost use Rattle.net_graph.specs.Copies.{IsCopyWith};

    /// The node of that name.
    pub fn node_named(&self, name: &[u8]) -> Option<NodeId>
        requires { CanBeNumbered (length self.now.nodes) }
        ensures { option_map (λ node. node.0) result ≡ number_of self.now.nodes name.now }
    {
        self.nodes.named(name).map(NodeId)
    }

    /// The destination of that name.
    pub fn dest_named(&self, name: &[u8]) -> Option<DestId>
        requires { CanBeNumbered (length self.now.dests) }
        ensures { option_map (λ dest. dest.0) result ≡ number_of self.now.dests name.now }
    {
        self.dests.named(name).map(DestId)
    }

    /// The same, with these arcs in place of those that there are.
    pub fn copy_with(&self, alloc: Global, arcs: &Arcs) -> Result<NetIndex, NoMemory>
        ensures { IfOk result (λ known. IsCopyWith self.now known arcs.now) }
    {
        Ok(NetIndex {
            alg: copy_alg(alloc, &self.alg)?,
            nodes: self.nodes.copy(alloc)?,
            dests: self.dests.copy(alloc)?,
            joins: arcs.joins(alloc)?,
            origin_pairs: self.origin_pairs.copy()?,
        })
    }

    /// Notes an origin of the destination of that name, which is added where it is new. After a
    /// refusal nothing has changed.
    pub fn add_origin(
        &mut self,
        alloc: Global,
        dest: &[u8],
        node: NodeId,
    ) -> Result<DestId, NoMemory>
        requires name { is_name dest.now ≡ true }
        requires room { CanBeNumbered (length self.old.dests) }
        requires absent { has_pair self.old.origin_pairs (dest_number self.old.dests dest.now) node.0 ≡ false }
        ensures number { IfOk result (λ d. d.0 ≡ dest_number self.old.dests dest.now) }
        ensures ok { OnOk result (self.new ≡ record self.old {
          dests = dests_with self.old.dests dest.now;
          origin_pairs = self.old.origin_pairs ++ (dest_number self.old.dests dest.now, node.0) ∷ [];
        }) }
        ensures err { OnErr result (self.new ≡ self.old) }
    {
        if let Some(number) = self.dests.named(dest) {
            self.origin_pairs.add(number, node.0)?;
            return Ok(DestId(number));
        }
        let number = self.dests.count() as u32;
        self.dests.add(alloc, dest)?;
        match self.origin_pairs.add(number, node.0) {
            Ok(()) => Ok(DestId(number)),
            Err(refusal) => {
                self.dests.drop_last();
                Err(refusal)
            }
        }
    }
}

// What is filed in groups, each item under its key.
pub(crate) trait Keyed {
    ghost key: { Self → ℕ };

    fn key(&self) -> usize
        ensures { result ≡ key self.now };
}

// Arcs are filed under their tails.
impl Keyed for KeptArc {
    ghost key = { λ a. a.tail.0 };

    fn key(&self) -> usize {
        self.tail.0 as usize
    }
}

// Origins are filed under their destinations.
impl Keyed for Origin {
    ghost key = { λ o. o.dest.0 };

    fn key(&self) -> usize {
        self.dest.0 as usize
    }
}
