ghost use Rattle.std.specs.Prelude.{◌≡◌, ◌≢◌, ◌<◌, ◌≤◌, Some, None, true, false, length, option_map, slice_get, IfOk, IfSome, OnOk, OnErr};
ghost use Rattle.alg_model.specs.Views.{pure_value, pure_label};
ghost use Rattle.alg_model.specs.Carriers.{carrier_of, In};
ghost use Rattle.alg_model.specs.Application.{IsLabel};
ghost use Rattle.alg_model.specs.Bounds.{AtMost, LabelAtMost, greatest_number};
ghost use Rattle.net_graph.specs.Nets.{IsNet, number_of, has_arc, has_origin, is_name};
ghost use Rattle.net_graph.specs.Limits.{max_nodes, max_dests};
ghost use Rattle.net_graph.specs.declared.limits.TheConstants.{MAX_ARCS, MOST_NODES, MOST_DESTS};
ghost use Rattle.net_graph.specs.Lines.{empty_net, with_node, with_arc, with_dest, with_origin, with_origin_at};

use crate::arcs::Arcs;
use crate::filed::file_lines;
use crate::joins::Joins;
use crate::names::Names;
use crate::pairs::Pairs;
use crate::parts::NetIndex;
use crate::{Net, Origin};
use alg_model::{Alg, Edition, Label, Value};
use meta_base::{ArcId, DestId, NoMemory, NodeId};
use std::alloc::Global;
use std::marker::Model;

/// A network that is being made, line by line. Contracts see the network that was made so far.
#[derive(Debug, Drop)]
pub struct NetDraft {
    alloc: Global,
    known: NetIndex,
    // In file order.
    arcs: Arcs,
    origins: Vec<Origin>,
}

impl Model for NetDraft {
    ghost use Rattle.net_graph.specs.Nets.{PureNet};
    ghost use Rattle.net_graph.specs.Codes.{coded_net};

    ghost Value = { PureNet };

    ghost coded = { coded_net };

    ghost use Rattle.net_graph.specs.Drafts.{net_with, IsDraft};

    ghost view = { λ d. net_with d.known d.arcs d.origins.items };

    ghost invariant = { λ d. IsDraft d.known d.arcs d.origins.items };
}

impl NetDraft {
    ghost use Rattle.net_graph.specs.Drafts.{net_with, IsDraft};

    /// The network of the algebra with no node, arc or origin. It takes no memory before something is
    /// added.
    pub fn new(alloc: Global, alg: Alg) -> NetDraft
        ensures { result ≡ empty_net alg }
    {
        // To look at the tree is to know that the algebra meets its rules.
        let _ = alg.tree();
        NetDraft {
            alloc,
            known: NetIndex {
                alg,
                nodes: Names::new(alloc),
                dests: Names::new(alloc),
                joins: Joins::new(alloc),
                origin_pairs: Pairs::new(alloc),
            },
            arcs: Arcs::new(alloc),
            origins: Vec::new(alloc),
        }
    }

    // The draft of these parts.
    pub(crate) fn from_parts(
        alloc: Global,
        known: NetIndex,
        arcs: Arcs,
        origins: Vec<Origin>,
    ) -> NetDraft
        requires { IsDraft known arcs origins.items }
        ensures { result ≡ net_with known arcs origins.items }
    {
        NetDraft {
            alloc,
            known,
            arcs,
            origins,
        }
    }

    /// Adds a node of that name, with the next number. The name is 1 to 32 letters, digits and bytes
    /// of `_-.`, no other node has it, and there are fewer nodes than [`crate::max_nodes`] of the edition.
    /// After a refusal the draft is as it was.
    pub fn add_node(&mut self, name: &[u8]) -> Result<(), NoMemory>
        requires name { is_name name.now ≡ true }
        requires absent { number_of self.old.nodes name.now ≡ None }
        requires room { length self.old.nodes < max_nodes self.old.alg.edition }
        ensures ok { OnOk result (self.new ≡ with_node self.old name.now) }
        ensures err { OnErr result (self.new ≡ self.old) }
    {
        self.known.nodes.add(self.alloc, name)?;
        Ok(())
    }

    /// Makes room for so many arcs more at once. It adds nothing, and after a refusal nothing has changed.
    pub fn reserve_arcs(&mut self, count: usize) -> Result<(), NoMemory>
        ensures { self.new ≡ self.old }
    {
        self.arcs.reserve(count)
    }

    /// Adds an arc, with the next number. Both are nodes and differ, no arc joins them in this
    /// direction, the label is the algebra's with numbers that a text of its edition may hold
    /// ([`alg_model::Edition::greatest_number`]), and there are fewer than [`crate::MAX_ARCS`] arcs. After a
    /// refusal the draft is as it was, and the label is dropped.
    pub fn add_arc(&mut self, tail: NodeId, head: NodeId, label: Label) -> Result<(), NoMemory>
        requires tail { tail.0 < length self.old.nodes }
        requires head { head.0 < length self.old.nodes }
        requires apart { tail.0 ≢ head.0 }
        requires absent { has_arc self.old tail.0 head.0 ≡ false }
        requires label { IsLabel self.old.alg.expression (pure_label label) }
        requires small { LabelAtMost (greatest_number self.old.alg.edition) (pure_label label) }
        requires room { length self.old.arcs < MAX_ARCS }
        ensures ok { OnOk result (self.new ≡ with_arc self.old tail.0 head.0 (pure_label label)) }
        ensures err { OnErr result (self.new ≡ self.old) }
    {
        self.known.joins.make_room(self.alloc, tail.0, head.0)?;
        self.arcs.push(tail, head, label)?;
        self.known.joins.note(tail.0, head.0);
        Ok(())
    }

    /// Adds an arc with the label of the arc of that number, which isn't copied. All else is as for
    /// [`NetDraft::add_arc`].
    #[inline(always)]
    pub fn add_arc_like(&mut self, tail: NodeId, head: NodeId, like: ArcId) -> Result<(), NoMemory>
        requires tail { tail.0 < length self.old.nodes }
        requires head { head.0 < length self.old.nodes }
        requires apart { tail.0 ≢ head.0 }
        requires absent { has_arc self.old tail.0 head.0 ≡ false }
        requires like { like.0 < length self.old.arcs }
        requires room { length self.old.arcs < MAX_ARCS }
        ensures ok { OnOk result (IfSome (slice_get self.old.arcs like.0) (λ arc.
            self.new ≡ with_arc self.old tail.0 head.0 arc.label)) }
        ensures err { OnErr result (self.new ≡ self.old) }
    {
        self.known.joins.make_room(self.alloc, tail.0, head.0)?;
        self.arcs.push_like(tail, head, like)?;
        self.known.joins.note(tail.0, head.0);
        Ok(())
    }

    /// Adds a destination of that name without an origin, with the next number. The name is 1 to 32
    /// letters, digits and bytes of `_-.`, no other destination has it, and there are fewer than
    /// [`crate::max_dests`] of the edition. After a refusal the draft is as it was.
    pub fn add_dest(&mut self, name: &[u8]) -> Result<(), NoMemory>
        requires name { is_name name.now ≡ true }
        requires absent { number_of self.old.dests name.now ≡ None }
        requires room { length self.old.dests < max_dests self.old.alg.edition }
        ensures ok { OnOk result (self.new ≡ with_dest self.old name.now) }
        ensures err { OnErr result (self.new ≡ self.old) }
    {
        self.known.dests.add(self.alloc, name)?;
        Ok(())
    }

    /// Adds an origin of the destination of that name, which gets the next number where it is new.
    /// The name is 1 to 32 letters, digits and bytes of `_-.`, `node` is a node with no origin of the
    /// destination, the value is the algebra's with numbers that a text of its edition may hold
    /// ([`alg_model::Edition::greatest_number`]), and where the destination is new there are fewer than
    /// [`crate::max_dests`] of the edition. After a refusal the draft is as it was, and the value is dropped.
    pub fn add_origin(&mut self, dest: &[u8], node: NodeId, value: Value) -> Result<(), NoMemory>
        requires name { is_name dest.now ≡ true }
        requires node { node.0 < length self.old.nodes }
        requires absent { IfSome (number_of self.old.dests dest.now) (λ d. has_origin self.old d node.0 ≡ false) }
        requires value { In (carrier_of self.old.alg.expression) (pure_value value) }
        requires small { AtMost (greatest_number self.old.alg.edition) (pure_value value) }
        requires room { number_of self.old.dests dest.now ≡ None →
            length self.old.dests < max_dests self.old.alg.edition }
        ensures ok { OnOk result (self.new ≡ with_origin self.old dest.now node.0 (pure_value value)) }
        ensures err { OnErr result (self.new ≡ self.old) }
    {
        self.origins.reserve(1)?;
        let dest = self.known.add_origin(self.alloc, dest, node)?;
        self.origins.push(Origin { node, dest, value }).unwrap();
        Ok(())
    }

    /// Adds an origin of the destination, which is there. `node` is a node with no origin of it, and the
    /// value is as for [`NetDraft::add_origin`]. After a refusal the draft is as it was, and the value is
    /// dropped.
    pub fn add_origin_of(
        &mut self,
        dest: DestId,
        node: NodeId,
        value: Value,
    ) -> Result<(), NoMemory>
        requires dest { dest.0 < length self.old.dests }
        requires node { node.0 < length self.old.nodes }
        requires absent { has_origin self.old dest.0 node.0 ≡ false }
        requires value { In (carrier_of self.old.alg.expression) (pure_value value) }
        requires small { AtMost (greatest_number self.old.alg.edition) (pure_value value) }
        ensures ok { OnOk result (self.new ≡ with_origin_at self.old dest.0 node.0 (pure_value value)) }
        ensures err { OnErr result (self.new ≡ self.old) }
    {
        self.origins.reserve(1)?;
        self.known.origin_pairs.add(dest.0, node.0)?;
        self.origins.push(Origin { node, dest, value }).unwrap();
        Ok(())
    }

    /// The network that was made.
    pub fn finish(self) -> Result<Net, NoMemory>
        ensures { IfOk result (λ net. net ≡ self) }
    {
        let NetDraft {
            alloc,
            known,
            arcs,
            origins,
        } = self;
        let (labels, arcs) = arcs.into_parts();
        let lines = file_lines(
            alloc,
            known.nodes.count(),
            known.dests.count(),
            arcs,
            origins,
        )?;
        Ok(Net::from_parts(known, labels, lines))
    }

    /// Lends the algebra.
    pub fn alg(&self) -> &Alg
        ensures { result.now ≡ self.now.alg }
    {
        &self.known.alg
    }

    /// The edition of the algebra, which says how large the network may be. It takes no memory.
    pub fn edition(&self) -> Edition
        ensures edition { result ≡ self.now.alg.edition }
        ensures net { IsNet self.now }
    {
        self.known.alg.edition()
    }

    /// How many nodes there are, at most [`crate::max_nodes`] of the edition, and at most
    /// [`crate::MOST_NODES`] in any.
    #[tactic(auto, using(crate::specs::NetLaws::few_nodes))]
    pub fn node_count(&self) -> usize
        ensures count { result ≡ length self.now.nodes }
        ensures few { result ≤ MOST_NODES }
        ensures net { IsNet self.now }
    {
        self.known.nodes.count()
    }

    /// How many arcs there are, at most [`crate::MAX_ARCS`].
    pub fn arc_count(&self) -> usize
        ensures count { result ≡ length self.now.arcs }
        ensures net { IsNet self.now }
    {
        self.arcs.count()
    }

    /// How many destinations there are, at most [`crate::max_dests`] of the edition, and at most
    /// [`crate::MOST_DESTS`] in any.
    #[tactic(auto, using(crate::specs::NetLaws::few_dests))]
    pub fn dest_count(&self) -> usize
        ensures count { result ≡ length self.now.dests }
        ensures few { result ≤ MOST_DESTS }
        ensures net { IsNet self.now }
    {
        self.known.dests.count()
    }

    /// The node of that name, or `None` exactly where there is none.
    pub fn node_named(&self, name: &[u8]) -> Option<NodeId>
        ensures { option_map (λ node. node.0) result ≡ number_of self.now.nodes name.now }
    {
        self.known.node_named(name)
    }

    /// The destination of that name, or `None` exactly where there is none.
    pub fn dest_named(&self, name: &[u8]) -> Option<DestId>
        ensures { option_map (λ dest. dest.0) result ≡ number_of self.now.dests name.now }
    {
        self.known.dest_named(name)
    }

    /// There is an arc from `tail` to `head`.
    pub fn has_arc(&self, tail: NodeId, head: NodeId) -> bool
        ensures there { result ≡ has_arc self.now tail.0 head.0 }
        ensures net { IsNet self.now }
    {
        self.known.joins.contains(tail.0, head.0)
    }

    /// There is an origin of the destination at the node.
    pub fn has_origin(&self, dest: DestId, node: NodeId) -> bool
        ensures { result ≡ has_origin self.now dest.0 node.0 }
    {
        self.known.origin_pairs.contains(dest.0, node.0)
    }
}
