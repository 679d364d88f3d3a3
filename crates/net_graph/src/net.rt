ghost use Rattle.std.specs.Prelude.{◌≡◌, ◌<◌, ◌≤◌, Some, true, map, find, length, position, slice_get, option_map, IfOk, IfSome};
ghost use Rattle.std.specs.List.{AllByRecursion};
ghost use Rattle.net_graph.specs.declared.limits.TheConstants.{MOST_NODES, MOST_DESTS};
ghost use Rattle.net_graph.specs.Nets.{CanBeNumbered, IsNet, IsArcOf, IsOriginOf, is_name, number_of, has_arc, has_origin, is_arc_between, is_origin_at, arcs_from, arcs_to, origins_of};

use crate::arcs::{Arc, Arcs, KeptArc, copy_labels, id_to};
use crate::change::Change;
use crate::filed::FiledLines;
use crate::groups::{Groups, Spot};
use crate::label_numbers::LabelNumbers;
use crate::out_arcs::OutArcs;
use crate::parts::NetIndex;
use crate::{NetDraft, Origin};
use alg_model::{Alg, Edition, Label};
use meta_base::{ArcId, DestId, NoMemory, NodeId};
use std::alloc::Global;
use std::marker::Model;

/// A network: an algebra, nodes, destinations, arcs and origins. Contracts see the lists of these, and
/// each network meets its rules. Only [`Net::changed`] takes memory, and every id that a call is given
/// is below the count of its kind.
#[derive(Debug, Drop)]
pub struct Net {
    known: NetIndex,
    // The labels of arcs, some of which many arcs have.
    labels: Vec<Label>,
    // The arcs by their tails, and where each arc stands, in file order.
    out: Groups<KeptArc>,
    arc_spots: Vec<Spot>,
    // The ids of the arcs by their heads.
    heard: Groups<ArcId>,
    // The origins by their destinations, and where each origin stands, in file order.
    homes: Groups<Origin>,
    origin_spots: Vec<Spot>,
}

impl Model for Net {
    ghost use Rattle.std.specs.List.{AllByRecursion};
    ghost use Rattle.net_graph.specs.Nets.{PureNet};
    ghost use Rattle.net_graph.specs.Codes.{coded_net};

    ghost Value = { PureNet };

    ghost coded = { coded_net };

    ghost use Rattle.net_graph.specs.NetParts.{net_of, IsWhole};

    ghost view = { net_of };

    ghost invariant = { IsWhole };
}

impl Net {
    ghost use Rattle.alg_model.specs.Views.{pure_label};
    ghost use Rattle.net_graph.specs.Views.{pure_arc, pure_origin, pure_change};
    ghost use Rattle.net_graph.specs.Changes.{changed, MayChange};
    ghost use Rattle.net_graph.specs.LabelNumbers.{AreLabelNumbers};
    ghost use Rattle.net_graph.specs.Parts.{IsKnown, IsFiled};
    ghost use Rattle.net_graph.specs.NetParts.{net_in};
    ghost use Rattle.net_graph.specs.RowTexts.{node_text, dest_text};

    // The network of these parts.
    pub(crate) fn from_parts(known: NetIndex, labels: Vec<Label>, lines: FiledLines) -> Net
        requires known { IsKnown (net_in known labels.items lines) known.joins known.origin_pairs }
        requires filed { IsFiled (net_in known labels.items lines) (map pure_label labels.items)
            lines.out.groups lines.out.spots.items lines.heard lines.homes.groups lines.homes.spots.items }
        ensures { result ≡ net_in known labels.items lines }
    {
        Net {
            known,
            labels,
            out: lines.out.groups,
            arc_spots: lines.out.spots,
            heard: lines.heard,
            homes: lines.homes.groups,
            origin_spots: lines.homes.spots,
        }
    }

    /// Lends the algebra.
    pub fn alg(&self) -> &Alg
        ensures alg { result.now ≡ self.now.alg }
        ensures net { IsNet self.now }
    {
        &self.known.alg
    }

    /// The edition of the algebra, which says how large the network may be. It takes no memory.
    pub fn edition(&self) -> Edition
        ensures edition { result ≡ self.now.alg.edition }
        ensures net { IsNet self.now }
    {
        self.known.alg.edition()
    }

    /// How many nodes there are, at most [`crate::max_nodes`] of the edition, and at most
    /// [`crate::MOST_NODES`] in any.
    #[tactic(auto, using(crate::specs::NetLaws::few_nodes))]
    pub fn node_count(&self) -> usize
        ensures count { result ≡ length self.now.nodes }
        ensures few { result ≤ MOST_NODES }
        ensures net { IsNet self.now }
    {
        self.known.nodes.count()
    }

    /// How many arcs there are, at most [`crate::MAX_ARCS`].
    pub fn arc_count(&self) -> usize
        ensures count { result ≡ length self.now.arcs }
        ensures net { IsNet self.now }
    {
        self.arc_spots.len()
    }

    /// How many destinations there are, at most [`crate::max_dests`] of the edition, and at most
    /// [`crate::MOST_DESTS`] in any.
    #[tactic(auto, using(crate::specs::NetLaws::few_dests))]
    pub fn dest_count(&self) -> usize
        ensures count { result ≡ length self.now.dests }
        ensures few { result ≤ MOST_DESTS }
        ensures net { IsNet self.now }
    {
        self.known.dests.count()
    }

    /// The node of that name, or `None` exactly where there is none.
    pub fn node_named(&self, name: &[u8]) -> Option<NodeId>
        ensures { option_map (λ node. node.0) result ≡ number_of self.now.nodes name.now }
    {
        self.known.node_named(name)
    }

    /// The destination of that name, or `None` exactly where there is none.
    pub fn dest_named(&self, name: &[u8]) -> Option<DestId>
        ensures { option_map (λ dest. dest.0) result ≡ number_of self.now.dests name.now }
    {
        self.known.dest_named(name)
    }

    /// There is an arc from `tail` to `head`.
    pub fn has_arc(&self, tail: NodeId, head: NodeId) -> bool
        ensures { result ≡ has_arc self.now tail.0 head.0 }
    {
        self.known.joins.contains(tail.0, head.0)
    }

    /// The arc from `tail` to `head`, or `None` exactly where there is none.
    pub fn arc_between(&self, tail: NodeId, head: NodeId) -> Option<ArcId>
        ensures { option_map (λ id. id.0) result ≡ position (is_arc_between tail.0 head.0) self.now.arcs }
    {
        id_to(self.out.group_if_any(tail.0 as usize), head)
    }

    /// There is an origin of the destination at the node.
    pub fn has_origin(&self, dest: DestId, node: NodeId) -> bool
        ensures { result ≡ has_origin self.now dest.0 node.0 }
    {
        self.known.origin_pairs.contains(dest.0, node.0)
    }

    /// Lends the origin of the destination at the node, or `None` exactly where there is none.
    pub fn origin_at(&self, dest: DestId, node: NodeId) -> Option<&Origin>
        ensures origin { option_map (λ o. pure_origin o.now) result ≡
            find (is_origin_at dest.0 node.0) self.now.origins }
        ensures within { IfSome result (λ o. IsOriginOf self.now.alg (length self.now.nodes) (length self.now.dests)
            (pure_origin o.now)) }
    {
        match self.known.origin_pairs.place(dest.0, node.0) {
            Some(place) => Some(self.homes.item(self.origin_spots[place])),
            None => None,
        }
    }

    /// Lends the arcs that the node may route by, in file order.
    pub fn out_arcs(&self, node: NodeId) -> OutArcs<'_>
        requires { node.0 < length self.now.nodes }
        ensures arcs { result ≡ arcs_from self.now node.0 }
        ensures within { AllByRecursion (IsArcOf self.now.alg (length self.now.nodes)) result }
    {
        OutArcs::new(&self.labels, self.out.group(node.0 as usize))
    }

    /// Lends the ids of the arcs that the node speaks on, in file order.
    pub fn listeners(&self, node: NodeId) -> &[ArcId]
        requires { node.0 < length self.now.nodes }
        ensures { map (λ id. id.0) result.now ≡ map (λ a. a.id) (arcs_to self.now node.0) }
    {
        self.heard.group(node.0 as usize)
    }

    /// Lends the arc of that number.
    pub fn arc(&self, id: ArcId) -> Arc<'_>
        requires { id.0 < length self.now.arcs }
        ensures arc { slice_get self.now.arcs id.0 ≡ Some (pure_arc result) }
        ensures within { IsArcOf self.now.alg (length self.now.nodes) (pure_arc result) }
    {
        let arc = self.out.item(self.arc_spots[id.0 as usize]);
        arc.with_label(&self.labels)
    }

    /// Lends the numbers of the labels on the arcs.
    pub fn label_numbers(&self) -> LabelNumbers<'_>
        ensures { AreLabelNumbers self.now result }
    {
        LabelNumbers::new(self.labels.len(), &self.out, &self.arc_spots)
    }

    /// Where the arc of that number stands among the arcs of its tail, in file order, from 0.
    pub fn place_of(&self, id: ArcId) -> usize
        requires { id.0 < length self.now.arcs }
        ensures { IfSome (slice_get self.now.arcs id.0) (λ arc.
            slice_get (arcs_from self.now arc.tail) result ≡ Some arc) }
    {
        self.arc_spots[id.0 as usize].place
    }

    /// Lends the origins of the destination, in file order.
    pub fn origins_of(&self, dest: DestId) -> &[Origin]
        requires { dest.0 < length self.now.dests }
        ensures origins { map pure_origin result.now ≡ origins_of self.now dest.0 }
        ensures within { AllByRecursion (λ o.
            IsOriginOf self.now.alg (length self.now.nodes) (length self.now.dests) (pure_origin o)) result.now }
    {
        self.homes.group(dest.0 as usize)
    }

    // Equal arcs, in file order.
    fn copy_arcs(&self, alloc: Global) -> Result<Arcs, NoMemory>
        ensures arcs { IfOk result (λ arcs. arcs ≡ self.now.arcs) }
        ensures few { IfOk result (λ arcs. CanBeNumbered (length arcs)) }
    {
        let labels = copy_labels(alloc, &self.labels)?;
        let mut arcs = Vec::with_capacity(alloc, self.arc_spots.len())?;
        for spot in &self.arc_spots {
            arcs.push(*self.out.item(*spot))?;
        }
        Ok(Arcs::from_parts(labels, arcs))
    }

    // Equal origins, in file order.
    fn copy_origins(&self, alloc: Global) -> Result<Vec<Origin>, NoMemory>
        ensures { IfOk result (λ origins. map pure_origin origins.items ≡ self.now.origins) }
    {
        let mut origins = Vec::with_capacity(alloc, self.origin_spots.len())?;
        for spot in &self.origin_spots {
            origins.push(self.homes.item(*spot).copy(alloc)?)?;
        }
        Ok(origins)
    }

    /// The network with a change that it may have. It costs a copy of the network and no search for an
    /// arc, and leaves this network as it is.
    pub fn changed(&self, alloc: Global, change: &Change) -> Result<Net, NoMemory>
        requires { MayChange self.now (pure_change change.now) }
        ensures { IfOk result (λ net. net ≡ changed self.now (pure_change change.now)) }
    {
        let arcs = self.copy_arcs(alloc)?.changed(alloc, change)?;
        let origins = self.copy_origins(alloc)?;
        let known = self.known.copy_with(alloc, &arcs)?;
        NetDraft::from_parts(alloc, known, arcs, origins).finish()
    }

    /// Lends the name of the node.
    pub fn node_name(&self, node: NodeId) -> &[u8]
        requires { node.0 < length self.now.nodes }
        ensures name { slice_get self.now.nodes node.0 ≡ Some result.now }
        ensures is_name { is_name result.now ≡ true }
    {
        self.known.nodes.name(node.0 as usize)
    }

    /// Lends the name of the node as text, as it is printed.
    pub fn node_text(&self, node: NodeId) -> &str
        requires { node.0 < length self.now.nodes }
        ensures { result.now ≡ node_text self.now node.0 }
    {
        self.known.nodes.text(node.0 as usize)
    }

    /// Lends the name of the destination as text, as it is printed.
    pub fn dest_text(&self, dest: DestId) -> &str
        requires { dest.0 < length self.now.dests }
        ensures { result.now ≡ dest_text self.now dest.0 }
    {
        self.known.dests.text(dest.0 as usize)
    }

    /// Lends the name of the destination.
    pub fn dest_name(&self, dest: DestId) -> &[u8]
        requires { dest.0 < length self.now.dests }
        ensures name { slice_get self.now.dests dest.0 ≡ Some result.now }
        ensures is_name { is_name result.now ≡ true }
    {
        self.known.dests.name(dest.0 as usize)
    }
}
