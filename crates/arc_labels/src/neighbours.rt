ghost use Rattle.std.specs.Prelude.{◌≡◌, ◌<◌, IfOk, Some, length, slice_get};
ghost use Rattle.arc_labels.specs.Forms.{AreForms};
ghost use Rattle.arc_labels.specs.Neighbours.{AreListenerLabels, AreNeighbours, AreSpeakerLabels, head_of, tail_of};
ghost use Rattle.net_graph.specs.Nets.{IsNet, arcs_from, arcs_to};

use crate::LabelForms;
use alg_model::Algebra;
use meta_base::{ArcId, List, NoMemory, NodeId};
use net_graph::Net;
use std::alloc::Global;
use std::marker::Model;

/// An arc, the node at its other end, and the form of its label.
#[derive(Drop)]
pub struct Neighbour<'f, L> {
    pub arc: ArcId,
    pub node: NodeId,
    pub label: &'f L,
}

/// The neighbours of each node of a network, with the labels of the arcs between them in an algebra's own form. They are
/// made once for a network, and serve all its destinations. Contracts see the list of the neighbours, by node.
#[derive(Drop)]
pub struct NeighbourLabels<'f, L> {
    neighbours: Vec<List<Neighbour<'f, L>>>,
}

impl<'f, L> Model for NeighbourLabels<'f, L> {
    ghost use Rattle.std.specs.Prelude.{List};
    ghost use Rattle.arc_labels.specs.declared.neighbours.Neighbour.{Neighbour};

    ghost Value = { List (List (Neighbour L)) };

    ghost view = { λ s. s.neighbours.items };
}

impl<'f, L> NeighbourLabels<'f, L> {
    /// Lends the neighbours of the node, in the order of the arcs between them.
    pub fn of(&self, node: NodeId) -> &[Neighbour<'f, L>]
        requires { node.0 < length self.now }
        ensures { slice_get self.now node.0 ≡ Some result.now }
    {
        self.neighbours[node.0 as usize].as_slice()
    }
}

/// For each node the nodes that hear it, in the order of the arcs that it speaks on, with the forms of the arcs' labels.
/// The algebra is that of the forms, of which the clauses speak. It is refused for want of memory alone.
pub fn listener_labels<'f, A: Algebra>(
    alloc: Global,
    _algebra: &A,
    net: &Net,
    forms: &'f LabelForms<'_, A::Lab>,
) -> Result<NeighbourLabels<'f, A::Lab>, NoMemory>
    requires { AreForms (A.stands_for _algebra.now) net.now forms.now }
    ensures { IfOk result (AreListenerLabels (A.stands_for _algebra.now) net.now) }
{
    let mut neighbours = Vec::with_capacity(alloc, net.node_count())?;
    for node in 0..net.node_count() {
        neighbours.push(listeners_of(alloc, _algebra, net, forms, NodeId(node as u32))?)?;
    }
    Ok(NeighbourLabels { neighbours })
}

/// For each node the nodes that it may route by, in the order of the arcs to them, with the forms of the arcs' labels.
/// The algebra is that of the forms, of which the clauses speak. It is refused for want of memory alone.
pub fn speaker_labels<'f, A: Algebra>(
    alloc: Global,
    _algebra: &A,
    net: &Net,
    forms: &'f LabelForms<'_, A::Lab>,
) -> Result<NeighbourLabels<'f, A::Lab>, NoMemory>
    requires { AreForms (A.stands_for _algebra.now) net.now forms.now }
    ensures { IfOk result (AreSpeakerLabels (A.stands_for _algebra.now) net.now) }
{
    let mut neighbours = Vec::with_capacity(alloc, net.node_count())?;
    for node in 0..net.node_count() {
        neighbours.push(speakers_of(alloc, _algebra, net, forms, NodeId(node as u32))?)?;
    }
    Ok(NeighbourLabels { neighbours })
}

// The nodes that hear the node, in the order of the arcs that it speaks on.
fn listeners_of<'f, A: Algebra>(
    alloc: Global,
    _algebra: &A,
    net: &Net,
    forms: &'f LabelForms<'_, A::Lab>,
    node: NodeId,
) -> Result<List<Neighbour<'f, A::Lab>>, NoMemory>
    requires forms { AreForms (A.stands_for _algebra.now) net.now forms.now }
    requires net { IsNet net.now }
    requires node { node.0 < length net.now.nodes }
    ensures { IfOk result (AreNeighbours (A.stands_for _algebra.now) tail_of (arcs_to net.now node.0)) }
{
    let ids = net.listeners(node);
    let mut listeners = Vec::with_capacity(alloc, ids.len())?;
    for id in ids {
        listeners.push(Neighbour {
            arc: *id,
            node: net.arc(*id).tail,
            label: forms.form(*id),
        })?;
    }
    Ok(List::from_vec(listeners))
}

// The nodes that the node may route by, in the order of the arcs to them.
fn speakers_of<'f, A: Algebra>(
    alloc: Global,
    _algebra: &A,
    net: &Net,
    forms: &'f LabelForms<'_, A::Lab>,
    node: NodeId,
) -> Result<List<Neighbour<'f, A::Lab>>, NoMemory>
    requires forms { AreForms (A.stands_for _algebra.now) net.now forms.now }
    requires net { IsNet net.now }
    requires node { node.0 < length net.now.nodes }
    ensures { IfOk result (AreNeighbours (A.stands_for _algebra.now) head_of (arcs_from net.now node.0)) }
{
    let arcs = net.out_arcs(node);
    let mut speakers = Vec::with_capacity(alloc, arcs.count())?;
    for place in 0..arcs.count() {
        let arc = arcs.get(place);
        speakers.push(Neighbour {
            arc: arc.id,
            node: arc.head,
            label: forms.form(arc.id),
        })?;
    }
    Ok(List::from_vec(speakers))
}
