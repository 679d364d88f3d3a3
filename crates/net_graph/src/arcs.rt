// Arcs as a network keeps them. Labels stand in a list of their own, where arcs may have one in common.
ghost use Rattle.std.specs.Prelude.{◌≡◌, ◌==◌, ◌<◌, ◌++◌, ◌∷◌, [], List, Some, find, length, map, option_map, slice_get, IfOk, IfSome, OnOk, OnErr};
ghost use Rattle.alg_model.specs.Views.{pure_label};
ghost use Rattle.net_graph.specs.Kept.{arcs_of, kept_arc, HaveLabels};
ghost use Rattle.net_graph.specs.Nets.{PureArc, CanBeNumbered};
ghost use Rattle.net_graph.specs.Views.{pure_arc, pure_change};

use crate::change::{Change, arcs_with_label, arcs_without, are_joined};
use crate::joins::Joins;
use alg_model::Label;
use meta_base::{ArcId, NoMemory, NodeId};
use std::alloc::Global;
use std::marker::Model;

/// An arc, as its network lends it: its tail may route by its head, so the tail listens and the head speaks.
/// The label says what the arc does to the value of a route that passes it.
#[derive(Clone, Copy, Debug)]
pub struct Arc<'a> {
    pub id: ArcId,
    pub tail: NodeId,
    pub head: NodeId,
    pub label: &'a Label,
}

// The place of a label in the list of a network's labels.
#[derive(Clone, Copy, Debug)]
pub(crate) struct LabelId(pub u32);

// An arc without its label, which stands at that place.
#[derive(Clone, Copy, Debug)]
pub(crate) struct KeptArc {
    pub id: ArcId,
    pub tail: NodeId,
    pub head: NodeId,
    pub label: LabelId,
}

impl KeptArc {
    /// The arc with its label.
    pub fn with_label(self, labels: &[Label]) -> Arc<'_>
        requires { self.label.0 < length labels.now }
        ensures { pure_arc result ≡ kept_arc (map pure_label labels.now) self }
    {
        Arc {
            id: self.id,
            tail: self.tail,
            head: self.head,
            label: &labels[self.label.0 as usize],
        }
    }
}

// The arc at a place of these.
pub(crate) fn arc_at<'a>(labels: &'a [Label], arcs: &[KeptArc], place: usize) -> Arc<'a>
    requires place { place < length arcs.now }
    requires labels { HaveLabels (length labels.now) arcs.now }
    ensures { slice_get (arcs_of labels.now arcs.now) place ≡ Some (pure_arc result) }
{
    arcs[place].with_label(labels)
}

// The id of the first of these arcs that goes to the head, if one does.
pub(crate) fn id_to(arcs: &[KeptArc], head: NodeId) -> Option<ArcId>
    ensures { result ≡ option_map (λ a. a.id) (find (λ a. a.head.0 == head.0) arcs.now) }
{
    for arc in arcs {
        if arc.head.0 == head.0 {
            return Some(arc.id);
        }
    }
    None
}

// Arcs in file order. Contracts see the list of them, each with its label.
#[derive(Debug, Drop)]
pub(crate) struct Arcs {
    labels: Vec<Label>,
    arcs: Vec<KeptArc>,
}

impl Model for Arcs {
    ghost use Rattle.std.specs.Prelude.{List, length};
    ghost use Rattle.net_graph.specs.Codes.{coded_arcs};
    ghost use Rattle.net_graph.specs.Kept.{arcs_of, HaveLabels};
    ghost use Rattle.net_graph.specs.Nets.{PureArc};

    ghost Value = { List PureArc };

    ghost coded = { coded_arcs };

    ghost view = { λ s. arcs_of s.labels.items s.arcs.items };

    ghost invariant = { λ s. HaveLabels (length s.labels.items) s.arcs.items };
}

impl Arcs {
    ghost use Rattle.net_graph.specs.Changes.{link, changed_arcs};
    ghost use Rattle.net_graph.specs.Lines.{arcs_with};
    ghost use Rattle.net_graph.specs.Joins.{AreJoinedBy};

    /// No arc.
    pub fn new(alloc: Global) -> Arcs
        ensures { result ≡ [] }
    {
        Arcs {
            labels: Vec::new(alloc),
            arcs: Vec::new(alloc),
        }
    }

    /// The arcs of these parts.
    pub fn from_parts(labels: Vec<Label>, arcs: Vec<KeptArc>) -> Arcs
        requires { HaveLabels (length labels.items) arcs.items }
        ensures { result ≡ arcs_of labels.items arcs.items }
    {
        Arcs { labels, arcs }
    }

    /// The labels, and the arcs.
    pub fn into_parts(self) -> (Vec<Label>, Vec<KeptArc>)
        ensures arcs { arcs_of result.0.items result.1.items ≡ self }
        ensures labels { HaveLabels (length result.0.items) result.1.items }
    {
        (self.labels, self.arcs)
    }

    /// How many arcs there are.
    pub fn count(&self) -> usize
        ensures { result ≡ length self.now }
    {
        self.arcs.len()
    }

    /// Makes room for so many arcs more.
    pub fn reserve(&mut self, count: usize) -> Result<(), NoMemory>
        ensures { self.new ≡ self.old }
    {
        self.arcs.reserve(count)?;
        Ok(())
    }

    /// Adds an arc with a label of its own. After a refusal nothing has changed.
    pub fn push(&mut self, tail: NodeId, head: NodeId, label: Label) -> Result<(), NoMemory>
        requires { CanBeNumbered (length self.old) }
        ensures ok { OnOk result (self.new ≡ arcs_with tail.0 head.0 (pure_label label) self.old) }
        ensures err { OnErr result (self.new ≡ self.old) }
    {
        let arc = KeptArc {
            id: ArcId(self.arcs.len() as u32),
            tail,
            head,
            label: next_label(&self.labels)?,
        };
        self.labels.reserve(1)?;
        self.arcs.push(arc)?;
        self.labels.push(label).unwrap();
        Ok(())
    }

    /// Adds an arc with the label of another. After a refusal nothing has changed.
    #[inline(always)]
    pub fn push_like(&mut self, tail: NodeId, head: NodeId, like: ArcId) -> Result<(), NoMemory>
        requires room { CanBeNumbered (length self.old) }
        requires like { like.0 < length self.old }
        ensures ok { OnOk result (IfSome (slice_get self.old like.0) (λ arc.
            self.new ≡ arcs_with tail.0 head.0 arc.label self.old)) }
        ensures err { OnErr result (self.new ≡ self.old) }
    {
        let arc = KeptArc {
            id: ArcId(self.arcs.len() as u32),
            tail,
            head,
            label: self.arcs[like.0 as usize].label,
        };
        // Mostly there is room, and then no call is made.
        self.arcs.reserve(1)?;
        self.arcs.push_reserved(arc);
        Ok(())
    }

    /// Which nodes the arcs join.
    pub fn joins(&self, alloc: Global) -> Result<Joins, NoMemory>
        ensures { IfOk result (λ joins. AreJoinedBy joins self.now) }
    {
        let mut joins = Joins::new(alloc);
        for arc in &self.arcs {
            joins.make_room(alloc, arc.tail.0, arc.head.0)?;
            joins.note(arc.tail.0, arc.head.0);
        }
        Ok(joins)
    }

    /// The arcs with a change.
    pub fn changed(self, alloc: Global, change: &Change) -> Result<Arcs, NoMemory>
        requires { CanBeNumbered (length self) }
        ensures { IfOk result (λ arcs. arcs ≡ changed_arcs (pure_change change.now) self) }
    {
        match change {
            Change::Drop { tail, head } => {
                let (labels, arcs) = self.into_parts();
                let arcs = arcs_without(alloc, &arcs, *tail, *head)?;
                Ok(Arcs::from_parts(labels, arcs))
            }
            Change::Link { tail, head, label } => {
                self.linked(alloc, *tail, *head, label.copy(alloc)?)
            }
        }
    }

    // The arcs, where the one from the tail to the head has that label, or is added.
    fn linked(
        mut self,
        alloc: Global,
        tail: NodeId,
        head: NodeId,
        label: Label,
    ) -> Result<Arcs, NoMemory>
        requires { CanBeNumbered (length self) }
        ensures { IfOk result (λ arcs. arcs ≡ changed_arcs (link tail.0 head.0 (pure_label label)) self) }
    {
        if !are_joined(&self.arcs, tail, head) {
            self.push(tail, head, label)?;
            return Ok(self);
        }
        let (mut labels, arcs) = self.into_parts();
        let arcs = arcs_with_label(alloc, &arcs, tail, head, next_label(&labels)?)?;
        labels.push(label)?;
        Ok(Arcs::from_parts(labels, arcs))
    }
}

// The place of the next label. It is refused where there are more labels than can be numbered.
fn next_label(labels: &[Label]) -> Result<LabelId, NoMemory>
    ensures { IfOk result (λ label. label.0 ≡ length labels.now) }
{
    if labels.len() > u32::MAX as usize {
        return Err(NoMemory);
    }
    Ok(LabelId(labels.len() as u32))
}

// Equal labels.
pub(crate) fn copy_labels(alloc: Global, labels: &[Label]) -> Result<Vec<Label>, NoMemory>
    ensures { IfOk result (λ copied. map pure_label copied.items ≡ map pure_label labels.now) }
{
    let mut copied = Vec::with_capacity(alloc, labels.len())?;
    for label in labels {
        copied.push(label.copy(alloc)?)?;
    }
    Ok(copied)
}
