ghost use Rattle.std.specs.Prelude.{◌≡◌, map, length, IfOk};
ghost use Rattle.std.specs.List.{list_any};
ghost use Rattle.net_graph.specs.Nets.{CanBeNumbered};
ghost use Rattle.net_graph.specs.Kept.{is_kept_between, kept_with, kept_without};

use crate::arcs::{KeptArc, LabelId};
use alg_model::Label;
use meta_base::{ArcId, NoMemory, NodeId};
use std::alloc::Global;

/// A change of a network.
#[derive(Debug, Drop)]
pub enum Change {
    /// The arc from `tail` to `head` gets this label in its place; if there is none, it is added as the
    /// last arc.
    Link {
        tail: NodeId,
        head: NodeId,
        label: Label,
    },
    /// The arc from `tail` to `head` is taken out, and later arcs move up by one.
    Drop {
        tail: NodeId,
        head: NodeId,
    },
}

// The arc goes from the tail to the head.
fn is_between(arc: &KeptArc, tail: NodeId, head: NodeId) -> bool
    ensures { result ≡ is_kept_between tail.0 head.0 arc.now }
{
    arc.tail.0 == tail.0 && arc.head.0 == head.0
}

// One of the arcs goes from the tail to the head.
pub(crate) fn are_joined(arcs: &[KeptArc], tail: NodeId, head: NodeId) -> bool
    ensures { result ≡ list_any (is_kept_between tail.0 head.0) arcs.now }
{
    arcs.iter().any(|arc| is_between(arc, tail, head))
}

// The arcs, where the one from the tail to the head has the label at that place.
pub(crate) fn arcs_with_label(
    alloc: Global,
    arcs: &[KeptArc],
    tail: NodeId,
    head: NodeId,
    label: LabelId,
) -> Result<Vec<KeptArc>, NoMemory>
    ensures { IfOk result (λ made. made.items ≡ map (kept_with tail.0 head.0 label) arcs.now) }
{
    let mut made = Vec::with_capacity(alloc, arcs.len())?;
    for arc in arcs {
        if is_between(arc, tail, head) {
            made.push(KeptArc { label, ..*arc })?;
        } else {
            made.push(*arc)?;
        }
    }
    Ok(made)
}

// The arcs but the one from the tail to the head.
pub(crate) fn arcs_without(
    alloc: Global,
    arcs: &[KeptArc],
    tail: NodeId,
    head: NodeId,
) -> Result<Vec<KeptArc>, NoMemory>
    requires { CanBeNumbered (length arcs.now) }
    ensures { IfOk result (λ made. made.items ≡ kept_without tail.0 head.0 arcs.now) }
{
    let mut made = Vec::with_capacity(alloc, arcs.len())?;
    for arc in arcs {
        if !is_between(arc, tail, head) {
            let id = ArcId(made.len() as u32);
            made.push(KeptArc { id, ..*arc })?;
        }
    }
    Ok(made)
}
