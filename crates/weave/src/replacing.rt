// How a block gets another lane of an arc.
ghost use Rattle.std.specs.Prelude.{◌≡◌, ◌<◌, ℕ, slice_get, vec_len, IfOk, OnOk};
ghost use Rattle.node_core.specs.Machine.{changed_at};
ghost use Rattle.weave.specs.Arcs.{IsReplaced};
ghost use Rattle.weave.specs.Gathered.{view_at};
ghost use Rattle.weave.specs.Lanes.{lane_in, lane_of, noted_lane};

use crate::block::Block;
use crate::lane::Lane;
use meta_base::{ArcId, NoMemory};
use node_core::NodeCore;
use std::mem;

// Makes the lanes so many that there is one at the place.
fn make_place<M: Drop>(lanes: &mut Vec<Lane<M>>, at: usize) -> Result<(), NoMemory>
    ensures place { OnOk result (at < vec_len lanes.new) }
    ensures same { (a : ℕ) → lane_in (slice_get lanes.new.items a) ≡ lane_in (slice_get lanes.old.items a) }
{
    while lanes.len() <= at {
        lanes.push(Lane::Elsewhere)?;
    }
    Ok(())
}

// Puts the lane of the arc in place of what is there, and hands that over.
fn replace_in<M: Drop>(
    lanes: &mut Vec<Lane<M>>,
    arc: ArcId,
    lane: Lane<M>,
) -> Result<Lane<M>, NoMemory>
    ensures was { IfOk result (λ was. lane_in (slice_get lanes.old.items arc.0) ≡ lane_of was) }
    ensures now { OnOk result ((a : ℕ) → lane_in (slice_get lanes.new.items a)
        ≡ changed_at (λ n. lane_in (slice_get lanes.old.items n)) arc.0 (lane_of lane) a) }
{
    let at = arc.0 as usize;
    make_place(lanes, at)?;
    Ok(mem::replace(&mut lanes[at], lane))
}

/// Puts the lane of the arc in place of what the block of that number has of it, and hands that over.
pub(crate) fn replace_lane<N: NodeCore>(
    blocks: &mut Vec<Block<N>>,
    block: usize,
    arc: ArcId,
    lane: Lane<N::Message>,
) -> Result<Lane<N::Message>, NoMemory>
    requires block { block < vec_len blocks.old }
    ensures count { vec_len blocks.new ≡ vec_len blocks.old }
    ensures replaced { IfOk result (λ was. IsReplaced
        (view_at N.state N.note blocks.old.items) (view_at N.state N.note blocks.new.items) block arc.0
        (noted_lane N.note (lane_of was)) (noted_lane N.note (lane_of lane))) }
{
    replace_in(&mut blocks[block].lanes, arc, lane)
}
