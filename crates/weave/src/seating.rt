// How a node gets its seat in a block.
ghost use Rattle.std.specs.Prelude.{◌≡◌, ◌<◌, ℕ, Some, slice_get, vec_len, OnOk};
ghost use Rattle.node_core.specs.Machine.{changed_at};
ghost use Rattle.weave.specs.Blocks.{flat};
ghost use Rattle.weave.specs.Dealt.{IsSeatPut};
ghost use Rattle.weave.specs.Gathered.{view_at};

use crate::block::Block;
use crate::seat::Seat;
use meta_base::NoMemory;
use node_core::NodeCore;

// Makes the seats so many that there is one at the place.
fn make_seat<N: NodeCore>(seats: &mut Vec<Option<Seat<N>>>, at: usize) -> Result<(), NoMemory>
    ensures place { OnOk result (at < vec_len seats.new) }
    ensures same { (i : ℕ) → flat (slice_get seats.new.items i) ≡ flat (slice_get seats.old.items i) }
{
    while seats.len() <= at {
        seats.push(None)?;
    }
    Ok(())
}

// Puts the seat at its place.
fn seat_in<N: NodeCore>(
    seats: &mut Vec<Option<Seat<N>>>,
    at: usize,
    seat: Seat<N>,
) -> Result<(), NoMemory>
    ensures { OnOk result ((i : ℕ) → flat (slice_get seats.new.items i)
        ≡ changed_at (λ n. flat (slice_get seats.old.items n)) at (Some seat) i) }
{
    make_seat(seats, at)?;
    seats[at] = Some(seat);
    Ok(())
}

/// Puts the seat at its place in the block of that number.
pub(crate) fn put_seat<N: NodeCore>(
    blocks: &mut Vec<Block<N>>,
    block: usize,
    at: usize,
    seat: Seat<N>,
) -> Result<(), NoMemory>
    requires block { block < vec_len blocks.old }
    ensures count { vec_len blocks.new ≡ vec_len blocks.old }
    ensures put { OnOk result (IsSeatPut
        (view_at N.state N.note blocks.old.items) (view_at N.state N.note blocks.new.items) block at
        (N.state seat.node) seat.clock seat.log) }
{
    seat_in(&mut blocks[block].seats, at, seat)
}
