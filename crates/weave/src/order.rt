// What a block remembers of the order in which it looks at arcs. No contract speaks of it.
ghost use Rattle.std.specs.Prelude.{◌≡◌, ◌<◌, ℕ, vec_len};
ghost use Rattle.weave.specs.Blocks.{view_of};
ghost use Rattle.weave.specs.Gathered.{view_at};

use crate::block::Block;
use crate::lane::Lane;
use meta_base::{ArcId, NoMemory};
use node_core::NodeCore;

// Forgets all of a block.
fn forget<N: NodeCore>(block: &mut Block<N>)
    ensures { view_of N.state N.note block.new ≡ view_of N.state N.note block.old }
{
    block.ready.clear();
    block.unsent.clear();
    block.coming.clear();
}

/// Forgets all of every block.
pub(crate) fn forget_all<N: NodeCore>(blocks: &mut Vec<Block<N>>)
    ensures count { vec_len blocks.new ≡ vec_len blocks.old }
    ensures same { (b : ℕ) → view_at N.state N.note blocks.new.items b ≡ view_at N.state N.note blocks.old.items b }
{
    for block in blocks.iter_mut() {
        forget(block);
    }
}

// The arc is ready once for each message that waits there.
fn note_waiting<N: NodeCore>(block: &mut Block<N>, arc: ArcId) -> Result<(), NoMemory>
    ensures { view_of N.state N.note block.new ≡ view_of N.state N.note block.old }
{
    let waiting = match block.lanes.get(arc.0 as usize) {
        Some(Lane::Inside(queue)) => queue.waiting(),
        _ => 0,
    };
    for _ in 0..waiting {
        block.ready.push_back(arc)?;
    }
    Ok(())
}

/// The block notes that messages wait on the arc, which is inside it.
pub(crate) fn note_ready<N: NodeCore>(
    blocks: &mut Vec<Block<N>>,
    block: usize,
    arc: ArcId,
) -> Result<(), NoMemory>
    requires block { block < vec_len blocks.old }
    ensures count { vec_len blocks.new ≡ vec_len blocks.old }
    ensures same { (b : ℕ) → view_at N.state N.note blocks.new.items b ≡ view_at N.state N.note blocks.old.items b }
{
    note_waiting(&mut blocks[block], arc)
}

// The block notes that the arc comes from another one.
fn note_coming<N: NodeCore>(
    blocks: &mut Vec<Block<N>>,
    block: usize,
    arc: ArcId,
) -> Result<(), NoMemory>
    requires block { block < vec_len blocks.old }
    ensures count { vec_len blocks.new ≡ vec_len blocks.old }
    ensures same { (b : ℕ) → view_at N.state N.note blocks.new.items b ≡ view_at N.state N.note blocks.old.items b }
{
    blocks[block].coming.push(arc)?;
    Ok(())
}

// The block notes that something was sent on the arc that isn't flushed.
fn note_unsent<N: NodeCore>(
    blocks: &mut Vec<Block<N>>,
    block: usize,
    arc: ArcId,
) -> Result<(), NoMemory>
    requires block { block < vec_len blocks.old }
    ensures count { vec_len blocks.new ≡ vec_len blocks.old }
    ensures same { (b : ℕ) → view_at N.state N.note blocks.new.items b ≡ view_at N.state N.note blocks.old.items b }
{
    blocks[block].unsent.push_back(arc)?;
    Ok(())
}

/// The block of the listener notes that the arc comes from another one, and that of the speaker, where something was
/// sent on it that isn't flushed, that it is to be.
pub(crate) fn note_between<N: NodeCore>(
    blocks: &mut Vec<Block<N>>,
    heard: usize,
    spoken: usize,
    arc: ArcId,
    is_unsent: bool,
) -> Result<(), NoMemory>
    requires blocks { (heard < vec_len blocks.old) × (spoken < vec_len blocks.old) }
    ensures count { vec_len blocks.new ≡ vec_len blocks.old }
    ensures same { (b : ℕ) → view_at N.state N.note blocks.new.items b ≡ view_at N.state N.note blocks.old.items b }
{
    note_coming(blocks, heard, arc)?;
    if is_unsent {
        note_unsent(blocks, spoken, arc)
    } else {
        Ok(())
    }
}
