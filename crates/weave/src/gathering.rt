// How blocks are taken apart, once their nodes are at rest.
ghost use Rattle.std.specs.Prelude.{◌≡◌, ◌<◌, ◌==◌, ℕ, false, Some, length, slice_get, vec_len, IfOk};
ghost use Rattle.weave.specs.Apart.{AreNodesOf, AreThere, IsSeatTaken, logs_across};
ghost use Rattle.weave.specs.Blocks.{flat};
ghost use Rattle.weave.specs.Gathered.{view_at};

use crate::block::Block;
use crate::links::block_at;
use crate::seat::Seat;
use journal_merge::NodeLog;
use meta_base::{List, NoMemory, NodeId};
use net_graph::Net;
use node_core::NodeCore;
use std::alloc::Global;

// Takes the seat at the place out, if there is one.
fn take_from<N: NodeCore>(seats: &mut Vec<Option<Seat<N>>>, at: usize) -> Option<Seat<N>>
    ensures taken { result ≡ flat (slice_get seats.old.items at) }
    ensures others { (i : ℕ) → (i == at) ≡ false
        → flat (slice_get seats.new.items i) ≡ flat (slice_get seats.old.items i) }
{
    if at < seats.len() {
        seats[at].take()
    } else {
        None
    }
}

// Takes the seat of a node that is there out of the block of that number.
fn take_seat<N: NodeCore>(blocks: &mut Vec<Block<N>>, block: usize, at: usize) -> Seat<N>
    requires block { block < vec_len blocks.old }
    requires there { (s : N.State) × ((view_at N.state N.note blocks.old.items block).node at ≡ Some s) }
    ensures count { vec_len blocks.new ≡ vec_len blocks.old }
    ensures taken { IsSeatTaken (view_at N.state N.note blocks.old.items) (view_at N.state N.note blocks.new.items)
        block at (N.state result.node) result.log }
{
    match take_from(&mut blocks[block].seats, at) {
        Some(seat) => seat,
        None => unreachable!(),
    }
}

/// The nodes of the blocks and their logs, in the order of the network.
pub(crate) fn take_apart<N: NodeCore>(
    alloc: Global,
    net: &Net,
    blocks: Vec<Block<N>>,
) -> Result<(List<N>, List<NodeLog>), NoMemory>
    requires there { AreThere (vec_len blocks) (view_at N.state N.note blocks.items) (length net.now.nodes) }
    ensures nodes { IfOk result (λ r. AreNodesOf N.state (vec_len blocks) (view_at N.state N.note blocks.items)
        (length net.now.nodes) r.0) }
    ensures logs { IfOk result (λ r. r.1
        ≡ logs_across (vec_len blocks) (view_at N.state N.note blocks.items) (length net.now.nodes)) }
{
    let mut blocks = blocks;
    let mut nodes = List::new(alloc);
    let mut logs = List::new(alloc);
    for number in 0..net.node_count() {
        let node = NodeId(number as u32);
        let block = block_at(node, blocks.len());
        let seat = take_seat(&mut blocks, block, number);
        nodes.push(seat.node)?;
        logs.push(NodeLog {
            node,
            entries: seat.log,
        })?;
    }
    Ok((nodes, logs))
}
