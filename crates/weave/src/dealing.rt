// How nodes, and what waits on arcs, are dealt to blocks, one for each worker.
ghost use Rattle.std.specs.Prelude.{◌≡◌, ◌<◌, ℕ, length, vec_len, IfOk, OnOk};
ghost use Rattle.net_graph.specs.Nets.{IsNet};
ghost use Rattle.weave.specs.Blocks.{view_of};
ghost use Rattle.weave.specs.Dealt.{AreLaid, AreSeatedFresh, IsDealt, IsEmptyView};
ghost use Rattle.weave.specs.Gathered.{view_at};

use crate::block::Block;
use crate::lane::Lane;
use crate::links::block_at;
use crate::replacing::replace_lane;
use crate::seat::Seat;
use crate::seating::put_seat;
use crate::started::keeps_rules;
use link_queues::Local;
use meta_base::{ArcId, List, NoMemory};
use net_graph::Net;
use node_core::NodeCore;
use std::alloc::Global;
use std::collections::VecDeque;

// A block with nothing in it.
fn empty_block<N: NodeCore>(alloc: Global) -> Block<N>
    ensures { IsEmptyView (view_of N.state N.note result) }
{
    Block {
        seats: Vec::new(alloc),
        lanes: Vec::new(alloc),
        ready: VecDeque::new(alloc),
        unsent: VecDeque::new(alloc),
        coming: Vec::new(alloc),
    }
}

// So many blocks with nothing in them.
fn empty_blocks<N: NodeCore>(alloc: Global, count: usize) -> Result<Vec<Block<N>>, NoMemory>
    ensures count { IfOk result (λ blocks. vec_len blocks ≡ count) }
    ensures empty { IfOk result (λ blocks. (b : ℕ) → IsEmptyView (view_at N.state N.note blocks.items b)) }
{
    let mut blocks = Vec::new(alloc);
    for _ in 0..count {
        blocks.push(empty_block(alloc))?;
    }
    Ok(blocks)
}

// Seats each node in its block, with a clock of 0 and an empty log.
fn seat_all<N: NodeCore>(
    alloc: Global,
    blocks: &mut Vec<Block<N>>,
    nodes: List<N>,
) -> Result<(), NoMemory>
    requires count { 0 < vec_len blocks.old }
    requires empty { (b : ℕ) → IsEmptyView (view_at N.state N.note blocks.old.items b) }
    ensures count { vec_len blocks.new ≡ vec_len blocks.old }
    ensures seated { OnOk result (AreSeatedFresh N.state (vec_len blocks.old) nodes
        (view_at N.state N.note blocks.new.items)) }
{
    let mut number = 0;
    for node in nodes.into_vec() {
        let seat = Seat {
            node,
            clock: 0,
            log: List::new(alloc),
        };
        let block = number % blocks.len();
        put_seat(blocks, block, number, seat)?;
        number += 1;
    }
    Ok(())
}

// Lays what waits on each arc into the block of its listener.
fn lay_all<N: NodeCore>(
    net: &Net,
    blocks: &mut Vec<Block<N>>,
    links: Vec<VecDeque<N::Message>>,
) -> Result<(), NoMemory>
    requires net { IsNet net.now }
    requires count { 0 < vec_len blocks.old }
    requires links { vec_len links ≡ length net.now.arcs }
    ensures count { vec_len blocks.new ≡ vec_len blocks.old }
    ensures laid { OnOk result (AreLaid N.note net.now (vec_len blocks.old) links.items
        (view_at N.state N.note blocks.old.items) (view_at N.state N.note blocks.new.items)) }
{
    let mut number = 0;
    for queue in links {
        let arc = ArcId(number);
        let heard = block_at(net.arc(arc).tail, blocks.len());
        replace_lane(blocks, heard, arc, Lane::Inside(Local::from_queue(queue)))?;
        number += 1;
    }
    Ok(())
}

/// So many blocks, in which the nodes of the network and what waits on its arcs are dealt: node k to block k modulo
/// their number, with a clock of 0 and an empty log, and an arc to the block of its listener.
pub(crate) fn blocks_of<N: NodeCore>(
    alloc: Global,
    net: &Net,
    nodes: List<N>,
    links: Vec<VecDeque<N::Message>>,
    count: usize,
) -> Result<Vec<Block<N>>, NoMemory>
    requires count { 0 < count }
    requires nodes { length nodes ≡ length net.now.nodes }
    requires links { vec_len links ≡ length net.now.arcs }
    ensures count { IfOk result (λ blocks. vec_len blocks ≡ count) }
    ensures dealt { IfOk result (λ blocks. IsDealt N.note net.now count N.state nodes links.items
        (view_at N.state N.note blocks.items)) }
{
    keeps_rules(net);
    let mut blocks = empty_blocks(alloc, count)?;
    seat_all(alloc, &mut blocks, nodes)?;
    lay_all(net, &mut blocks, links)?;
    Ok(blocks)
}
