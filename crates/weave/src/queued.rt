// All nodes of a network with one queue of what waits on its arcs, for one worker.
ghost use Rattle.std.specs.Prelude.{◌≡◌, ◌<◌, ◌≤◌, ◌+◌, ◌^◌, ◌++◌, ◌∷◌, ℕ, [], Some, map, length, vec_len, IfOk, IfNone, IfSome, OnOk};
ghost use Rattle.meta_base.specs.Numbers.{max_turns};
ghost use Rattle.net_graph.specs.Nets.{IsNet};
ghost use Rattle.node_core.specs.declared.node.TheConstants.{MAX_CLOCK};
ghost use Rattle.node_core.specs.Machine.{Machine};
ghost use Rattle.weave.specs.Going.{HasEnded};
ghost use Rattle.weave.specs.Queued.{fresh_seat, logs_from, on_its_arc, queue_from};
ghost use Rattle.weave.specs.Started.{IsStarted};

use crate::in_turn::run_in_turn;
use crate::phase::keeps_laws;
use crate::seat::{Seat, hand};
use crate::started::{Ended, Started, keeps_rules};
use journal_merge::NodeLog;
use meta_base::{ArcId, Delivery, Gate, List, NoMemory, NodeId};
use net_graph::Net;
use node_core::{NodeCore, Outgoing};
use quiet_ledger::Totals;
use std::alloc::Global;
use std::collections::VecDeque;
use std::mem::replace;
use woven_laws::AllNodes;

/// All nodes of a network, by their numbers, and what waits on its arcs in the order in which it was sent. Deliveries
/// are made in that order.
#[derive(Drop)]
pub(crate) struct QueuedNodes<'a, N: NodeCore> {
    net: &'a Net,
    seats: Vec<Seat<N>>,
    queue: VecDeque<(ArcId, N::Message)>,
    // Where a node puts what it sends. Its memory is used again.
    outbox: Outgoing<N::Message>,
}

impl<'a, N: NodeCore> AllNodes for QueuedNodes<'a, N> {
    ghost use Rattle.weave.specs.Queued.{queued_log, queued_machine};

    ghost State = { N.State };

    ghost Note = { N.Note };

    ghost kind = { N.kind };

    ghost net = { λ q. q.net.now };

    ghost machine = { λ q. queued_machine N.state N.note q.seats.items q.queue.items };

    ghost log = { λ q. queued_log q.seats.items };

    ghost lawful = { N.lawful };

    fn deliver<G: Gate>(&mut self, gate: &G) -> Result<u64, NoMemory> {
        let Some((arc, message)) = take_first(&mut self.queue) else {
            unreachable!()
        };
        clear(*self.seats.allocator(), &mut self.outbox);
        let listener = self.net.arc(arc).tail.0 as usize;
        let seat = &mut self.seats[listener];
        let clock = seat.clock.max(N::stamp(&message)).saturating_add(1);
        hand(seat, arc, &message, clock, &mut self.outbox)?;
        gate.pass(0, &Delivery { clock, arc });
        let sent = self.outbox.as_slice().len() as u64;
        put_all(*self.seats.allocator(), &mut self.queue, &mut self.outbox)?;
        Ok(sent)
    }
}

// Takes the message out that waits longest, if one waits.
fn take_first<M>(queue: &mut VecDeque<(ArcId, M)>) -> Option<(ArcId, M)>
    ensures some { IfSome result (λ first. queue.old.items ≡ first ∷ queue.new.items) }
    ensures none { IfNone result (queue.old.items ≡ []) }
{
    queue.pop_front()
}

// Leaves nothing in the outbox.
fn clear<M: Drop>(alloc: Global, outbox: &mut Outgoing<M>)
    ensures { outbox.new ≡ [] }
{
    if !outbox.as_slice().is_empty() {
        *outbox = List::new(alloc);
    }
}

// Puts all of the outbox into the queue, in order. Its memory stays there.
fn put_all<M: Drop>(
    alloc: Global,
    queue: &mut VecDeque<(ArcId, M)>,
    outbox: &mut Outgoing<M>,
) -> Result<(), NoMemory>
    ensures { OnOk result (queue.new.items ≡ queue.old.items ++ outbox.old) }
{
    if outbox.as_slice().is_empty() {
        return Ok(());
    }
    let mut left = VecDeque::from_vec(replace(outbox, List::new(alloc)).into_vec());
    while let Some(sent) = left.pop_front() {
        queue.push_back(sent)?;
    }
    *outbox = List::from_vec(left.into_vec());
    Ok(())
}

// Puts what waits on an arc into the queue, in order.
fn put_link<M: Drop>(
    queue: &mut VecDeque<(ArcId, M)>,
    arc: ArcId,
    link: VecDeque<M>,
) -> Result<(), NoMemory>
    ensures { OnOk result (queue.new.items ≡ queue.old.items ++ map (on_its_arc arc.0) link.items) }
{
    let mut left = link;
    while let Some(message) = left.pop_front() {
        queue.push_back((arc, message))?;
    }
    Ok(())
}

// What waits on these links, link by link, in one queue.
fn queue_of<M: Drop>(
    alloc: Global,
    links: Vec<VecDeque<M>>,
) -> Result<VecDeque<(ArcId, M)>, NoMemory>
    requires { vec_len links ≤ 2 ^ 13 }
    ensures { IfOk result (λ queue. queue.items ≡ queue_from 0 links.items) }
{
    let mut queue = VecDeque::new(alloc);
    let mut left = VecDeque::from_vec(links);
    let mut number: usize = 0;
    while let Some(link) = left.pop_front() {
        put_link(&mut queue, ArcId(number as u32), link)?;
        number += 1;
    }
    Ok(queue)
}

// The nodes, with clocks of 0 and empty logs.
fn seats_of<N: NodeCore>(alloc: Global, nodes: List<N>) -> Result<Vec<Seat<N>>, NoMemory>
    ensures { IfOk result (λ seats. seats.items ≡ map fresh_seat nodes) }
{
    let nodes = nodes.into_vec();
    let mut seats = Vec::with_capacity(alloc, nodes.len())?;
    let mut left = VecDeque::from_vec(nodes);
    while let Some(node) = left.pop_front() {
        seats.push(Seat {
            node,
            clock: 0,
            log: List::new(alloc),
        })?;
    }
    Ok(seats)
}

// The nodes and their logs, in order.
fn apart<N: NodeCore>(
    alloc: Global,
    seats: Vec<Seat<N>>,
) -> Result<(List<N>, List<NodeLog>), NoMemory>
    requires { vec_len seats ≤ 2 ^ 13 }
    ensures nodes { IfOk result (λ r. r.0 ≡ map (λ seat. seat.node) seats.items) }
    ensures logs { IfOk result (λ r. r.1 ≡ logs_from 0 seats.items) }
{
    let mut nodes = List::new(alloc);
    let mut logs = List::new(alloc);
    let mut left = VecDeque::from_vec(seats);
    let mut number: usize = 0;
    while let Some(seat) = left.pop_front() {
        nodes.push(seat.node)?;
        logs.push(NodeLog {
            node: NodeId(number as u32),
            entries: seat.log,
        })?;
        number += 1;
    }
    Ok((nodes, logs))
}

/// Has one worker make deliveries, at most so many as there are turns, until nothing is on its way. Messages are taken in
/// the order in which they were sent. It is refused for want of memory alone.
pub(crate) fn run_queued<N: NodeCore, G: Gate>(
    alloc: Global,
    net: &Net,
    started: Started<N, N::Message>,
    turns: u64,
    gate: &G,
) -> Result<Ended<N>, NoMemory>
    requires turns { turns ≤ MAX_CLOCK }
    requires started { (c : Machine N.State N.Note) × IsStarted N.state N.note N.kind net.now c started }
    ensures { (c : Machine N.State N.Note) → IsStarted N.state N.note N.kind net.now c started
        → IfOk result (λ e. HasEnded N.kind net.now turns c (map N.state e.nodes) e.logs e.totals) }
{
    keeps_rules(net);
    keeps_laws::<N>();
    let totals = Totals {
        sent: started.waiting,
        taken: 0,
    };
    let mut nodes = QueuedNodes {
        net,
        seats: seats_of(alloc, started.nodes)?,
        queue: queue_of(alloc, started.links)?,
        outbox: List::new(alloc),
    };
    let totals = run_in_turn(&mut nodes, totals, turns, gate)?;
    let (nodes, logs) = apart(alloc, nodes.seats)?;
    Ok(Ended {
        nodes,
        logs,
        totals,
    })
}
