ghost use Rattle.std.specs.Prelude.{◌≡◌, ℕ, ◌+◌, ◌-◌, ◌<◌, ◌≤◌, [], ◌∷◌, ◌++◌, All, false, true, length, map, max, vec_len, Some, OnOk, OnErr, IfOk};
ghost use Rattle.std.specs.List.{AllByRecursion};
ghost use Rattle.std.specs.VecDeque.{deque_len, deque_capacity};
ghost use Rattle.node_core.specs.Kinds.{on_arc, listener};
ghost use Rattle.node_core.specs.Machine.{begun_messages};
ghost use Rattle.node_core.specs.Configs.{noted, waits_on, spare_on, machine_over};
ghost use Rattle.node_core.specs.Stepping.{HasStepped, CanTake};

use crate::links::put_all;
use crate::{MAX_CLOCK, NodeCore, Outgoing};
use meta_base::{ArcId, List, NoMemory, NodeId};
use std::alloc::Global;
use std::collections::VecDeque;

// Begins a node, and puts on the links what it sends.
fn begin<N: NodeCore>(
    alloc: Global,
    mut node: N,
    links: &mut Vec<VecDeque<N::Message>>,
) -> Result<N, NoMemory>
    requires unbegun { N.kind.is_begun (N.state node) ≡ false }
    requires arcs { AllByRecursion (λ p. p.0 < vec_len links.old) (N.kind.begin (N.state node)).1 }
    ensures count { vec_len links.new ≡ vec_len links.old }
    ensures node { IfOk result (λ begun. N.state begun ≡ (N.kind.begin (N.state node)).0) }
    ensures sent { OnOk result ((b : ℕ) → map N.note (waits_on links.new.items b)
        ≡ map N.note (waits_on links.old.items b) ++ on_arc b (N.kind.begin (N.state node)).1) }
{
    let mut out = List::new(alloc);
    node.on_start(&mut out)?;
    put_all(links, out)?;
    Ok(node)
}

// Begins nodes one after another, and puts on the links what they send.
pub(crate) fn begin_all<N: NodeCore>(
    alloc: Global,
    nodes: Vec<N>,
    links: &mut Vec<VecDeque<N::Message>>,
) -> Result<Vec<N>, NoMemory>
    requires unbegun { AllByRecursion (λ n. N.kind.is_begun (N.state n) ≡ false) nodes.items }
    requires arcs { AllByRecursion (λ n. AllByRecursion (λ p. p.0 < vec_len links.old)
        (N.kind.begin (N.state n)).1) nodes.items }
    ensures count { vec_len links.new ≡ vec_len links.old }
    ensures nodes { IfOk result (λ begun.
        map N.state begun.items ≡ map (λ n. (N.kind.begin (N.state n)).0) nodes.items) }
    ensures sent { OnOk result ((b : ℕ) → map N.note (waits_on links.new.items b)
        ≡ map N.note (waits_on links.old.items b) ++ on_arc b (begun_messages N.kind (map N.state nodes.items))) }
{
    let mut begun = Vec::with_capacity(alloc, nodes.len())?;
    for node in nodes {
        begun.push(begin(alloc, node, links)?)?;
    }
    Ok(begun)
}

// The node takes the message in front of the link, which stays there while the node steps: so a refusal
// changes nothing.
fn step_front<N: NodeCore>(
    node: &mut N,
    clock: &mut u64,
    link: &mut VecDeque<N::Message>,
    arc: ArcId,
    out: &mut Outgoing<N::Message>,
) -> Result<(), NoMemory>
    requires out { out.old ≡ [] }
    requires begun { N.kind.is_begun (N.state node.old) ≡ true }
    requires last { N.kind.last (N.state node.old) ≡ clock.old }
    requires listener { listener (N.kind.net (N.state node.old)) arc.0 ≡ Some (N.kind.number (N.state node.old)) }
    requires waits { 0 < deque_len link.old }
    requires early { (m : _) (rest : _) → link.old.items ≡ m ∷ rest
        → max clock.old (N.kind.stamp (N.note m)) + 1 ≤ MAX_CLOCK }
    ensures room { (deque_len link.new ≤ deque_len link.old) × (deque_capacity link.new ≡ deque_capacity link.old) }
    ensures err { OnErr result ((link.new.items ≡ link.old.items) × (clock.new ≡ clock.old)
        × (N.state node.new ≡ N.state node.old)) }
    ensures taken { OnOk result ((m : _) × (link.old.items ≡ m ∷ link.new.items)
        × (clock.new ≡ max clock.old (N.kind.stamp (N.note m)) + 1)
        × (N.state node.new ≡ (N.kind.step (N.state node.old) arc.0 (N.note m) clock.new).0)
        × (map (noted N.note) out.new ≡ (N.kind.step (N.state node.old) arc.0 (N.note m) clock.new).1)) }
{
    let Some(message) = link.front() else {
        unreachable!()
    };
    let next = (*clock).max(N::stamp(message)) + 1;
    node.on_message(arc, message, next, out)?;
    *clock = next;
    link.pop_front();
    Ok(())
}

// The same among all nodes, clocks and links.
pub(crate) fn step_on<N: NodeCore>(
    nodes: &mut Vec<N>,
    clocks: &mut Vec<u64>,
    links: &mut Vec<VecDeque<N::Message>>,
    place: NodeId,
    arc: ArcId,
    out: &mut Outgoing<N::Message>,
) -> Result<(), NoMemory>
    requires out { out.old ≡ [] }
    requires node { place.0 < vec_len nodes.old }
    requires clock { place.0 < vec_len clocks.old }
    requires arc { arc.0 < vec_len links.old }
    requires able { CanTake N.kind (machine_over N.state N.note nodes.old.items clocks.old.items links.old.items)
        arc.0 place.0 MAX_CLOCK }
    ensures nodes { vec_len nodes.new ≡ vec_len nodes.old }
    ensures clocks { vec_len clocks.new ≡ vec_len clocks.old }
    ensures links { vec_len links.new ≡ vec_len links.old }
    ensures room { (b : ℕ) → spare_on links.old.items b ≤ spare_on links.new.items b }
    ensures err { OnErr result (machine_over N.state N.note nodes.new.items clocks.new.items links.new.items
        ≡ machine_over N.state N.note nodes.old.items clocks.old.items links.old.items) }
    ensures taken { OnOk result (HasStepped N.kind
        (machine_over N.state N.note nodes.old.items clocks.old.items links.old.items) arc.0 place.0
        (map (noted N.note) out.new)
        (machine_over N.state N.note nodes.new.items clocks.new.items links.new.items)) }
{
    let i = place.0 as usize;
    step_front(
        &mut nodes[i],
        &mut clocks[i],
        &mut links[arc.0 as usize],
        arc,
        out,
    )
}
