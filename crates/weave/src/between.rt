// The delivery between two rounds of workers.
ghost use Rattle.std.specs.Prelude.{◌≡◌, ◌<◌, ◌≤◌, ◌==◌, ℕ, [], ◌∷◌, false, length, map, vec_len, IfOk, OnOk, IfNone, IfSome, Some};
ghost use Rattle.std.specs.List.{AllByRecursion};
ghost use Rattle.net_graph.specs.Nets.{IsNet};
ghost use Rattle.net_graph.specs.declared.limits.TheConstants.{MAX_ARCS};
ghost use Rattle.node_core.specs.declared.node.TheConstants.{MAX_CLOCK};
ghost use Rattle.node_core.specs.Configs.{noted};
ghost use Rattle.node_core.specs.Machine.{front_clock};
ghost use Rattle.node_core.specs.Running.{IsRunning};
ghost use Rattle.weave.specs.Between.{IsOneRound, IsPut};
ghost use Rattle.weave.specs.Gathered.{AreGathered, machine_across, view_at};
ghost use Rattle.weave.specs.Views.{AreSeated, HasTaken, IsLate};

use crate::block::{Block, hear};
use crate::lane::Lane;
use crate::links::{block_at, take_waiting};
use crate::phase::keeps_laws;
use crate::replacing::replace_lane;
use meta_base::{ArcId, Delivery, Gate, List, NoMemory};
use net_graph::Net;
use node_core::{NodeCore, Outgoing};
use std::alloc::Global;

// The listener of the arc takes the message in front there, if both are in the block and one is seen.
fn hear_in<N: NodeCore>(
    blocks: &mut Vec<Block<N>>,
    block: usize,
    net: &Net,
    arc: ArcId,
    out: &mut Outgoing<N::Message>,
) -> Result<Option<Delivery>, NoMemory>
    requires block { block < vec_len blocks.old }
    requires out { out.old ≡ [] }
    requires arc { arc.0 < length net.now.arcs }
    requires seated { AreSeated N.kind net.now (view_at N.state N.note blocks.old.items block) }
    ensures count { vec_len blocks.new ≡ vec_len blocks.old }
    ensures others { (b : ℕ) → (b == block) ≡ false
        → view_at N.state N.note blocks.new.items b ≡ view_at N.state N.note blocks.old.items b }
    ensures some { IfOk result (λ made. IfSome made (λ e. HasTaken N.kind net.now
        (view_at N.state N.note blocks.old.items block) e (map (noted N.note) out.new) []
        (view_at N.state N.note blocks.new.items block))) }
    ensures late { IfOk result (λ made. IfNone made
        (IsLate N.kind net.now (view_at N.state N.note blocks.old.items block) arc.0)) }
{
    let here = &mut blocks[block];
    hear(&mut here.seats, &mut here.lanes, net, arc, out)
}

// Appends the message to what waits on the arc, with its listener.
fn put_one<N: NodeCore>(
    net: &Net,
    blocks: &mut Vec<Block<N>>,
    arc: ArcId,
    message: N::Message,
) -> Result<(), NoMemory>
    requires count { 0 < vec_len blocks.old }
    requires gathered { AreGathered net.now (vec_len blocks.old) (view_at N.state N.note blocks.old.items) }
    requires arc { arc.0 < length net.now.arcs }
    ensures count { vec_len blocks.new ≡ vec_len blocks.old }
    ensures put { OnOk result (IsPut net.now (vec_len blocks.old) ((arc.0, N.note message) ∷ [])
        (view_at N.state N.note blocks.old.items) (view_at N.state N.note blocks.new.items)) }
{
    let heard = block_at(net.arc(arc).tail, blocks.len());
    let mut queue = take_waiting(blocks, heard, arc)?;
    queue.reserve(1)?;
    queue.send(message);
    replace_lane(blocks, heard, arc, Lane::Inside(queue))?;
    Ok(())
}

// Appends each message to what waits on its arc, in order.
fn put_all<N: NodeCore>(
    net: &Net,
    blocks: &mut Vec<Block<N>>,
    out: Outgoing<N::Message>,
) -> Result<(), NoMemory>
    requires count { 0 < vec_len blocks.old }
    requires gathered { AreGathered net.now (vec_len blocks.old) (view_at N.state N.note blocks.old.items) }
    requires arcs { AllByRecursion (λ p. p.0.0 < length net.now.arcs) out }
    ensures count { vec_len blocks.new ≡ vec_len blocks.old }
    ensures put { OnOk result (IsPut net.now (vec_len blocks.old) (map (noted N.note) out)
        (view_at N.state N.note blocks.old.items) (view_at N.state N.note blocks.new.items)) }
{
    for (arc, message) in out.into_vec() {
        put_one(net, blocks, arc, message)?;
    }
    Ok(())
}

/// The listener of the arc takes the message in front there, and what it puts out waits with the listeners of its arcs.
/// Nothing is on a link. The gate gets a report of the delivery, as made by a worker of that number. It answers how
/// many messages were sent.
pub(crate) fn deliver_between<N: NodeCore, G: Gate>(
    alloc: Global,
    net: &Net,
    blocks: &mut Vec<Block<N>>,
    arc: ArcId,
    worker: u32,
    gate: &G,
) -> Result<u64, NoMemory>
    requires net { IsNet net.now }
    requires count { 0 < vec_len blocks.old }
    requires gathered { AreGathered net.now (vec_len blocks.old) (view_at N.state N.note blocks.old.items) }
    requires running { IsRunning N.kind net.now
        (machine_across net.now (vec_len blocks.old) (view_at N.state N.note blocks.old.items)) }
    requires arc { arc.0 < length net.now.arcs }
    requires waits { 0 < length ((machine_across net.now (vec_len blocks.old)
        (view_at N.state N.note blocks.old.items)).link arc.0) }
    requires early { (t : ℕ) → front_clock N.kind net.now (machine_across net.now (vec_len blocks.old)
        (view_at N.state N.note blocks.old.items)) arc.0 ≡ Some t → t ≤ MAX_CLOCK }
    ensures count { vec_len blocks.new ≡ vec_len blocks.old }
    ensures made { IfOk result (IsOneRound N.kind net.now (vec_len blocks.old)
        (view_at N.state N.note blocks.old.items) (view_at N.state N.note blocks.new.items)) }
    ensures few { IfOk result (λ sent. sent ≤ MAX_ARCS) }
{
    keeps_laws::<N>();
    let block = block_at(net.arc(arc).tail, blocks.len());
    let mut out = List::new(alloc);
    let Some(made) = hear_in(blocks, block, net, arc, &mut out)? else {
        unreachable!()
    };
    gate.pass(worker, &made);
    let sent = out.as_slice().len() as u64;
    put_all(net, blocks, out)?;
    Ok(sent)
}
