ghost use Rattle.std.specs.Prelude.{◌≡◌, ℕ, ◌<◌, ◌≤◌, [], false, true, length, map, vec_len, Some, Ok, OnErr, IfOk, slice_get, option_map};
ghost use Rattle.net_graph.specs.Nets.{IsNet};
ghost use Rattle.node_core.specs.declared.node.TheConstants.{MAX_CLOCK};
ghost use Rattle.node_core.specs.Configs.{machine_over};
ghost use Rattle.node_core.specs.Running.{AreUpTo};

use crate::links::{empty_links, make_room, send_all};
use crate::stepping::{begin_all, step_on};
use crate::{MAX_CLOCK, NodeCore};
use meta_base::{ArcId, Delivery, List, NoMemory};
use net_graph::Net;
use std::alloc::Global;
use std::collections::VecDeque;

/// What a delivery answers.
#[derive(Clone, Copy, Debug, PartialEq, Eq)]
pub enum Delivered {
    /// The listener of the arc took the message in front.
    Taken,
    /// No message waits on the arc.
    LinkEmpty,
}

/// What the audit of a journal finds.
#[derive(Drop)]
pub enum Replayed<'a, N: NodeCore> {
    /// The journal leads from the start of the nodes to this machine.
    Reached(Config<'a, N>),
    /// The entry at that place, counted from 0, is the first that can't be made: its arc isn't the network's, no
    /// message waits there, its clock isn't the one that the listener gets, or its clock is above [`MAX_CLOCK`].
    Broken(usize),
}

/// The machine of one thread: the nodes of a network, the last clock of each, and what waits on each arc.
#[derive(Drop)]
pub struct Config<'a, N: NodeCore> {
    net: &'a Net,
    nodes: Vec<N>,
    clocks: Vec<u64>,
    links: Vec<VecDeque<N::Message>>,
    ghost node_count: { vec_len nodes ≡ length net.now.nodes },
    ghost clock_count: { vec_len clocks ≡ length net.now.nodes },
    ghost link_count: { vec_len links ≡ length net.now.arcs },
    // No clock and no stamp is above the greatest clock, so the next clock is a number.
    ghost early: { ∥ AreUpTo N.kind (machine_over N.state N.note nodes.items clocks.items links.items) MAX_CLOCK ∥₁ },
}

impl<'a, N: NodeCore> Config<'a, N> {
    ghost use Rattle.node_core.specs.Auditing.{CannotFollow};
    ghost use Rattle.node_core.specs.Audits.{IsAudit};
    ghost use Rattle.node_core.specs.Machine.{AreUnbegun, Start, Deliver, deliver_at, front_clock};
    ghost use Rattle.node_core.specs.Running.{IsRunning};
    ghost use Rattle.node_core.specs.MachineOf.{net_of, machine_of};
    ghost use Rattle.node_core.specs.Configs.{waits_on};

    /// The machine of these nodes, one for each of the network in order, none of which is begun: every node
    /// has begun, and what they sent waits on its arcs. All clocks are 0.
    pub fn start(alloc: Global, net: &'a Net, nodes: List<N>) -> Result<Config<'a, N>, NoMemory>
        requires { AreUnbegun N.kind net.now 0 (map N.state nodes) }
        ensures net { IfOk result (λ config. net_of config ≡ net.now) }
        ensures start { IfOk result (λ config. machine_of N.state N.note config ≡ Start N.kind (map N.state nodes)) }
        ensures running { IfOk result (λ config. IsRunning N.kind net.now (machine_of N.state N.note config)) }
    {
        keeps_rules(net);
        let mut links = empty_links(alloc, net.arc_count())?;
        let clocks = vec![in alloc; 0; net.node_count()]?;
        let nodes = begin_all(alloc, nodes.into_vec(), &mut links)?;
        Ok(Config {
            net,
            nodes,
            clocks,
            links,
        })
    }

    /// Hands the listener of the arc the message in front, and puts on the links what it sends. The clock that
    /// it gets must be at most [`MAX_CLOCK`], as it is before so many deliveries were made. The answer is
    /// `LinkEmpty` exactly where no message waits there, and then nothing has changed, nor after want of memory.
    pub fn deliver(&mut self, arc: ArcId) -> Result<Delivered, NoMemory>
        requires arc { arc.0 < length (net_of self.old).arcs }
        requires running { IsRunning N.kind (net_of self.old) (machine_of N.state N.note self.old) }
        requires early { let machine = machine_of N.state N.note self.old in
            (t : ℕ) → front_clock N.kind (net_of self.old) machine arc.0 ≡ Some t → t ≤ MAX_CLOCK }
        ensures net { net_of self.new ≡ net_of self.old }
        ensures running { IsRunning N.kind (net_of self.old) (machine_of N.state N.note self.new) }
        ensures taken { result ≡ Ok Delivered.Taken
            → Deliver N.kind (net_of self.old) (machine_of N.state N.note self.old) arc.0
            ≡ Some (machine_of N.state N.note self.new) }
        ensures empty { result ≡ Ok Delivered.LinkEmpty → (machine_of N.state N.note self.old).link arc.0 ≡ [] }
        ensures unchanged { result ≡ Ok Delivered.LinkEmpty
            → machine_of N.state N.note self.new ≡ machine_of N.state N.note self.old }
        ensures err { OnErr result (machine_of N.state N.note self.new ≡ machine_of N.state N.note self.old) }
    {
        keeps_rules(self.net);
        if self.waiting(arc) == 0 {
            return Ok(Delivered::LinkEmpty);
        }
        let node = self.net.arc(arc).tail;
        make_room(&mut self.links, self.net.listeners(node))?;
        let mut out = List::new(*self.nodes.allocator());
        step_on(
            &mut self.nodes,
            &mut self.clocks,
            &mut self.links,
            node,
            arc,
            &mut out,
        )?;
        send_all(&mut self.links, out);
        Ok(Delivered::Taken)
    }

    // Makes the delivery of a journal's entry. True if it was made at the entry's clock; false where it can't be made, or
    // its clock is above the greatest.
    fn follow(&mut self, entry: Delivery) -> Result<bool, NoMemory>
        requires running { IsRunning N.kind (net_of self.old) (machine_of N.state N.note self.old) }
        ensures net { net_of self.new ≡ net_of self.old }
        ensures running { IsRunning N.kind (net_of self.old) (machine_of N.state N.note self.new) }
        ensures made { result ≡ Ok true
            → deliver_at N.kind (net_of self.old) (machine_of N.state N.note self.old) entry
            ≡ Some (machine_of N.state N.note self.new) }
        ensures early { result ≡ Ok true → entry.clock ≤ MAX_CLOCK }
        ensures broken { result ≡ Ok false
            → CannotFollow N.kind (net_of self.old) (machine_of N.state N.note self.old) entry }
    {
        if entry.arc.0 as usize >= self.net.arc_count() || entry.clock > MAX_CLOCK {
            return Ok(false);
        }
        if self.front_clock(entry.arc) != Some(entry.clock) {
            return Ok(false);
        }
        match self.deliver(entry.arc)? {
            Delivered::Taken => Ok(true),
            Delivered::LinkEmpty => Ok(false),
        }
    }

    /// Audits a journal: makes its deliveries one after another from the start of these nodes, one for each of the
    /// network in order, none of which is begun, until one can't be made. It is refused for want of memory alone. For
    /// whoever is handed a journal; no command calls it.
    pub fn replay(
        alloc: Global,
        net: &'a Net,
        nodes: List<N>,
        journal: &[Delivery],
    ) -> Result<Replayed<'a, N>, NoMemory>
        requires { AreUnbegun N.kind net.now 0 (map N.state nodes) }
        ensures { IfOk result (IsAudit N.state N.note N.kind net.now (map N.state nodes) journal.now) }
    {
        let mut config = Config::start(alloc, net, nodes)?;
        for place in 0..journal.len() {
            if !config.follow(journal[place])? {
                return Ok(Replayed::Broken(place));
            }
        }
        Ok(Replayed::Reached(config))
    }

    /// How many messages wait on the arc.
    pub fn waiting(&self, arc: ArcId) -> usize
        requires { arc.0 < length (net_of self.now).arcs }
        ensures { result ≡ length ((machine_of N.state N.note self.now).link arc.0) }
    {
        self.links[arc.0 as usize].len()
    }

    /// The clock that a delivery on the arc gives its listener, if a message waits there. It may be one above
    /// [`MAX_CLOCK`], and then the delivery can't be made.
    pub fn front_clock(&self, arc: ArcId) -> Option<u64>
        requires { arc.0 < length (net_of self.now).arcs }
        ensures { result ≡ front_clock N.kind (net_of self.now) (machine_of N.state N.note self.now) arc.0 }
    {
        let message = self.links[arc.0 as usize].front()?;
        let node = self.net.arc(arc).tail;
        Some(self.clocks[node.0 as usize].max(N::stamp(message)) + 1)
    }

    /// Lends the nodes, in the order of the network.
    pub fn nodes(&self) -> &[N]
        ensures { (i : ℕ) → (machine_of N.state N.note self.now).node i ≡ option_map N.state (slice_get result.now i) }
    {
        &self.nodes
    }

    /// Hands over the nodes, in the order of the network, and what waits on each arc, by the numbers of the arcs and
    /// with the oldest message in front.
    pub fn into_parts(self) -> (List<N>, Vec<VecDeque<N::Message>>)
        ensures nodes { (i : ℕ) → (machine_of N.state N.note self.entry).node i
            ≡ option_map N.state (slice_get result.0 i) }
        ensures links { (a : ℕ) → (machine_of N.state N.note self.entry).link a
            ≡ map N.note (waits_on result.1.items a) }
        ensures count { vec_len result.1 ≡ length (net_of self.entry).arcs }
    {
        (List::from_vec(self.nodes), self.links)
    }

    /// Lends the network.
    pub fn net(&self) -> &'a Net
        ensures { result.now ≡ net_of self.now }
    {
        self.net
    }
}

// A network keeps its rules, which the network's calls for arcs don't say.
fn keeps_rules(net: &Net)
    ensures { IsNet net.now }
{
    let _edition = net.edition();
}
