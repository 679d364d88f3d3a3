// Tests of runs on drawn networks: that their journals are replayed, one delivery after another, to what they tell.
ghost use Rattle.std.specs.Prelude.{◌≡◌, OnOk};
ghost use Rattle.node_core.specs.MachineOf.{machine_of, net_of};
ghost use Rattle.node_core.specs.Running.{AreUpTo, IsRunning};

use crate::draws::{Draws, KINDS, Kind, network_lines};
use crate::runs::{Ran, run};
use alg_model::TreeAlgebra;
use meta_base::{ArcId, Delivery, Gate};
use net_graph::Net;
use node_core::{Config, MAX_CLOCK, NodeCore};
use std::alloc::Global;
use std::sync::Wait;
use std::sync::atomic::{AtomicBool, AtomicU64, Ordering};
use std::test::Fail;
use std::thread::Threads;
use testkit_nodes::{are_same_rows, make_delivery, new_nodes, rows_now};
use testkit_readers::network;

// How many networks of each kind are drawn.
const NETWORKS: u32 = 60;

// Counts the deliveries, adds up their clocks, and notes whether one was reported by a worker that hasn't its listener.
#[derive(Drop)]
struct Tally<'a> {
    net: &'a Net,
    workers: u32,
    deliveries: AtomicU64,
    clocks: AtomicU64,
    has_stranger: AtomicBool,
}

impl<'a> Tally<'a> {
    fn new(net: &'a Net, workers: u32) -> Tally<'a> {
        Tally {
            net,
            workers,
            deliveries: AtomicU64::new(0),
            clocks: AtomicU64::new(0),
            has_stranger: AtomicBool::new(false),
        }
    }

    // Whether the delivery is the worker's: its listener is with the worker, or it was made between rounds.
    fn is_of(&self, worker: u32, delivery: &Delivery) -> bool {
        let arc = delivery.arc;
        if self.workers == 0 || arc.0 as usize >= self.net.arc_count() {
            return false;
        }
        worker == self.workers || worker == self.net.arc(arc).tail.0 % self.workers
    }

    // Whether such deliveries, and of no others.
    fn was_reported(&self, journal: &[Delivery]) -> bool {
        let clocks = journal
            .iter()
            .fold(0u64, |sum, made| sum.wrapping_add(made.clock));
        self.deliveries.load(Ordering::SeqCst) == journal.len() as u64
            && self.clocks.load(Ordering::SeqCst) == clocks
            && !self.has_stranger.load(Ordering::SeqCst)
    }
}

impl Gate for Tally<'_> {
    fn pass(&self, worker: u32, delivery: &Delivery) {
        self.deliveries.fetch_add(1, Ordering::SeqCst);
        self.clocks.fetch_add(delivery.clock, Ordering::SeqCst);
        if !self.is_of(worker, delivery) {
            self.has_stranger.store(true, Ordering::SeqCst);
        }
    }
}

// Whether the pairs of clock and listener ascend.
fn ascends(net: &Net, journal: &[Delivery]) -> bool {
    let mut last = (0, 0);
    for delivery in journal {
        if delivery.arc.0 as usize >= net.arc_count() {
            return false;
        }
        let next = (delivery.clock, net.arc(delivery.arc).tail.0);
        if next <= last {
            return false;
        }
        last = next;
    }
    true
}

// How many messages wait.
fn waiting<N: NodeCore>(config: &Config<'_, N>) -> u64 {
    let mut count = 0u64;
    for id in 0..config.net().arc_count() {
        count = count.saturating_add(config.waiting(ArcId(id as u32)) as u64);
    }
    count
}

// Makes the deliveries of the journal. Whether each gives the clock that the journal has.
fn makes_all<N: NodeCore>(config: &mut Config<'_, N>, journal: &[Delivery]) -> Result<bool, Fail>
    requires running { IsRunning N.kind (net_of config.old) (machine_of N.state N.note config.old) }
    requires begun { AreUpTo N.kind (machine_of N.state N.note config.old) 0 }
    ensures { OnOk result (IsRunning N.kind (net_of config.new) (machine_of N.state N.note config.new)) }
{
    let mut made = 0;
    for delivery in journal {
        if made >= MAX_CLOCK {
            return Err("too many deliveries".into());
        }
        if make_delivery(config, delivery.arc, made)? != Some(delivery.clock) {
            return Ok(false);
        }
        made += 1;
    }
    Ok(true)
}

// Whether the journal leads from the start of the network's nodes to the rows of the run, with as many messages on
// their way as it tells.
fn is_replayed(alloc: Global, net: &Net, ran: &Ran) -> Result<bool, Fail> {
    let algebra = TreeAlgebra::new(net.alg());
    let nodes = new_nodes(alloc, &algebra, net)?;
    let mut config = Config::start(alloc, net, nodes)?;
    if !makes_all(&mut config, ran.journal.as_slice())? {
        return Ok(false);
    }
    let waits = waiting(&config);
    let rows = rows_now(alloc, &config)?;
    Ok(
        ran.is_quiet == (waits == 0)
            && ran.totals.sent.checked_sub(ran.totals.taken) == Some(waits)
            && are_same_rows(rows.as_slice(), ran.rows.as_slice()),
    )
}

// Whether there are as many deliveries as the turns allow, and as were counted.
fn keeps_turns(ran: &Ran, turns: u64) -> bool {
    let taken = ran.journal.as_slice().len() as u64;
    ran.totals.taken == taken && taken <= turns && (ran.is_quiet || taken == turns)
}

// Whether a run on the network is quiet; none where it isn't as its journal tells.
fn quiet_as_reported<R: Threads + Wait + Sync>(
    rt: &R,
    alloc: Global,
    net: &Net,
    workers: u32,
    turns: u64,
) -> Result<Option<bool>, Fail> {
    let tally = Tally::new(net, workers);
    let ran = run(rt, alloc, net, workers, turns, &tally)?;
    let journal = ran.journal.as_slice();
    let is_right = keeps_turns(&ran, turns)
        && tally.was_reported(journal)
        && ascends(net, journal)
        && is_replayed(alloc, net, &ran)?;
    Ok(if is_right { Some(ran.is_quiet) } else { None })
}

// The same over a network of these lines.
fn quiet_over<R: Threads + Wait + Sync>(
    rt: &R,
    alloc: Global,
    kind: &Kind,
    lines: &str,
    workers: u32,
    turns: u64,
) -> Result<Option<bool>, Fail> {
    let net = network(alloc, kind.expression, lines.as_bytes())?;
    let answer = quiet_as_reported(rt, alloc, &net, workers, turns);
    drop(net);
    answer
}

#[test]
fn drawn_runs_are_replayed(rt: HostRuntime) -> Result<(), Fail> {
    let mut draws = Draws::new();
    let mut quiet = 0u32;
    let mut spent = 0u32;
    for kind in KINDS {
        for _ in 0..NETWORKS {
            let lines = network_lines(rt.alloc(), &mut draws, kind)?;
            let workers = 1 + draws.below(5);
            let turns = u64::from(draws.below(61));
            match quiet_over(&rt, rt.alloc(), kind, lines.as_str(), workers, turns)? {
                Some(true) => quiet = quiet.saturating_add(1),
                Some(false) => spent = spent.saturating_add(1),
                None => assert!(rt; false, "{workers} workers, {turns} turns: {lines}"),
            }
        }
    }
    assert!(rt; quiet > 0);
    assert!(rt; spent > 0);
    Ok(())
}
