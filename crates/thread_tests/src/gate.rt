// Tests of what is reported to a gate: that workers really run at once and pass each other messages.
use crate::runs::run;
use meta_base::{ArcId, Delivery, Gate};
use std::alloc::Global;
use std::sync::Wait;
use std::sync::atomic::{AtomicBool, AtomicU32, AtomicU64, Ordering};
use std::test::Fail;
use std::thread;
use std::thread::Threads;
use testkit_readers::network;

// How often each test runs.
const RUNS: u32 = 50;

// How many turns a wait has before it is given up.
const WAIT_TURNS: u64 = 100_000_000;

const HOPS: &str = "add(1..1)";

// Runs the network of these lines and reports to the gate.
fn run_reported<G: Gate, R: Threads + Wait + Sync>(
    rt: &R,
    alloc: Global,
    lines: &[u8],
    workers: u32,
    gate: &G,
) -> Result<(), Fail> {
    let net = network(alloc, HOPS, lines)?;
    let ran = run(rt, alloc, &net, workers, 100, gate);
    drop(net);
    match ran?.is_quiet {
        true => Ok(()),
        false => Err("the run isn't quiet".into()),
    }
}

// Counts the deliveries of two workers, and holds the first two of each until the other one made as many.
#[derive(Drop)]
struct Meeting {
    first: AtomicU64,
    second: AtomicU64,
    // Those between rounds.
    others: AtomicU64,
    has_given_up: AtomicBool,
}

impl Meeting {
    fn new() -> Meeting {
        Meeting {
            first: AtomicU64::new(0),
            second: AtomicU64::new(0),
            others: AtomicU64::new(0),
            has_given_up: AtomicBool::new(false),
        }
    }

    // Waits until the count is at least that, or a wait was given up.
    fn wait_for(&self, count: &AtomicU64, least: u64) {
        for _ in 0..WAIT_TURNS {
            if count.load(Ordering::SeqCst) >= least || self.has_given_up.load(Ordering::SeqCst) {
                return;
            }
            thread::yield_now();
        }
        self.has_given_up.store(true, Ordering::SeqCst);
    }

    fn counts(&self) -> (u64, u64, u64) {
        (
            self.first.load(Ordering::SeqCst),
            self.second.load(Ordering::SeqCst),
            self.others.load(Ordering::SeqCst),
        )
    }
}

impl Gate for Meeting {
    fn pass(&self, worker: u32, _delivery: &Delivery) {
        let (own, other) = match worker {
            0 => (&self.first, &self.second),
            1 => (&self.second, &self.first),
            _ => {
                self.others.fetch_add(1, Ordering::SeqCst);
                return;
            }
        };
        let before = own.fetch_add(1, Ordering::SeqCst);
        if before < 2 {
            self.wait_for(other, before + 1);
        }
    }
}

// a and c are with one worker, b and d with the other, and each hears of two destinations.
const APART: &[u8] = b"node a b c d
link a c : 1
link b d : 1
origin x at c : 0
origin w at c : 0
origin y at d : 0
origin v at d : 0
";

#[test]
fn workers_run_at_once(rt: HostRuntime) -> Result<(), Fail> {
    for _ in 0..RUNS {
        let gate = Meeting::new();
        run_reported(&rt, rt.alloc(), APART, 2, &gate)?;
        assert!(rt; !gate.has_given_up.load(Ordering::SeqCst));
        assert_eq!(rt; gate.counts(), (2, 2, 0));
    }
    Ok(())
}

// No worker.
const NOBODY: u32 = u32::MAX;

// Notes who made the first delivery on an arc, and how many the first worker and all others made.
#[derive(Drop)]
struct Witness {
    arc: ArcId,
    maker: AtomicU32,
    first: AtomicU64,
    others: AtomicU64,
}

impl Witness {
    fn new(arc: ArcId) -> Witness {
        Witness {
            arc,
            maker: AtomicU32::new(NOBODY),
            first: AtomicU64::new(0),
            others: AtomicU64::new(0),
        }
    }
}

impl Gate for Witness {
    fn pass(&self, worker: u32, delivery: &Delivery) {
        if delivery.arc == self.arc && self.maker.load(Ordering::SeqCst) == NOBODY {
            self.maker.store(worker, Ordering::SeqCst);
        }
        let count = if worker == 0 {
            &self.first
        } else {
            &self.others
        };
        count.fetch_add(1, Ordering::SeqCst);
    }
}

// Two ways from a to d.
const DIAMOND: &[u8] =
    b"node a b c d\nlink a b : 1\nlink a c : 1\nlink b d : 1\nlink c d : 1\norigin x at d : 0\n";

// The arc from c to d.
const C_TO_D: ArcId = ArcId(3);

// d is with the second worker, and c with the first.
#[test]
fn rings_carry_what_is_sent(rt: HostRuntime) -> Result<(), Fail> {
    for _ in 0..RUNS {
        let gate = Witness::new(C_TO_D);
        run_reported(&rt, rt.alloc(), DIAMOND, 2, &gate)?;
        assert_eq!(rt; gate.maker.load(Ordering::SeqCst), 0);
    }
    Ok(())
}

#[test]
fn one_worker_makes_all(rt: HostRuntime) -> Result<(), Fail> {
    for _ in 0..RUNS {
        let gate = Witness::new(C_TO_D);
        run_reported(&rt, rt.alloc(), DIAMOND, 1, &gate)?;
        assert_eq!(rt; gate.first.load(Ordering::SeqCst), 4);
        assert_eq!(rt; gate.others.load(Ordering::SeqCst), 0);
    }
    Ok(())
}
