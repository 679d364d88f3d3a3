// Tests of the gate of a run: that it is the one that was handed in, and that as many workers pass it as the words say.
use crate::floods::RING;
use crate::program::{BAD_GADGET, run_at};
use crate::runs::GADGET;
use crate::settled::SHORTEST;
use meta_base::{Delivery, Gate};
use std::sync::atomic::{AtomicU64, Ordering};
use std::test::Fail;

// Counts the deliveries, and those of each of the first workers. What is made between rounds passes under the number of
// workers.
#[derive(Drop)]
struct Watch {
    deliveries: AtomicU64,
    by_worker: [AtomicU64; 5],
}

impl Watch {
    fn new() -> Watch {
        Watch {
            deliveries: AtomicU64::new(0),
            by_worker: [
                AtomicU64::new(0),
                AtomicU64::new(0),
                AtomicU64::new(0),
                AtomicU64::new(0),
                AtomicU64::new(0),
            ],
        }
    }

    fn deliveries(&self) -> u64 {
        self.deliveries.load(Ordering::SeqCst)
    }

    // Whether each of so many workers passed, and none of a greater number.
    fn saw_workers(&self, workers: usize) -> bool {
        let mut has_all = true;
        for (worker, count) in self.by_worker.iter().enumerate() {
            let has_passed = count.load(Ordering::SeqCst) > 0;
            has_all &= worker == workers || has_passed == (worker < workers);
        }
        has_all
    }
}

impl Gate for Watch {
    fn pass(&self, worker: u32, _delivery: &Delivery) {
        self.deliveries.fetch_add(1, Ordering::SeqCst);
        if let Some(count) = self.by_worker.get(worker as usize) {
            count.fetch_add(1, Ordering::SeqCst);
        }
    }
}

// All turns of this run are used, and each worker has a node that hears of the origin at once.
#[test]
fn workers_pass_the_gate(rt: HostRuntime) -> Result<(), Fail> {
    for command in ["run", "trace"] {
        for (word, workers) in [("1", 1), ("2", 2), ("3", 3)] {
            let gate = Watch::new();
            let words = [command, "f", "n", "--turns", "50", "--workers", word];
            run_at(&rt, &words, BAD_GADGET, GADGET, &gate)?;
            assert!(rt; gate.deliveries() == 50, "{command} by {word}");
            assert!(rt; gate.saw_workers(workers), "{command} by {word}");
        }
    }
    Ok(())
}

// Each delivery of a flood passes, and each worker has a node to which cards are on their way at once.
#[test]
fn workers_of_a_flood_pass_the_gate(rt: HostRuntime) -> Result<(), Fail> {
    for (word, workers) in [("1", 1), ("2", 2), ("3", 3)] {
        let gate = Watch::new();
        let words = ["flood", "f", "n", "--workers", word];
        run_at(&rt, &words, SHORTEST, RING, &gate)?;
        assert!(rt; gate.deliveries() == 18, "by {word}");
        assert!(rt; gate.saw_workers(workers), "by {word}");
    }
    Ok(())
}

#[test]
fn workers_of_a_demo_pass_the_gate(rt: HostRuntime) -> Result<(), Fail> {
    let gate = Watch::new();
    run_at(&rt, &["demo", "7", "512"], b"", b"", &gate)?;
    assert!(rt; gate.saw_workers(4));
    Ok(())
}
