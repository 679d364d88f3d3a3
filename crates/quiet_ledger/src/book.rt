ghost use Rattle.std.specs.Prelude.{◌≡◌, ◌<◌, ◌≤◌};
ghost use Rattle.meta_base.specs.Numbers.{max_workers};
ghost use Rattle.quiet_ledger.specs.Numbers.{max_base, max_share};
ghost use Rattle.quiet_ledger.specs.declared.book.TheConstants.{MAX_BASE, MAX_SHARE, MAX_WORKERS};

use crate::{Sight, Totals};
use meta_base::{List, NoMemory};
use std::alloc::Global;
use std::sync::{Mutex, Wait};

/// The most workers that may share a book.
pub const MAX_WORKERS: u32 = 16;

/// The most that one worker may send, and the most that it may take.
pub const MAX_SHARE: u64 = 1 << 56;

/// The most that a book's base may say was sent, and that was taken.
pub const MAX_BASE: u64 = 1 << 62;

/// The bounds of a book are the numbers of the specification.
pub fn numbers_are_specified()
    ensures workers { MAX_WORKERS ≡ max_workers }
    ensures share { MAX_SHARE ≡ max_share }
    ensures base { MAX_BASE ≡ max_base }
{}

/// What one worker sent and took: two exact numbers, each at most [`MAX_SHARE`].
#[derive(Debug, Drop)]
pub struct Share {
    sent: u64,
    taken: u64,
    ghost sent_bound: { sent ≤ MAX_SHARE },
    ghost taken_bound: { taken ≤ MAX_SHARE },
}

/// The book of 1 to [`MAX_WORKERS`] workers. Workers may use it from several threads at once, each with a share
/// of its own.
#[derive(Debug, Drop)]
pub struct Book {
    base: Totals,
    workers: u32,
    // The base and what was committed. No contract speaks of it.
    running: Mutex<Totals>,
    ghost base_bound: { (base.sent ≤ MAX_BASE) × (base.taken ≤ MAX_BASE) },
    ghost workers_bound: { (0 < workers) × (workers ≤ MAX_WORKERS) },
}

impl Book {
    ghost use Rattle.std.specs.Prelude.{◌+◌, length, sum_by, All, IfOk};
    ghost use Rattle.quiet_ledger.specs.Ledger.{sent_by, taken_by, base_of, workers_of};

    /// A book of 1 to [`MAX_WORKERS`] workers over a base, whose numbers are at most [`MAX_BASE`], and a share
    /// for each worker, whose numbers are 0. The running totals begin with the base.
    pub fn new(alloc: Global, workers: u32, base: Totals) -> Result<(Book, List<Share>), NoMemory>
        requires workers { (0 < workers) × (workers ≤ MAX_WORKERS) }
        requires base { (base.sent ≤ MAX_BASE) × (base.taken ≤ MAX_BASE) }
        ensures base { IfOk result (λ made. base_of made.0 ≡ base) }
        ensures workers { IfOk result (λ made. workers_of made.0 ≡ workers) }
        ensures shares { IfOk result (λ made. length made.1 ≡ workers) }
        ensures zero { IfOk result (λ made. All (λ share. (sent_by share ≡ 0) × (taken_by share ≡ 0)) made.1) }
    {
        let mut shares = List::new(alloc);
        for _ in 0..workers {
            shares.push(empty_share())?;
        }
        let running = Mutex::new(base);
        Ok((
            Book {
                base,
                workers,
                running,
            },
            shares,
        ))
    }

    /// Adds the numbers to the worker's share and to the running totals, and gives the totals as they
    /// then stand. It waits for the lock. The share's numbers must stay at most [`MAX_SHARE`]; the running
    /// totals stop at the greatest `u64`.
    pub fn commit<R: Wait>(&self, rt: &R, share: &mut Share, sent: u64, taken: u64) -> Sight
        requires sent { sent_by share.old + sent ≤ MAX_SHARE }
        requires taken { taken_by share.old + taken ≤ MAX_SHARE }
        ensures sent { sent_by share.new ≡ sent_by share.old + sent }
        ensures taken { taken_by share.new ≡ taken_by share.old + taken }
    {
        share.sent += sent;
        share.taken += taken;
        let mut running = self.running.lock(rt);
        running.sent = running.sent.saturating_add(sent);
        running.taken = running.taken.saturating_add(taken);
        Sight {
            sent: running.sent,
            taken: running.taken,
        }
    }

    /// The running totals as they stand. It waits for the lock.
    pub fn look<R: Wait>(&self, rt: &R) -> Sight {
        let running = self.running.lock(rt);
        Sight {
            sent: running.sent,
            taken: running.taken,
        }
    }

    /// The base and the numbers of all shares, added up. There must be as many shares as the book
    /// has workers; by the bounds on the base and on a share the sums fit.
    pub fn gather(book: Book, shares: List<Share>) -> Totals
        requires { length shares ≡ workers_of book }
        ensures sent { result.sent ≡ (base_of book).sent + sum_by sent_by shares }
        ensures taken { result.taken ≡ (base_of book).taken + sum_by taken_by shares }
    {
        let mut totals = book.base;
        let shares = shares.as_slice();
        for share in shares {
            totals.sent += share.sent;
            totals.taken += share.taken;
        }
        totals
    }
}

// A loop keeps a share's bounds only where it gets the share from a call.
fn empty_share() -> Share
    ensures { (result.sent ≡ 0) × (result.taken ≡ 0) }
{
    Share { sent: 0, taken: 0 }
}
