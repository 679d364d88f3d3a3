// Tests of `quiet_ledger`: that commits are counted, in one thread and in two.
ghost use Rattle.std.specs.Prelude.{◌≡◌, ◌+◌, ◌≤◌, ◌^◌, IfOk};
ghost use Rattle.quiet_ledger.specs.Ledger.{sent_by, taken_by};

use meta_base::{List, NoMemory};
use quiet_ledger::{Book, Share, Sight, Totals};
use std::alloc::Global;
use std::sync::Wait;
use std::test::Fail;
use std::thread;

const NOTHING: Totals = Totals { sent: 0, taken: 0 };

const GREATEST_BASE: Totals = Totals {
    sent: 1 << 62,
    taken: 1 << 62,
};

const COMMITS: u64 = 500;

fn totals(sent: u64, taken: u64) -> Totals {
    Totals { sent, taken }
}

fn sight(sent: u64, taken: u64) -> Sight {
    Sight { sent, taken }
}

#[test]
fn two_commits(rt: HostRuntime) -> Result<(), Fail> {
    let (book, shares) = Book::new(rt.alloc(), 2, NOTHING)?;
    let mut shares = shares.into_vec();
    assert_eq!(rt; shares.len(), 2);
    assert_eq!(rt; book.commit(&rt, &mut shares[0], 3, 1), sight(3, 1));
    assert_eq!(rt; book.commit(&rt, &mut shares[1], 0, 2), sight(3, 3));
    assert_eq!(rt; book.look(&rt), sight(3, 3));
    assert_eq!(rt; Book::gather(book, List::from_vec(shares)), totals(3, 3));
    Ok(())
}

// Commits 1 and 1, COMMITS times.
fn commit_often<R: Wait>(rt: &R, book: &Book, mut share: Share) -> Share
    requires sent { sent_by share ≡ 0 }
    requires taken { taken_by share ≡ 0 }
{
    for _ in 0..COMMITS {
        book.commit(rt, &mut share, 1, 1);
    }
    share
}

#[test]
fn two_workers(rt: HostRuntime) -> Result<(), Fail> {
    let (book, shares) = Book::new(rt.alloc(), 2, NOTHING)?;
    let mut shares = shares.into_vec();
    let (Some(first), Some(second)) = (shares.pop(), shares.pop()) else {
        return Err("a share is missing".into());
    };
    let (first, second) = thread::join(
        &rt,
        || commit_often(&rt, &book, first),
        || commit_often(&rt, &book, second),
    );
    assert_eq!(rt; book.look(&rt), sight(1000, 1000));
    let mut shares = List::new(rt.alloc());
    shares.push(first)?;
    shares.push(second)?;
    assert_eq!(rt; Book::gather(book, shares), totals(1000, 1000));
    Ok(())
}

// A share of a book of its own.
fn other_share(alloc: Global) -> Result<Share, NoMemory>
    ensures sent { IfOk result (λ share. sent_by share ≡ 0) }
    ensures taken { IfOk result (λ share. taken_by share ≡ 0) }
{
    let (_book, shares) = Book::new(alloc, 1, NOTHING)?;
    match shares.into_vec().pop() {
        Some(share) => Ok(share),
        None => unreachable!(),
    }
}

// 192 times 2^56 over 2^62 is 2^64, which is one too many.
#[test]
fn totals_stop_at_the_greatest(rt: HostRuntime) -> Result<(), Fail> {
    let (book, _shares) = Book::new(rt.alloc(), 1, GREATEST_BASE)?;
    for _ in 0..192 {
        let mut share = other_share(rt.alloc())?;
        book.commit(&rt, &mut share, 1 << 56, 0);
    }
    assert_eq!(rt; book.look(&rt), sight(u64::MAX, 1 << 62));
    Ok(())
}
