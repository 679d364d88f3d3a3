// Tests of `link_queues`: that what is sent is taken, in one thread and in two.
ghost use Rattle.std.specs.Prelude.{◌≡◌, ◌≤◌, IfOk};
ghost use Rattle.link_queues.specs.Links.{spare_of, out_link, in_link};

use link_queues::{InEnd, Local, OutEnd, link, settle_pair};
use meta_base::NoMemory;
use std::alloc::Global;
use std::sync::atomic::{AtomicBool, Ordering};
use std::test::Fail;
use std::thread;

const ITEMS: u64 = 1000;

const LOOKS: u64 = 100_000_000;

// An end is `Send` where its items are.
fn send_across<E: Send>(end: E) -> E
    ensures { result ≡ end }
{
    end
}

fn send_both<T: Send>(ends: (OutEnd<T>, InEnd<T>)) -> (OutEnd<T>, InEnd<T>)
    ensures { result ≡ ends }
{
    (send_across(ends.0), send_across(ends.1))
}

// A link of capacity 2 on which p, q and r were sent, and flushed once.
fn three_sent(alloc: Global) -> Result<(OutEnd<char>, InEnd<char>), NoMemory>
    ensures { IfOk result (λ ends. out_link ends.0 ≡ in_link ends.1) }
{
    let (mut out, into) = send_both(link(alloc, 2)?);
    out.reserve(3)?;
    out.send('p');
    out.send('q');
    out.send('r');
    out.flush();
    Ok((out, into))
}

#[test]
fn ring_then_outbox(rt: HostRuntime) -> Result<(), Fail> {
    let (out, mut into) = three_sent(rt.alloc())?;
    assert_eq!(rt; out.unsent(), 1);
    assert_eq!(rt; into.take(), Some('p'));
    let waiting = settle_pair(rt.alloc(), out, into)?;
    assert_eq!(rt; waiting.as_slice(), ['q', 'r'].as_slice());
    Ok(())
}

#[test]
fn nothing_sent(rt: HostRuntime) -> Result<(), Fail> {
    let (out, mut into) = link::<char>(rt.alloc(), 2)?;
    assert_eq!(rt; into.take(), None);
    let waiting = settle_pair(rt.alloc(), out, into)?;
    assert!(rt; waiting.as_slice().is_empty());
    Ok(())
}

#[test]
fn both_ends_with_one_worker(rt: HostRuntime) -> Result<(), Fail> {
    let mut local = Local::new(rt.alloc());
    local.reserve(2)?;
    local.send('p');
    local.send('q');
    assert_eq!(rt; local.waiting(), 2);
    assert_eq!(rt; local.front(), Some(&'p'));
    assert_eq!(rt; local.take(), Some('p'));
    assert_eq!(rt; local.take(), Some('q'));
    assert_eq!(rt; local.take(), None);
    Ok(())
}

// Each end looks again at the ring when what it knows is used up.
#[test]
fn ends_look_again(rt: HostRuntime) -> Result<(), Fail> {
    let (mut out, mut into) = three_sent(rt.alloc())?;
    assert_eq!(rt; into.take(), Some('p'));
    out.flush();
    assert_eq!(rt; into.take(), Some('q'));
    assert!(rt; into.sees());
    assert_eq!(rt; *into.front(), 'r');
    assert_eq!(rt; into.take(), Some('r'));
    assert!(rt; !into.sees());
    Ok(())
}

// Sends the numbers from 0 on, and flushes until a report says that they came, at most LOOKS times.
fn send_numbers(mut out: OutEnd<u64>, reported: &AtomicBool) -> OutEnd<u64>
    requires { ITEMS ≤ spare_of out }
    ensures { out_link result ≡ out_link out }
{
    for number in 0..ITEMS {
        out.send(number);
        out.flush();
    }
    for _ in 0..LOOKS {
        if reported.load(Ordering::SeqCst) {
            break;
        }
        out.flush();
        thread::yield_now();
    }
    out
}

// Takes the numbers in order, and tells so. It gives up at another number, or after LOOKS looks.
fn take_numbers(mut into: InEnd<u64>, reported: &AtomicBool) -> (InEnd<u64>, u64)
    ensures { in_link result.0 ≡ in_link into }
{
    let mut next = 0;
    for _ in 0..LOOKS {
        match into.take() {
            Some(number) if number == next => next += 1,
            Some(_) => break,
            None => thread::yield_now(),
        }
        if next == ITEMS {
            break;
        }
    }
    reported.store(true, Ordering::SeqCst);
    (into, next)
}

#[test]
fn numbers_across_threads(rt: HostRuntime) -> Result<(), Fail> {
    let (mut out, into) = link(rt.alloc(), 4)?;
    out.reserve(1000)?;
    let reported = AtomicBool::new(false);
    let (out, (into, taken)) = thread::join(
        &rt,
        || send_numbers(out, &reported),
        || take_numbers(into, &reported),
    );
    assert_eq!(rt; taken, ITEMS);
    let waiting = settle_pair(rt.alloc(), out, into)?;
    assert!(rt; waiting.as_slice().is_empty());
    Ok(())
}
