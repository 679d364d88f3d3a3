// Tests of faults in each place: whichever call of the shelf or of the sink fails, the answer says so, and what was
// written is a front of the text.
use crate::host::OneLine;
use crate::program::{ALL_HOLD, Around, BITE, Outcome, ended_with, run_around, status_of_check};
use host_io::OutSink;
use std::sync::Wait;
use std::test::Fail;
use std::thread::Threads;

const POLICY: &[u8] = b"main add(1..10);";

const NET: &[u8] = b"node a b\nboth a b : 3\norigin x at b : 0\n";

const REPORT: &[u8] = b"a x 3 a b\nb x 0 b\n";

const ROWS: &[u8] = b"a x 3 a b\nb x 0 b\n";

// What stands around a run on these files, whose shelf and sink take so much at a time.
fn around<'a>(bite: usize, calls: &'a [u64], writes: &'a [u64]) -> Around<'a> {
    Around {
        file: POLICY,
        net: NET,
        report: REPORT,
        failing_calls: calls,
        failing_writes: writes,
        read_bite: bite,
        bite,
    }
}

// A run of `check` on the file of this name, where that call of the shelf fails.
fn run_failing(
    rt: &(impl AllocGlobal + Threads + Wait + Sync),
    name: &str,
    call: u64,
) -> Result<Outcome, Fail> {
    run_around(rt, &["check", name], around(BITE, &[call], &[]))
}

// The file is begun by call 0, read whole by call 1, and found to end by call 2; another name has no
// file.
#[test]
fn reading_fails(rt: HostRuntime) -> Result<(), Fail> {
    for (name, call) in [("f", 0), ("f", 1), ("f", 2), ("g", 9)] {
        let outcome = run_failing(&rt, name, call)?;
        assert!(rt; ended_with(outcome, b"read fault on the expression\n", 5));
    }
    Ok(())
}

// Each write offers a line or the rest of one, of which the sink takes five bytes.
#[test]
fn writing_fails(rt: HostRuntime) -> Result<(), Fail> {
    let lengths = [0, 5, 10, 13, 18, 23, 24, 29, 34, 36, 41, 46, 51, 53, 58];
    for (write, length) in lengths.iter().enumerate() {
        let outcome = run_around(&rt, &["check", "f"], around(5, &[], &[write as u64]))?;
        let text = ALL_HOLD.get(..*length).unwrap_or_default();
        assert!(rt; ended_with(outcome, text, 6));
    }
    let outcome = run_around(&rt, &["check", "f"], around(5, &[], &[15]))?;
    assert!(rt; ended_with(outcome, ALL_HOLD, 0));
    Ok(())
}

// The expression takes calls 0 to 5: it is begun, read four times and found to end. The network takes calls 6 to 17.
#[test]
fn each_call_of_the_shelf_fails(rt: HostRuntime) -> Result<(), Fail> {
    let answers: &[(u64, u64, &[u8], u8)] = &[
        (0, 6, b"read fault on the expression\n", 5),
        (6, 18, b"read fault on the network\n", 5),
        (18, 20, ROWS, 0),
    ];
    for (first, end, text, status) in answers {
        for call in *first..*end {
            let outcome = run_around(&rt, &["route", "f", "n"], around(4, &[call], &[]))?;
            assert!(rt; ended_with(outcome, *text, *status), "{call}");
        }
    }
    Ok(())
}

// The words of each command.
const COMMANDS: &[&[&str]] = &[
    &["check", "f"],
    &["check", "f", "n", "--require", "strict"],
    &["code", "f"],
    &["code", "f", "n"],
    &["route", "f", "n"],
    &["hops", "f", "n"],
    &["settle", "f", "n"],
    &["stable", "f", "n"],
    &["run", "f", "n", "--workers", "1"],
    &["trace", "f", "n", "--workers", "1"],
    &["flood", "f", "n", "--workers", "1"],
    &["distance", "f", "n", "--workers", "1"],
    &["verify", "f", "n", "r"],
    &["gadget", "f"],
    &["demo", "7", "2"],
];

// How many calls or writes a run makes at most.
const MOST_CALLS: u64 = 200;

// The lines of read faults, in the order in which files are read.
const READ_FAULTS: [&[u8]; 3] = [
    b"read fault on the expression\n",
    b"read fault on the network\n",
    b"read fault on the report\n",
];

// The place of the file that the run couldn't read.
fn unread_file(outcome: &Outcome) -> Option<usize> {
    if outcome.status != 5 {
        return None;
    }
    READ_FAULTS
        .iter()
        .position(|text| *text == outcome.taken.as_slice())
}

fn are_same(first: &Outcome, second: &Outcome) -> bool {
    first.status == second.status && first.taken.as_slice() == second.taken.as_slice()
}

// Whether each failing call of the shelf is a read fault, on a file that isn't in front of that of the call before, until
// no call is left to fail.
fn reads_fail_in_turn(
    rt: &(impl AllocGlobal + Threads + Wait + Sync),
    words: &[&str],
) -> Result<bool, Fail> {
    let whole = run_around(rt, words, around(7, &[], &[]))?;
    let mut last = 0;
    for call in 0..MOST_CALLS {
        let outcome = run_around(rt, words, around(7, &[call], &[]))?;
        if are_same(&outcome, &whole) {
            return Ok(true);
        }
        match unread_file(&outcome) {
            Some(place) if place >= last => last = place,
            _ => return Ok(false),
        }
    }
    Ok(false)
}

// Whether each failing write is a write fault, after a front of the text, until no write is left to fail.
fn writes_fail_in_turn(
    rt: &(impl AllocGlobal + Threads + Wait + Sync),
    words: &[&str],
) -> Result<bool, Fail> {
    let whole = run_around(rt, words, around(7, &[], &[]))?;
    for write in 0..MOST_CALLS {
        let outcome = run_around(rt, words, around(7, &[], &[write]))?;
        if are_same(&outcome, &whole) {
            return Ok(true);
        }
        let taken = outcome.taken.as_slice();
        let is_front = taken.len() < whole.taken.len() && whole.taken.as_slice().starts_with(taken);
        if outcome.status != 6 || !is_front {
            return Ok(false);
        }
    }
    Ok(false)
}

#[test]
fn each_read_of_each_command_fails(rt: HostRuntime) -> Result<(), Fail> {
    for words in COMMANDS {
        assert!(rt; reads_fail_in_turn(&rt, *words)?, "{words:?}");
    }
    Ok(())
}

#[test]
fn each_write_of_each_command_fails(rt: HostRuntime) -> Result<(), Fail> {
    for words in COMMANDS {
        assert!(rt; writes_fail_in_turn(&rt, *words)?, "{words:?}");
    }
    Ok(())
}

// A text that is gathered whole reaches an output that refuses all only with the last flush.
#[test]
fn refused_flushes_are_write_faults(rt: HostRuntime) -> Result<(), Fail> {
    let mut out = OutSink::new(rt.alloc(), &OneLine)?;
    assert_eq!(rt; status_of_check(&rt, around(7, &[], &[]), &mut out)?, 6);
    Ok(())
}
