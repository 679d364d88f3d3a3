// Tests of phases on several workers, by single calls: what holds however the workers' deliveries fall together.
use crate::runs::{Ran, run};
use meta_base::{ArcId, Delivery, OpenGate};
use net_graph::Net;
use std::alloc::Global;
use std::sync::Wait;
use std::test::Fail;
use std::thread::Threads;
use testkit_nodes::{NOTHING, are_rows};
use testkit_readers::network;

// The deliveries of a text, each by its clock and its arc.
pub(crate) fn journal_of(alloc: Global, text: &str) -> Result<Vec<Delivery>, Fail> {
    let mut journal = Vec::new(alloc);
    if text == NOTHING {
        return Ok(journal);
    }
    for delivery in text.split(", ") {
        let (clock, arc) = delivery.split_once(' ').ok_or("no arc")?;
        let clock = clock.parse()?;
        let arc = ArcId(arc.parse()?);
        journal.push(Delivery { clock, arc })?;
    }
    Ok(journal)
}

// Whether the journal is one of those.
fn is_one_of(alloc: Global, journal: &[Delivery], journals: &[&str]) -> Result<bool, Fail> {
    for text in journals {
        if journal_of(alloc, *text)?.as_slice() == journal {
            return Ok(true);
        }
    }
    Ok(false)
}

// Whether the run took what its journal has, with so many messages on their way in the end, and is quiet exactly
// where there are none.
fn counts(ran: &Ran, waits: u64) -> bool {
    let taken = ran.journal.as_slice().len() as u64;
    ran.totals.taken == taken
        && ran.totals.sent.checked_sub(taken) == Some(waits)
        && ran.is_quiet == (waits == 0)
}

// A network, the numbers of workers that run it, the turns that they have, the journals of which the run has one, how
// many messages are on their way in the end, and the rows then.
struct Phase {
    expression: &'static str,
    lines: &'static [u8],
    workers: &'static [u32],
    turns: u64,
    journals: &'static [&'static str],
    waits: u64,
    rows: &'static str,
}

// Whether a run on the network ends as stated.
fn ends_so<R: Threads + Wait + Sync>(
    rt: &R,
    alloc: Global,
    net: &Net,
    workers: u32,
    phase: &Phase,
) -> Result<bool, Fail> {
    let ran = run(rt, alloc, net, workers, phase.turns, &OpenGate)?;
    Ok(
        counts(&ran, phase.waits)
            && is_one_of(alloc, ran.journal.as_slice(), phase.journals)?
            && are_rows(alloc, net, ran.rows.as_slice(), phase.rows)?,
    )
}

fn runs_so<R: Threads + Wait + Sync>(
    rt: &R,
    alloc: Global,
    workers: u32,
    phase: &Phase,
) -> Result<bool, Fail> {
    let net = network(alloc, phase.expression, phase.lines)?;
    let answer = ends_so(rt, alloc, &net, workers, phase);
    drop(net);
    answer
}

const HOPS: &str = "add(1..10)";

const PAIR: &[u8] = b"node a b\nboth a b : 3\norigin x at b : 0\n";

// Two ways from a to d that are equally good.
const DIAMOND: &[u8] =
    b"node a b c d\nlink a b : 1\nlink a c : 1\nlink b d : 1\nlink c d : 1\norigin x at d : 0\n";

// c has values for two destinations.
const LINE: &[u8] =
    b"node a b c\nlink a b : 1\nlink b c : 1\norigin x at c : 0\norigin y at c : 5\n";

const SHORT_THEN_WIDE: &str = "lex(add(1..10), width(100; 0..100))";

const SHORT_NET: &[u8] = b"node a b c d
link b d : (7,10)
link c d : (1,6)
link b c : (1,6)
link a b : (1,5)
origin x at d : (0,100)
";

const WIDE_THEN_SHORT: &str = "lex(width(100; 0..100), add(1..10))";

const WIDE_NET: &[u8] = b"node a b c d
link b d : (10,7)
link c d : (6,1)
link b c : (6,1)
link a b : (5,1)
origin x at d : (100,0)
";

// Customers, peers and providers, and then hops.
const POLICY: &str =
    "lex(table { c < r < p; C: c -> c; R: c -> r; P: c -> p, r -> p, p -> p }, add(1..1))";

const PROVIDED: &[u8] = b"node u v w\nlink u v : (P,1)\nlink v w : (C,1)\norigin x at w : (c,0)\n";

const PHASES: &[Phase] = &[
    Phase {
        expression: HOPS,
        lines: b"",
        workers: &[1, 3],
        turns: 100,
        journals: &[NOTHING],
        waits: 0,
        rows: "",
    },
    Phase {
        expression: HOPS,
        lines: b"node a\norigin x at a : 0\n",
        workers: &[1, 3],
        turns: 100,
        journals: &[NOTHING],
        waits: 0,
        rows: "0 a",
    },
    // b hears of the way by a, which leads through itself.
    Phase {
        expression: HOPS,
        lines: PAIR,
        workers: &[1, 2, 3, 4],
        turns: 100,
        journals: &["1 0, 2 1"],
        waits: 0,
        rows: "3 a b / 0 b",
    },
    // Just enough turns, and too few.
    Phase {
        expression: HOPS,
        lines: PAIR,
        workers: &[1, 2, 3, 4],
        turns: 2,
        journals: &["1 0, 2 1"],
        waits: 0,
        rows: "3 a b / 0 b",
    },
    Phase {
        expression: HOPS,
        lines: PAIR,
        workers: &[1, 2, 3, 4],
        turns: 1,
        journals: &["1 0"],
        waits: 1,
        rows: "3 a b / 0 b",
    },
    Phase {
        expression: HOPS,
        lines: PAIR,
        workers: &[1, 2, 3, 4],
        turns: 0,
        journals: &[NOTHING],
        waits: 1,
        rows: "none / 0 b",
    },
    // a hears of both ways in either order.
    Phase {
        expression: HOPS,
        lines: DIAMOND,
        workers: &[1, 2, 4, 16],
        turns: 100,
        journals: &["1 2, 1 3, 2 0, 3 1", "1 2, 1 3, 2 1, 3 0"],
        waits: 0,
        rows: "2 a b d / 1 b d / 1 c d / 0 d",
    },
    // What was sent first is taken first.
    Phase {
        expression: HOPS,
        lines: LINE,
        workers: &[1, 2, 3],
        turns: 100,
        journals: &["1 1, 2 0, 2 1, 3 0"],
        waits: 0,
        rows: "2 a b c / 1 b c / 0 c / 7 a b c / 6 b c / 5 c",
    },
    Phase {
        expression: HOPS,
        lines: LINE,
        workers: &[1, 2, 3],
        turns: 1,
        journals: &["1 1"],
        waits: 2,
        rows: "none / 1 b c / 0 c / none / none / 5 c",
    },
    // b hears first of d or first of c. The way by c is better, and then the way to d.
    Phase {
        expression: SHORT_THEN_WIDE,
        lines: SHORT_NET,
        workers: &[1, 2, 3, 4],
        turns: 100,
        journals: &["1 0, 1 1, 2 3, 2 2, 3 3", "1 1, 2 2, 3 3, 3 0"],
        waits: 0,
        rows: "(3,5) a b c d / (2,6) b c d / (1,6) c d / (0,100) d",
    },
    Phase {
        expression: WIDE_THEN_SHORT,
        lines: WIDE_NET,
        workers: &[1, 2, 3, 4],
        turns: 100,
        journals: &["1 0, 1 1, 2 3, 2 2", "1 1, 2 2, 3 3, 3 0, 4 3"],
        waits: 0,
        rows: "(5,8) a b d / (10,7) b d / (6,1) c d / (100,0) d",
    },
    Phase {
        expression: POLICY,
        lines: PROVIDED,
        workers: &[1, 2, 3],
        turns: 100,
        journals: &["1 1, 2 0"],
        waits: 0,
        rows: "(p,2) u v w / (c,1) v w / (c,0) w",
    },
];

#[test]
fn phases_end_as_reported(rt: HostRuntime) -> Result<(), Fail> {
    for phase in PHASES {
        for workers in phase.workers {
            let are_right = runs_so(&rt, rt.alloc(), *workers, phase)?;
            assert!(rt;
                are_right,
                "{workers} workers, {} turns: {}",
                phase.turns, phase.rows
            );
        }
    }
    Ok(())
}

const DISAGREEMENT: &str = "table { o < a < d; D: o -> d; N: d -> a }";

// No table of this network is stable.
const BAD_GADGET: &[u8] = b"node z p q r
link p z : D
link q z : D
link r z : D
link p q : N
link q r : N
link r p : N
origin x at z : o
";

// Whether a run on the network used all turns, with something on its way in the end.
fn is_spent<R: Threads + Wait + Sync>(
    rt: &R,
    alloc: Global,
    workers: u32,
    turns: u64,
) -> Result<bool, Fail> {
    let net = network(alloc, DISAGREEMENT, BAD_GADGET)?;
    let ran = run(rt, alloc, &net, workers, turns, &OpenGate);
    drop(net);
    let ran = ran?;
    Ok(
        !ran.is_quiet
            && ran.totals.taken == turns
            && ran.totals.sent > turns
            && ran.journal.as_slice().len() as u64 == turns,
    )
}

#[test]
fn turns_are_spent(rt: HostRuntime) -> Result<(), Fail> {
    for (workers, turns) in [(1, 50), (2, 50), (3, 50), (4, 1), (16, 1000)] {
        assert!(rt;
            is_spent(&rt, rt.alloc(), workers, turns)?,
            "{workers} workers, {turns} turns"
        );
    }
    Ok(())
}

// Each of p and q likes the way by the other one best.
const DISAGREE: &[u8] = b"node z p q
link p z : D
link q z : D
link p q : N
link q p : N
origin x at z : o
";

// Whether the rows are one of the two stable tables, where the run on the network is quiet.
fn settles<R: Threads + Wait + Sync>(
    rt: &R,
    alloc: Global,
    net: &Net,
    workers: u32,
) -> Result<bool, Fail> {
    let ran = run(rt, alloc, net, workers, 100, &OpenGate)?;
    let rows = ran.rows.as_slice();
    Ok(
        !ran.is_quiet
            || are_rows(alloc, net, rows, "o z / a p q z / d q z")?
            || are_rows(alloc, net, rows, "o z / d p z / a q p z")?,
    )
}

#[test]
fn quiet_runs_are_settled(rt: HostRuntime) -> Result<(), Fail> {
    for workers in 1..4 {
        let net = network(rt.alloc(), DISAGREEMENT, DISAGREE)?;
        let is_settled = settles(&rt, rt.alloc(), &net, workers);
        drop(net);
        assert!(rt; is_settled?, "{workers} workers");
    }
    Ok(())
}

// More than fit into a link's ring.
const MANY: u32 = 60;

// The lines of a network whose second node has values for many destinations, which the first hears of, and the rows in
// the end.
fn many_lines(alloc: Global) -> Result<(String, String), Fail> {
    let mut lines = format!(in alloc; "node a b\nlink a b : 1\n")?;
    let mut rows = String::new(alloc);
    for dest in 0..MANY {
        lines.push_str(format!(in alloc; "origin x{dest} at b : {dest}\n")?.as_str())?;
        let separator = if dest == 0 { "" } else { " / " };
        rows.push_str(format!(in alloc; "{separator}{} a b / {dest} b", dest + 1)?.as_str())?;
    }
    Ok((lines, rows))
}

// Whether all values come from one worker to another.
fn brings_all<R: Threads + Wait + Sync>(
    rt: &R,
    alloc: Global,
    net: &Net,
    rows: &str,
) -> Result<bool, Fail> {
    let ran = run(rt, alloc, net, 2, 100, &OpenGate)?;
    Ok(
        counts(&ran, 0)
            && ran.totals.taken == u64::from(MANY)
            && are_rows(alloc, net, ran.rows.as_slice(), rows)?,
    )
}

#[test]
fn more_than_a_ring_holds(rt: HostRuntime) -> Result<(), Fail> {
    let (lines, rows) = many_lines(rt.alloc())?;
    let net = network(rt.alloc(), "add(1..1)", lines.as_bytes())?;
    let is_right = brings_all(&rt, rt.alloc(), &net, rows.as_str());
    drop(net);
    assert!(rt; is_right?);
    Ok(())
}
