// Tests of `verify` and `hops`, worked out by hand: each finding once, at the first destination and node that show it;
// what other commands print, judged; reports that are refused; and next hops that are equally good.
use crate::program::{Outcome, ended_with, is_missing, outcome_of, run_on, run_verify};
use meta_base::{MAX_FILE_BYTES, NoMemory};
use std::alloc::Global;
use std::str;
use std::test::Fail;

const ADD: &[u8] = b"main add(1..10);";

// The least sum, then the greatest width; and the other way round, where labels aren't isotone.
const WIDEST_SHORTEST: &[u8] = b"main lex(add(1..10), width(100; 0..100));";

const SHORTEST_WIDEST: &[u8] = b"main lex(width(100; 0..100), add(1..10));";

const PAIR: &[u8] = b"node a b\nboth a b : 3\norigin x at b : 0\n";

const CHAIN: &[u8] =
    b"node a b c\nboth a b : 3\nboth b c : 2\norigin x at b : 0\norigin y at c : 0\n";

const DIAMOND: &[u8] = b"node a b c d
link b d : (7,10)
link c d : (1,6)
link b c : (1,6)
link a b : (1,5)
origin x at d : (0,100)
";

const DIAMOND_ROWS: &[u8] = b"a x (3,5) a b c d\nb x (2,6) b c d\nc x (1,6) c d\nd x (0,100) d\n";

const BOTH_YES: &[u8] = b"optimal yes\nstable yes\n";

// The findings on a report over the chain, or over the pair, by an algebra of sums.
const FINDINGS: &[(&[u8], &[u8], &[u8])] = &[
    (
        PAIR,
        b"a x none\nb x 0 b\nquiet 2\n",
        b"optimal no: a x is beaten by a b\nstable no: a x has the better offer 3 a b\n",
    ),
    (
        PAIR,
        b"a x 4 a b\nb x 0 b\n",
        b"optimal no: a x isn't a walk of that value\nstable no: a x isn't offered\n",
    ),
    (PAIR, b"a x 3 a b\nb x 0 b\n", BOTH_YES),
    (PAIR, b"a x 3 a b\n\nb\tx 0 b\r\nspent 99\n", BOTH_YES),
    (
        CHAIN,
        b"a x 3 a b\nb x 0 b\nc x 2 c b\na y 5 a b c\nb y 2 b c\nc y 0 c\n",
        BOTH_YES,
    ),
    // the first destination is named, also where a row for a later one has a path that is no walk of its value
    (
        CHAIN,
        b"a x none\nb x 0 b\nc x none\na y 6 a b c\nb y 3 b c\nc y 0 c\n",
        b"optimal no: a x is beaten by a b\nstable no: a x has the better offer 3 a b\n",
    ),
    // in one table such a path is named before a node that is beaten
    (
        CHAIN,
        b"a x none\nb x 0 b\nc x 7 c b\na y 5 a b c\nb y 2 b c\nc y 0 c\n",
        b"optimal no: c x isn't a walk of that value\nstable no: a x has the better offer 3 a b\n",
    ),
    // and of two such paths, that of the first node
    (
        CHAIN,
        b"a x 3 a b\nb x 0 b\nc x 2 c b\na y 7 a b c\nb y 3 b c\nc y 0 c\n",
        b"optimal no: a y isn't a walk of that value\nstable no: a y isn't offered\n",
    ),
    // an own origin beats and is offered
    (
        CHAIN,
        b"a x 3 a b\nb x 0 b\nc x 2 c b\na y 5 a b c\nb y 2 b c\nc y none\n",
        b"optimal no: c y is beaten by c\nstable no: b y isn't offered\n",
    ),
    // changes are made before
    (
        b"node a b c\nlink a b : 3\nlink b c : 2\norigin x at c : 0\nthen link a c : 4\nthen drop b c\n",
        b"a x 4 a c\nb x none\nc x 0 c\n",
        BOTH_YES,
    ),
];

#[test]
fn tables_are_judged(rt: HostRuntime) -> Result<(), Fail> {
    for (net, report, text) in FINDINGS {
        assert!(rt; ended_with(run_verify(&rt, ADD, *net, *report)?, *text, 0));
    }
    let outcome = run_verify(&rt, WIDEST_SHORTEST, DIAMOND, DIAMOND_ROWS)?;
    assert!(rt; ended_with(outcome, BOTH_YES, 0));
    Ok(())
}

// Whether the run left open whether routes are optimal, by a line that begins so, and found them stable.
fn is_left_open(outcome: Outcome, begins: &str) -> Result<bool, Fail> {
    let text = str::from_utf8(&outcome.taken)?;
    let is_open = text.starts_with(begins) && text.ends_with("\nstable yes\n");
    Ok(is_open && text.lines().count() == 2 && outcome.status == 0)
}

const NOT_ISOTONE: &str = "optimal open: isotone fails on b d: (10,7) on ";

// Ends that don't leave it open.
const NOT_OPEN: &[(&[u8], u8)] = &[
    (BOTH_YES, 0),
    (
        b"optimal open: isotone fails on b d: (10,7) on \nstable yes\n",
        3,
    ),
    (b"optimal open: isotone fails on b d: (10,7) on \n", 0),
    (
        b"optimal open: isotone fails on b d: (10,7) on \nstable no\n",
        0,
    ),
];

#[test]
fn other_findings_are_reported_apart(rt: HostRuntime) -> Result<(), Fail> {
    for (taken, status) in NOT_OPEN {
        let outcome = outcome_of(rt.alloc(), *taken, *status)?;
        assert!(rt; !is_left_open(outcome, NOT_ISOTONE)?);
    }
    Ok(())
}

// Where an arc's label isn't isotone, rows that no origin and no arc improves may be beaten by a walk.
#[test]
fn optimality_is_left_open(rt: HostRuntime) -> Result<(), Fail> {
    let net = b"node a b c d
link b d : (10,7)
link c d : (6,1)
link b c : (6,1)
link a b : (5,1)
origin x at d : (100,0)
";
    let report = b"a x (5,8) a b d\nb x (10,7) b d\nc x (6,1) c d\nd x (100,0) d\n";
    let outcome = run_verify(&rt, SHORTEST_WIDEST, net, report)?;
    assert!(rt; is_left_open(outcome, NOT_ISOTONE)?);
    Ok(())
}

// What `route`, `settle` and a run without changes print is judged optimal and stable.
#[test]
fn printed_rows_are_judged(rt: HostRuntime) -> Result<(), Fail> {
    let commands: &[&[&str]] = &[
        &["route", "f", "n"],
        &["settle", "f", "n"],
        &["run", "f", "n", "--workers", "2"],
    ];
    for words in commands {
        let printed = run_on(&rt, *words, ADD, CHAIN)?;
        let outcome = run_verify(&rt, ADD, CHAIN, &printed.taken);
        drop(printed);
        assert!(rt; ended_with(outcome?, BOTH_YES, 0));
    }
    Ok(())
}

// The line of a refused report over the pair, or the chain.
#[test]
fn reports_are_refused(rt: HostRuntime) -> Result<(), Fail> {
    let refused: &[(&[u8], &[u8])] = &[
        (b"a x\n", b"report refused: V1 at line 1\n"),
        (b"# a\na x none\n", b"report refused: V1 at line 1\n"),
        (b"a x none\nquiet 1\n", b"report refused: V1 at line 2\n"),
        (
            b"a x none\nb x none\nspent 1\nquiet 1\n",
            b"report refused: V1 at line 4\n",
        ),
        (b"a z none\n", b"report refused: V2 at line 1\n"),
        (b"a x 3 a c\n", b"report refused: V2 at line 1\n"),
        (b"a x none\na x none\n", b"report refused: V3 at line 2\n"),
        (
            b"a x none\nb x none\na x none\n",
            b"report refused: V3 at line 3\n",
        ),
        (b"a x (3,0) a b\n", b"report refused: V4 at line 1\n"),
        (b"a x none a b\n", b"report refused: V4 at line 1\n"),
        (b"a x none\n", b"report refused: V5 at line 2\n"),
        (b"", b"report refused: V5 at line 1\n"),
    ];
    for (report, text) in refused {
        assert!(rt; ended_with(run_verify(&rt, ADD, PAIR, *report)?, *text, 2));
    }
    Ok(())
}

// A report of so many bytes, whose last line has blanks after it.
fn padded(alloc: Global, bytes: usize) -> Result<Vec<u8>, NoMemory> {
    let mut report = Vec::from_slice(alloc, b"a x 3 a b\nb x 0 b")?;
    report.resize(bytes, b' ')?;
    Ok(report)
}

// A report may have as many bytes as the other files, all of them in one line.
#[test]
fn long_reports(rt: HostRuntime) -> Result<(), Fail> {
    let cases: &[(usize, &[u8], u8)] = &[
        (MAX_FILE_BYTES, BOTH_YES, 0),
        (MAX_FILE_BYTES + 1, b"too long: the report\n", 8),
    ];
    for (bytes, text, status) in cases {
        let report = padded(rt.alloc(), *bytes)?;
        let outcome = run_verify(&rt, ADD, PAIR, &report);
        drop(report);
        assert!(rt; ended_with(outcome?, *text, *status));
    }
    Ok(())
}

// A report is read after the network was judged.
#[test]
fn reports_come_last(rt: HostRuntime) -> Result<(), Fail> {
    let missing: &[&str] = &["verify", "f", "n", "x"];
    let outcome = run_on(&rt, missing, ADD, PAIR)?;
    assert!(rt; ended_with(outcome, b"read fault on the report\n", 5));
    let outcome = run_on(&rt, missing, ADD, b"node a a")?;
    assert!(rt; ended_with(outcome, b"network refused: N3 at line 1\n", 2));
    Ok(())
}

#[test]
fn next_hops_are_listed(rt: HostRuntime) -> Result<(), Fail> {
    let cases: &[(&[u8], &[u8], &[u8])] = &[
        (
            b"main add(1..1);",
            b"node a b c d\nlink a b : 1\nlink a c : 1\nlink b d : 1\nlink c d : 1\norigin x at d : 0\n",
            b"a x 2 b c\nb x 1 d\nc x 1 d\nd x 0 here\n",
        ),
        // an own origin as good as an arc, arcs in file order, and a node without a route
        (
            b"main add(1..2);",
            b"node a b d e\nlink a d : 2\nlink a b : 1\nlink b d : 1\norigin x at d : 0\norigin x at a : 2\n",
            b"a x 2 here d b\nb x 1 d\nd x 0 here\ne x none\n",
        ),
        // where labels aren't strict, two nodes may list each other
        (
            b"main add(0..1);",
            b"node a b c\nboth a b : 0\nlink a c : 1\nlink b c : 1\norigin x at c : 0\n",
            b"a x 1 b c\nb x 1 a c\nc x 0 here\n",
        ),
        (
            ADD,
            CHAIN,
            b"a x 3 b\nb x 0 here\nc x 2 b\na y 5 b\nb y 2 c\nc y 0 here\n",
        ),
    ];
    for (file, net, text) in cases {
        assert!(rt; ended_with(run_on(&rt, &["hops", "f", "n"], *file, *net)?, *text, 0));
    }
    Ok(())
}

// Labels that forbid routes forbid next hops.
#[test]
fn labels_forbid_next_hops(rt: HostRuntime) -> Result<(), Fail> {
    let net = b"node a b\nlink a b : (5,1)\norigin x at b : (100,0)\n";
    let outcome = run_on(&rt, &["hops", "f", "n"], SHORTEST_WIDEST, net)?;
    assert!(rt; is_missing(outcome, "isotone fails on a b: (5,1) on ")?);
    Ok(())
}
