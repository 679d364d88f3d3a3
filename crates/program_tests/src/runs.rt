// Tests of `run` and `trace`: rows, deliveries and ends that are worked out by hand, and that hold whatever is
// delivered first, so for any number of workers.
use crate::program::{BAD_GADGET, CUSTOMERS, Outcome, ended_with, outcome_of, run_on};
use crate::settled::{DIAMOND, PROVIDERS, SHORTEST, UNHEARD, WIDE_THEN_SHORT};
use std::str;
use std::test::Fail;

pub(crate) const WORKERS: [&str; 4] = ["1", "2", "4", "16"];

const HOPS: &[u8] = b"main add(1..1);";

const PAIR: &[u8] = b"node a b\nlink a b : 3\norigin x at b : 0\n";

const PAIR_RUN: &[u8] = b"a x 3 a b\nb x 0 b\nquiet 1\n";

// What a tells b is b's own way, which b refuses.
pub(crate) const BOTH_WAYS: &[u8] = b"node a b\nboth a b : 3\norigin x at b : 0\n";

const BOTH_WAYS_RUN: &[u8] = b"a x 3 a b\nb x 0 b\nquiet 2\n";

const BOTH_WAYS_TRACE: &[u8] = b"1 a b\n2 b a\na x 3 a b\nb x 0 b\nquiet 2\n";

const BOTH_WAYS_SPENT: &[u8] = b"a x 3 a b\nb x 0 b\nspent 1\n";

pub(crate) const BOTH_WAYS_UNHEARD: &[u8] = b"a x none\nb x 0 b\nspent 0\n";

const PROVIDERS_RUN: &[u8] = b"u x (p,2) u v w\nv x (c,1) v w\nw x (c,0) w\nquiet 2\n";

// Where b hears of c first, it tells a twice.
const UNHEARD_RUN: &[u8] =
    b"a x (5,8) a b d\nb x (10,7) b d\nc x (6,1) c d\nd x (100,0) d\nquiet 4\n";

const UNHEARD_LONGER: &[u8] =
    b"a x (5,8) a b d\nb x (10,7) b d\nc x (6,1) c d\nd x (100,0) d\nquiet 5\n";

const DIAMOND_RUN: &[u8] = b"a x 2 a b d\nb x 1 b d\nc x 1 c d\nd x 0 d\nquiet 4\n";

// Which of its neighbours a hears first is free.
const DIAMOND_BY_B: &[u8] = b"1 b d
1 c d
2 a b
3 a c
a x 2 a b d
b x 1 b d
c x 1 c d
d x 0 d
quiet 4
";

const DIAMOND_BY_C: &[u8] = b"1 b d
1 c d
2 a c
3 a b
a x 2 a b d
b x 1 b d
c x 1 c d
d x 0 d
quiet 4
";

const TRIANGLE: &[u8] = b"node a b c
link a b : 1
link b c : 1
link a c : 5
origin x at c : 0
then link a b : 9
then drop a c
";

// The label of an arc that carries a row is replaced, and then another arc is taken out.
const TRIANGLE_RUN: &[u8] = b"a x 2 a b c
b x 1 b c
c x 0 c
quiet 3
phase 1
a x 5 a c
b x 1 b c
c x 0 c
quiet 0
phase 2
a x 10 a b c
b x 1 b c
c x 0 c
quiet 0
";

const BACK: &[u8] = b"node a b
link a b : 3
origin x at b : 0
origin y at a : 0
then link b a : 4
";

const BACK_RUN: &[u8] = b"a x 3 a b
b x 0 b
a y 0 a
b y none
quiet 1
phase 1
a x 3 a b
b x 0 b
a y 0 a
b y 4 b a
quiet 3
";

const BACK_TRACE: &[u8] = b"1 a b
a x 3 a b
b x 0 b
a y 0 a
b y none
quiet 1
phase 1
1 b a
2 b a
3 a b
a x 3 a b
b x 0 b
a y 0 a
b y 4 b a
quiet 3
";

// What are left of two turns are not enough for the second phase.
const BACK_SPENT: &[u8] = b"a x 3 a b
b x 0 b
a y 0 a
b y none
quiet 1
phase 1
a x 3 a b
b x 0 b
a y 0 a
b y none
spent 1
";

// A change cuts the network in two, and another one heals it.
const CUT: &[u8] = b"node a b c
both a b : 1
both b c : 1
origin x at c : 0
then drop b c
then link b c : 2
";

// In the second phase b takes its route back, and so does a; in the third c tells b of its route anew.
const CUT_RUN: &[u8] = b"a x 2 a b c
b x 1 b c
c x 0 c
quiet 4
phase 1
a x none
b x none
c x 0 c
quiet 3
phase 2
a x 3 a b c
b x 2 b c
c x 0 c
quiet 4
";

// A command and its turns, an expression and a network, what is printed, what else may be where another delivery
// comes first (or nothing), and the status.
type Case = (
    &'static str,
    &'static str,
    &'static [u8],
    &'static [u8],
    &'static [u8],
    &'static [u8],
    u8,
);

const CASES: &[Case] = &[
    ("run", "9", SHORTEST, PAIR, PAIR_RUN, b"", 0),
    ("run", "9", SHORTEST, BOTH_WAYS, BOTH_WAYS_RUN, b"", 0),
    ("trace", "9", SHORTEST, BOTH_WAYS, BOTH_WAYS_TRACE, b"", 0),
    ("run", "1", SHORTEST, BOTH_WAYS, BOTH_WAYS_SPENT, b"", 4),
    ("run", "0", SHORTEST, BOTH_WAYS, BOTH_WAYS_UNHEARD, b"", 4),
    ("run", "9", CUSTOMERS, PROVIDERS, PROVIDERS_RUN, b"", 0),
    (
        "run",
        "9",
        WIDE_THEN_SHORT,
        UNHEARD,
        UNHEARD_RUN,
        UNHEARD_LONGER,
        0,
    ),
    ("run", "9", HOPS, DIAMOND, DIAMOND_RUN, b"", 0),
    ("trace", "9", HOPS, DIAMOND, DIAMOND_BY_B, DIAMOND_BY_C, 0),
    ("run", "9", HOPS, b"", b"quiet 0\n", b"", 0),
    ("run", "9", HOPS, b"node a\n", b"quiet 0\n", b"", 0),
    (
        "run",
        "9",
        HOPS,
        b"node a\norigin x at a : 0\n",
        b"a x 0 a\nquiet 0\n",
        b"",
        0,
    ),
    ("run", "9", SHORTEST, TRIANGLE, TRIANGLE_RUN, b"", 0),
    ("run", "9", SHORTEST, BACK, BACK_RUN, b"", 0),
    ("trace", "9", SHORTEST, BACK, BACK_TRACE, b"", 0),
    // Just enough turns, and too few.
    ("run", "4", SHORTEST, BACK, BACK_RUN, b"", 0),
    ("run", "2", SHORTEST, BACK, BACK_SPENT, b"", 4),
    ("run", "19", SHORTEST, CUT, CUT_RUN, b"", 0),
];

// Whether the run wrote the one text or the other, if there is another, and ended with this status.
fn ended_by(outcome: Outcome, text: &[u8], other: &[u8], status: u8) -> bool {
    let taken = outcome.taken.as_slice();
    let is_other = !other.is_empty() && taken == other;
    (taken == text || is_other) && outcome.status == status
}

// Texts that aren't `quiet 1`, nor the other text that may be, if it isn't empty; or that end with another status.
const OTHER_ENDS: &[(&[u8], &[u8], u8)] = &[
    (b"quiet 3\n", b"quiet 2\n", 0),
    (b"quiet 1\n", b"quiet 2\n", 4),
    (b"quiet 2\n", b"quiet 2\n", 4),
    (b"quiet 2\n", b"", 0),
    (b"", b"", 0),
];

#[test]
fn other_ends_are_reported_apart(rt: HostRuntime) -> Result<(), Fail> {
    for (taken, other, status) in OTHER_ENDS {
        let outcome = outcome_of(rt.alloc(), *taken, *status)?;
        assert!(rt; !ended_by(outcome, b"quiet 1\n", *other, 0));
    }
    Ok(())
}

#[test]
fn any_workers_come_to_these_ends(rt: HostRuntime) -> Result<(), Fail> {
    for (command, turns, file, net, text, other, status) in CASES {
        for workers in WORKERS {
            let words = [*command, "f", "n", "--turns", *turns, "--workers", workers];
            let outcome = run_on(&rt, &words, *file, *net)?;
            assert!(rt;
                ended_by(outcome, *text, *other, *status),
                "{command} with {turns} turns by {workers}: {text:?}"
            );
        }
    }
    Ok(())
}

// Where no flag is given, there are workers and turns enough.
#[test]
fn flags_may_be_left_out(rt: HostRuntime) -> Result<(), Fail> {
    let cases: &[(&str, &[u8], &[u8])] = &[
        ("run", BOTH_WAYS, BOTH_WAYS_RUN),
        ("trace", BOTH_WAYS, BOTH_WAYS_TRACE),
        ("run", CUT, CUT_RUN),
    ];
    for (command, net, text) in cases {
        let outcome = run_on(&rt, &[*command, "f", "n"], SHORTEST, *net)?;
        assert!(rt; ended_with(outcome, *text, 0));
    }
    Ok(())
}

// No table of this network is stable, so its nodes never come to rest.
pub(crate) const GADGET: &[u8] = b"node z p q r
link p z : D
link q z : D
link r z : D
link p q : N
link q r : N
link r p : N
origin x at z : o
";

#[test]
fn bad_gadgets_use_all_turns(rt: HostRuntime) -> Result<(), Fail> {
    for workers in ["1", "2", "3", "4", "16"] {
        let words = ["run", "f", "n", "--turns", "50", "--workers", workers];
        let outcome = run_on(&rt, &words, BAD_GADGET, GADGET)?;
        assert!(rt;
            outcome.taken.as_slice().ends_with(b"spent 50\n"),
            "by {workers}"
        );
        assert!(rt; outcome.status == 4, "by {workers}");
    }
    Ok(())
}

// Each of p and q likes the way by the other one best. So there are two stable tables, and the nodes may never come
// to either.
pub(crate) const DISAGREE: &[u8] = b"node z p q
link p z : D
link q z : D
link p q : N
link q p : N
origin x at z : o
";

// Whether the text is one of the stable tables, and how many deliveries led there.
fn is_agreement(text: &str) -> bool {
    for rows in [
        "z x o z\np x a p q z\nq x d q z\nquiet ",
        "z x o z\np x d p z\nq x a q p z\nquiet ",
    ] {
        if text.starts_with(rows) {
            return text.lines().count() == 4;
        }
    }
    false
}

// Rows that aren't stable, both of both tables, and a table that isn't said to be quiet.
const NO_AGREEMENTS: [&str; 4] = [
    "z x o z\np x d p z\nq x d q z\nquiet 2\n",
    "z x o z\np x a p q z\nq x a q p z\nquiet 4\n",
    "z x o z\np x a p q z\nq x d q z\nspent 4\n",
    "z x o z\np x a p q z\nq x d q z\nquiet 3\nphase 1\n",
];

#[test]
fn other_tables_are_no_agreements(rt: HostRuntime) {
    for text in NO_AGREEMENTS {
        assert!(rt; !is_agreement(text), "{text}");
    }
}

const MANY_TURNS: &str = "1000";

const MANY_SPENT: &str = "spent 1000\n";

#[test]
fn disagreements_end_in_a_stable_table_if_at_all(rt: HostRuntime) -> Result<(), Fail> {
    for workers in WORKERS {
        let words = ["run", "f", "n", "--turns", MANY_TURNS, "--workers", workers];
        let outcome = run_on(&rt, &words, BAD_GADGET, DISAGREE)?;
        let text = str::from_utf8(&outcome.taken)?;
        let is_spent = outcome.status == 4 && text.ends_with(MANY_SPENT);
        let is_quiet = outcome.status == 0 && is_agreement(text);
        assert!(rt; is_spent || is_quiet, "by {workers}: {text}");
    }
    Ok(())
}
