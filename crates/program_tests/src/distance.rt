// Tests of `distance`: rows and ends that are worked out by hand, and that hold whatever is delivered first, so for any
// number of workers; and drawn networks, on which its values are those of `route`.
use crate::floods::{ONE_NODE, PARTS, RING};
use crate::program::{Outcome, ended_with, is_missing, outcome_of, run_on};
use crate::routes::{
    CHANGED, Draw, FULL_WIDTH, Policy, SHORT_THEN_WIDE, THREE_ARCS, WIDE, WIDE_SUMS, drawn_arcs,
    network_of,
};
use crate::runs::{BOTH_WAYS, WORKERS};
use crate::settled::{DIAMOND, SHORTEST, UNHEARD, WIDE_THEN_SHORT};
use crate::stable::is_at_rest;
use std::alloc::AllocGlobal;
use std::str;
use std::sync::Wait;
use std::test::Fail;
use std::thread::Threads;

// Where b hears of d before it hears of c, its value changes again, and a hears of both.
const THREE_ARCS_ROWS: &str =
    "a x (3,5) via b\nb x (2,6) via c\nc x (1,6) via d\nd x (0,100) here\n";

// What a says of its value b refuses for its own.
const BOTH_WAYS_VALUES: &[u8] = b"a x 3 via b\nb x 0 here\nquiet 2\n";

const BOTH_WAYS_FEWER: &[u8] = b"a x 3 via b\nb x 0 here\nspent 1\n";

const BOTH_WAYS_UNHEARD: &[u8] = b"a x none\nb x 0 here\nspent 0\n";

// Two parts, of which neither hears of the other.
const PARTS_VALUES: &[u8] = b"a x 1 via b
b x 0 here
c x none
d x none
a y none
b y none
c y 2 via d
d y 0 here
quiet 4
";

const RING_ROWS: &str = "a x 0 here\nb x 1 via a\nc x 1 via a\n";

// Both ways are equal: the next hop is by the arc that the file has first, whichever of them a hears of first.
const DIAMOND_VALUES: &[u8] = b"a x 2 via b\nb x 1 via d\nc x 1 via d\nd x 0 here\nquiet 4\n";

const TURNED: &[u8] =
    b"node a b c d\nlink a c : 1\nlink a b : 1\nlink b d : 1\nlink c d : 1\norigin x at d : 0\n";

const TURNED_VALUES: &[u8] = b"a x 2 via c\nb x 1 via d\nc x 1 via d\nd x 0 here\nquiet 4\n";

// A new next hop with the same value isn't sent: z hears of a once.
const LISTENED: &[u8] = b"node z a b c d
link a b : 1
link a c : 1
link b d : 1
link c d : 1
link z a : 1
origin x at d : 0
";

const LISTENED_VALUES: &[u8] =
    b"z x 3 via a\na x 2 via b\nb x 1 via d\nc x 1 via d\nd x 0 here\nquiet 5\n";

// The own origin is as good as what b offers, and stands first.
const AS_GOOD: &[u8] = b"node a b\nlink a b : 1\norigin x at a : 1\norigin x at b : 0\n";

const AS_GOOD_VALUES: &[u8] = b"a x 1 here\nb x 0 here\nquiet 1\n";

// A neighbour's value is better than the own origin's.
const BETTER: &[u8] = b"node a b\nlink a b : 1\norigin x at a : 2\norigin x at b : 0\n";

const BETTER_VALUES: &[u8] = b"a x 1 via b\nb x 0 here\nquiet 1\n";

// The exchange is on the network after all its changes.
const CHANGED_VALUES: &[u8] = b"a x 10 via b\nb x 1 via c\nc x 0 here\nquiet 2\n";

const FULL_WIDTH_VALUES: &[u8] = b"a x (7,1) via b\nb x (7,0) here\nquiet 1\n";

// Sums pass a word of 64 bits.
const WIDE_VALUES: &[u8] = b"a x 55340232221128654845 via b
b x 36893488147419103230 via c
c x 18446744073709551615 here
quiet 2
";

// Turns, an expression and a network, and what is printed.
type Case = (&'static str, &'static [u8], &'static [u8], &'static [u8]);

const QUIET: &[Case] = &[
    ("99", SHORTEST, BOTH_WAYS, BOTH_WAYS_VALUES),
    ("99", SHORTEST, PARTS, PARTS_VALUES),
    ("99", SHORTEST, DIAMOND, DIAMOND_VALUES),
    ("99", SHORTEST, TURNED, TURNED_VALUES),
    ("99", SHORTEST, LISTENED, LISTENED_VALUES),
    ("99", SHORTEST, AS_GOOD, AS_GOOD_VALUES),
    ("99", SHORTEST, BETTER, BETTER_VALUES),
    ("99", SHORTEST, CHANGED, CHANGED_VALUES),
    ("99", WIDE_THEN_SHORT, FULL_WIDTH, FULL_WIDTH_VALUES),
    ("99", WIDE_SUMS, WIDE, WIDE_VALUES),
    ("0", SHORTEST, ONE_NODE, b"a x 0 here\nquiet 0\n"),
    ("0", SHORTEST, b"", b"quiet 0\n"),
];

const SPENT: &[Case] = &[
    ("0", SHORTEST, BOTH_WAYS, BOTH_WAYS_UNHEARD),
    ("1", SHORTEST, BOTH_WAYS, BOTH_WAYS_FEWER),
];

// Whether the exchange of the case ends so, by each number of workers.
fn ends_so(
    rt: &(impl AllocGlobal + Threads + Wait + Sync),
    case: &Case,
    status: u8,
) -> Result<bool, Fail> {
    let (turns, file, net, text) = case;
    for count in WORKERS {
        let words = ["distance", "f", "n", "--turns", *turns, "--workers", count];
        if !ended_with(run_on(rt, &words, *file, *net)?, *text, status) {
            return Ok(false);
        }
    }
    Ok(true)
}

#[test]
fn values_are_exchanged_until_nothing_is_on_its_way(rt: HostRuntime) -> Result<(), Fail> {
    for case in QUIET {
        assert!(rt; ends_so(&rt, case, 0)?, "{case:?}");
    }
    Ok(())
}

#[test]
fn exchanges_with_few_turns_are_spent(rt: HostRuntime) -> Result<(), Fail> {
    for case in SPENT {
        assert!(rt; ends_so(&rt, case, 4)?, "{case:?}");
    }
    Ok(())
}

// How many deliveries there are is the workers' choice.
#[test]
fn values_come_to_rest_in_any_order(rt: HostRuntime) -> Result<(), Fail> {
    for workers in WORKERS {
        let words = ["distance", "f", "n", "--workers", workers];
        let outcome = run_on(&rt, &words, SHORT_THEN_WIDE, THREE_ARCS)?;
        let is_short = outcome.taken.as_slice().ends_with(b"quiet 4\n");
        let is_long = outcome.taken.as_slice().ends_with(b"quiet 5\n");
        assert!(rt; (is_short || is_long) && is_at_rest(outcome, THREE_ARCS_ROWS)?);
        let outcome = run_on(&rt, &words, SHORTEST, RING)?;
        assert!(rt; is_at_rest(outcome, RING_ROWS)?, "by {workers}");
    }
    Ok(())
}

// The node, the destination and the value, or the word none, of a line of rows.
fn valued(line: &str) -> Option<(&str, &str, &str)> {
    let mut words = line.split(' ');
    Some((words.next()?, words.next()?, words.next()?))
}

// Whether these are the values of the rows of `route`, row for row, with a last line that says that nothing was on its
// way.
fn has_values_of(routed: &str, outcome: &Outcome) -> Result<bool, Fail> {
    let mut lines = str::from_utf8(&outcome.taken)?.lines();
    for row in routed.lines() {
        let Some(line) = lines.next() else {
            return Ok(false);
        };
        if valued(line) != valued(row) {
            return Ok(false);
        }
    }
    let Some(end) = lines.next() else {
        return Ok(false);
    };
    Ok(end.starts_with("quiet ") && lines.next().is_none() && outcome.status == 0)
}

// Ends that don't have the values of the one row `a x 3 a b`.
const OTHER_VALUES: &[(&[u8], u8)] = &[
    (b"a x 4 via b\nquiet 1\n", 0),
    (b"a x none\nquiet 1\n", 0),
    (b"b x 3 via b\nquiet 1\n", 0),
    (b"a y 3 via b\nquiet 1\n", 0),
    (b"a x 3 via b\nspent 1\n", 0),
    (b"a x 3 via b\nquiet 1\n", 4),
    (b"a x 3 via b\nquiet 1\nquiet 1\n", 0),
    (b"a x 3 via b\n", 0),
    (b"", 0),
];

#[test]
fn other_values_are_reported_apart(rt: HostRuntime) -> Result<(), Fail> {
    for (taken, status) in OTHER_VALUES {
        let outcome = outcome_of(rt.alloc(), *taken, *status)?;
        assert!(rt; !has_values_of("a x 3 a b\n", &outcome)?);
    }
    Ok(())
}

// Whether an exchange by so many workers ends on the drawn network with the values of `route`.
fn comes_to_values_of_route(
    rt: &(impl AllocGlobal + Threads + Wait + Sync),
    workers: &str,
    policy: Policy,
    draw: &mut Draw,
) -> Result<bool, Fail> {
    let alloc = rt.alloc();
    let arcs = drawn_arcs(alloc, draw)?;
    let net = network_of(alloc, policy, &arcs)?;
    let routed = run_on(rt, &["route", "f", "n"], policy.file(), net.as_bytes())?;
    let words = ["distance", "f", "n", "--workers", workers];
    let outcome = run_on(rt, &words, policy.file(), net.as_bytes())?;
    has_values_of(str::from_utf8(&routed.taken)?, &outcome)
}

#[test]
fn values_on_drawn_networks_are_those_of_route(rt: HostRuntime) -> Result<(), Fail> {
    let mut draw = Draw { state: 2 };
    for workers in WORKERS {
        for policy in [Policy::Sum, Policy::SumThenWidth] {
            for _network in 0..5 {
                assert!(rt;
                    comes_to_values_of_route(&rt, workers, policy, &mut draw)?,
                    "by {workers}"
                );
            }
        }
    }
    Ok(())
}

const FREE: &[u8] = b"main add(0..10);";

const FREE_ARC: &[u8] = b"node a b\nlink a b : 0\norigin x at b : 0\n";

const WIDE_THEN_FREE: &[u8] = b"main lex(width(100; 0..100), add(0..10));";

// The label is neither strict nor isotone.
const NEITHER: &[u8] = b"node a b\nlink a b : (10,0)\norigin x at b : (100,0)\n";

// The first arc's label isn't isotone, and the second's isn't strict.
const ONE_EACH: &[u8] =
    b"node a b c\nlink a b : (10,7)\nlink b c : (100,0)\norigin x at c : (100,0)\n";

// An expression and a network, and how the line of the refusal begins.
const UNFIT: &[(&[u8], &[u8], &str)] = &[
    (FREE, FREE_ARC, "strict fails on a b: 0 on "),
    (WIDE_THEN_SHORT, UNHEARD, "isotone fails on b d: (10,7) on "),
    (WIDE_THEN_FREE, NEITHER, "strict fails on a b: (10,0) on "),
    (WIDE_THEN_FREE, ONE_EACH, "isotone fails on a b: (10,7) on "),
];

// A label that isn't fit is named, whatever the turns: strict is looked for before isotone.
#[test]
fn exchanges_need_strict_and_isotone_labels(rt: HostRuntime) -> Result<(), Fail> {
    for (file, net, begins) in UNFIT {
        for turns in ["0", "9"] {
            let words = ["distance", "f", "n", "--turns", turns];
            assert!(rt;
                is_missing(run_on(&rt, &words, *file, *net)?, *begins)?,
                "{begins}"
            );
        }
    }
    Ok(())
}
