// Tests of `flood`: rows and ends that are worked out by hand, and that hold whatever is delivered first, so for any
// number of workers; and drawn networks, on which it prints the rows of `route`. On each arc the speaker sends the card
// of each node that it reaches, once: so many deliveries there are.
use crate::program::{BAD_GADGET, CUSTOMERS, ended_with, is_missing, run_on};
use crate::routes::{
    CHANGED, Draw, FULL_WIDTH, Policy, SHORT_THEN_WIDE, THREE_ARCS, WIDE, WIDE_SUMS, drawn_arcs,
    network_of,
};
use crate::runs::{BOTH_WAYS, BOTH_WAYS_UNHEARD, DISAGREE, WORKERS};
use crate::settled::{DIAMOND, PROVIDERS, SHORTEST, WIDE_THEN_SHORT};
use crate::stable::is_at_rest;
use std::alloc::AllocGlobal;
use std::str;
use std::sync::Wait;
use std::test::Fail;
use std::thread::Threads;

// To a nobody listens, b reaches b, c and d, and c reaches c and d.
const THREE_ARCS_FLOOD: &[u8] =
    b"a x (3,5) a b c d\nb x (2,6) b c d\nc x (1,6) c d\nd x (0,100) d\nquiet 7\n";

// Each gets the other's card, and its own back.
const BOTH_WAYS_FLOOD: &[u8] = b"a x 3 a b\nb x 0 b\nquiet 4\n";

// What is still on its way is a card that is there already.
const BOTH_WAYS_FEWER: &[u8] = b"a x 3 a b\nb x 0 b\nspent 3\n";

// Two parts, of which neither hears of the other.
pub(crate) const PARTS: &[u8] =
    b"node a b c d\nboth a b : 1\nboth c d : 2\norigin x at b : 0\norigin y at d : 0\n";

const PARTS_FLOOD: &[u8] = b"a x 1 a b
b x 0 b
c x none
d x none
a y none
b y none
c y 2 c d
d y 0 d
quiet 8
";

// Each of three nodes is sent three cards on each of two arcs.
pub(crate) const RING: &[u8] =
    b"node a b c\nboth a b : 1\nboth b c : 1\nboth c a : 1\norigin x at a : 0\n";

const RING_FLOOD: &[u8] = b"a x 0 a\nb x 1 b a\nc x 1 c a\nquiet 18\n";

const RING_FEWER: &[u8] = b"a x 0 a\nb x 1 b a\nc x 1 c a\nspent 17\n";

const DIAMOND_FLOOD: &[u8] = b"a x 2 a b d\nb x 1 b d\nc x 1 c d\nd x 0 d\nquiet 6\n";

// The flood is on the network after all its changes.
const CHANGED_FLOOD: &[u8] = b"a x 10 a b c\nb x 1 b c\nc x 0 c\nquiet 3\n";

const FULL_WIDTH_FLOOD: &[u8] = b"a x (7,1) a b\nb x (7,0) b\nquiet 1\n";

// Sums pass a word of 64 bits.
const WIDE_FLOOD: &[u8] = b"a x 55340232221128654845 a b c
b x 36893488147419103230 b c
c x 18446744073709551615 c
quiet 3
";

// Turns, an expression and a network, and what is printed.
type Case = (&'static str, &'static [u8], &'static [u8], &'static [u8]);

pub(crate) const ONE_NODE: &[u8] = b"node a\norigin x at a : 0\n";

// Turns enough, for any number of workers.
const QUIET: &[Case] = &[
    ("99", SHORT_THEN_WIDE, THREE_ARCS, THREE_ARCS_FLOOD),
    ("4", SHORTEST, BOTH_WAYS, BOTH_WAYS_FLOOD),
    ("99", SHORTEST, PARTS, PARTS_FLOOD),
    ("99", SHORTEST, RING, RING_FLOOD),
    ("99", SHORTEST, DIAMOND, DIAMOND_FLOOD),
    ("99", SHORTEST, CHANGED, CHANGED_FLOOD),
    ("99", WIDE_THEN_SHORT, FULL_WIDTH, FULL_WIDTH_FLOOD),
    ("99", WIDE_SUMS, WIDE, WIDE_FLOOD),
    ("0", SHORTEST, ONE_NODE, b"a x 0 a\nquiet 0\n"),
    ("0", SHORTEST, b"", b"quiet 0\n"),
];

// As many turns as there are deliveries, for one worker: several share so few turns out again and again, which takes
// long on a busy machine.
const JUST_ENOUGH: &[Case] = &[
    ("7", SHORT_THEN_WIDE, THREE_ARCS, THREE_ARCS_FLOOD),
    ("8", SHORTEST, PARTS, PARTS_FLOOD),
    ("18", SHORTEST, RING, RING_FLOOD),
    ("6", SHORTEST, DIAMOND, DIAMOND_FLOOD),
    ("3", SHORTEST, CHANGED, CHANGED_FLOOD),
];

const SPENT: &[Case] = &[
    ("0", SHORTEST, BOTH_WAYS, BOTH_WAYS_UNHEARD),
    ("3", SHORTEST, BOTH_WAYS, BOTH_WAYS_FEWER),
];

// Whether the flood of the case ends so, by each of these numbers of workers.
fn ends_so(
    rt: &(impl AllocGlobal + Threads + Wait + Sync),
    workers: &[&'static str],
    case: &Case,
    status: u8,
) -> Result<bool, Fail> {
    let (turns, file, net, text) = case;
    for count in workers {
        let words = ["flood", "f", "n", "--turns", *turns, "--workers", *count];
        if !ended_with(run_on(rt, &words, *file, *net)?, *text, status) {
            return Ok(false);
        }
    }
    Ok(true)
}

#[test]
fn floods_with_turns_enough_are_quiet(rt: HostRuntime) -> Result<(), Fail> {
    for case in QUIET {
        assert!(rt; ends_so(&rt, &WORKERS, case, 0)?, "{case:?}");
    }
    for case in JUST_ENOUGH {
        assert!(rt; ends_so(&rt, &["1"], case, 0)?, "{case:?}");
    }
    Ok(())
}

#[test]
fn floods_with_fewer_turns_are_spent(rt: HostRuntime) -> Result<(), Fail> {
    for case in SPENT {
        assert!(rt; ends_so(&rt, &WORKERS, case, 4)?, "{case:?}");
    }
    let case = ("17", SHORTEST, RING, RING_FEWER);
    assert!(rt; ends_so(&rt, &["1"], &case, 4)?);
    Ok(())
}

// Which delivery isn't made is the workers' choice, and with it what a knows.
#[test]
fn floods_are_spent_with_one_turn_fewer(rt: HostRuntime) -> Result<(), Fail> {
    for workers in WORKERS {
        let words = ["flood", "f", "n", "--turns", "6", "--workers", workers];
        let outcome = run_on(&rt, &words, SHORT_THEN_WIDE, THREE_ARCS)?;
        let is_spent = outcome.taken.as_slice().ends_with(b"\nspent 6\n");
        assert!(rt; is_spent && outcome.status == 4, "by {workers}");
    }
    let case = ("6", SHORT_THEN_WIDE, THREE_ARCS, THREE_ARCS_FLOOD);
    assert!(rt; !ends_so(&rt, &["1"], &case, 0)?);
    Ok(())
}

// Whether a flood by so many workers ends on the drawn network with the rows of `route`.
fn floods_to_routes(
    rt: &(impl AllocGlobal + Threads + Wait + Sync),
    workers: &str,
    policy: Policy,
    draw: &mut Draw,
) -> Result<bool, Fail> {
    let alloc = rt.alloc();
    let arcs = drawn_arcs(alloc, draw)?;
    let net = network_of(alloc, policy, &arcs)?;
    let routed = run_on(rt, &["route", "f", "n"], policy.file(), net.as_bytes())?;
    let words = ["flood", "f", "n", "--workers", workers];
    let flooded = run_on(rt, &words, policy.file(), net.as_bytes())?;
    is_at_rest(flooded, str::from_utf8(&routed.taken)?)
}

#[test]
fn floods_of_drawn_networks_end_in_the_rows_of_route(rt: HostRuntime) -> Result<(), Fail> {
    let mut draw = Draw { state: 1 };
    for workers in WORKERS {
        for policy in [Policy::Sum, Policy::Greatest, Policy::SumThenWidth] {
            for _network in 0..5 {
                assert!(rt;
                    floods_to_routes(&rt, workers, policy, &mut draw)?,
                    "by {workers}"
                );
            }
        }
    }
    Ok(())
}

// A label that isn't fit is named, whatever the turns, as `route` does.
#[test]
fn floods_need_fit_labels(rt: HostRuntime) -> Result<(), Fail> {
    for turns in ["0", "9"] {
        let words = ["flood", "f", "n", "--turns", turns];
        let outcome = run_on(&rt, &words, CUSTOMERS, PROVIDERS)?;
        assert!(rt; is_missing(outcome, "isotone fails on u v: (P,1) on ")?);
        let outcome = run_on(&rt, &words, BAD_GADGET, DISAGREE)?;
        assert!(rt; ended_with(outcome, b"monotone fails on p q: N on d gives a\n", 3));
    }
    Ok(())
}
