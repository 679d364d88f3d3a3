// Tests of `stable`: the one stable table of each destination where labels are monotone, which runs come to, worked out
// by hand; and labels that forbid it.
use crate::program::{BAD_GADGET, CUSTOMERS, Outcome, ended_with, is_missing, outcome_of, run_on};
use crate::runs::{DISAGREE, WORKERS};
use crate::settled::PROVIDERS;
use std::str;
use std::test::Fail;

const FREE: &[u8] = b"main add(0..10);";

// Links that cost nothing. So all ways weigh the same, and the shortest are taken.
const FREE_RING: &[u8] =
    b"node a b c\nboth a b : 0\nboth b c : 0\nboth c a : 0\norigin x at a : 0\n";

const FREE_RING_ROWS: &str = "a x 0 a\nb x 0 b a\nc x 0 c a\n";

const FREE_RING_TABLES: &[u8] = b"x 1 stable\ntable 1\na x 0 a\nb x 0 b a\nc x 0 c a\n";

const PROVIDERS_TABLES: &[u8] =
    b"x 1 stable\ntable 1\nu x (p,2) u v w\nv x (c,1) v w\nw x (c,0) w\n";

// The tables are those of the network after all its changes.
const TWO_DESTS: &[u8] = b"node a b c
both a b : 0
link c a : 0
origin x at b : 0
origin y at c : 3
then drop c a
";

const TWO_DESTS_TABLES: &[u8] = b"x 1 stable
table 1
a x 0 a b
b x 0 b
c x none
y 1 stable
table 1
a y none
b y none
c y 3 c
";

// Without the arcs whose label isn't monotone, nodes have one stable table.
const AGREE: &[u8] =
    b"node z p q\nlink p z : D\nlink p q : N\nlink q z : D\norigin x at z : o\nthen drop p q\n";

const AGREE_TABLES: &[u8] = b"x 1 stable\ntable 1\nz x o z\np x d p z\nq x d q z\n";

#[test]
fn stable_tables_are_found(rt: HostRuntime) -> Result<(), Fail> {
    let cases: &[(&[u8], &[u8], &[u8])] = &[
        (FREE, FREE_RING, FREE_RING_TABLES),
        (CUSTOMERS, PROVIDERS, PROVIDERS_TABLES),
        (FREE, TWO_DESTS, TWO_DESTS_TABLES),
        (BAD_GADGET, AGREE, AGREE_TABLES),
        (FREE, b"node a\n", b""),
    ];
    for (file, net, tables) in cases {
        assert!(rt; ended_with(run_on(&rt, &["stable", "f", "n"], *file, *net)?, *tables, 0));
    }
    Ok(())
}

// The first arc whose label isn't monotone is named, after all changes.
#[test]
fn labels_forbid_stable_tables(rt: HostRuntime) -> Result<(), Fail> {
    let cases: &[(&[u8], &[u8], &str)] = &[
        (
            BAD_GADGET,
            DISAGREE,
            "monotone fails on p q: N on d gives a\n",
        ),
        (
            b"main lp(3);",
            b"node a b c\nlink b c : 0\nlink a b : 0\norigin x at c : 0\nthen link a b : 3\n",
            "monotone fails on a b: 3 on ",
        ),
    ];
    for (file, net, begins) in cases {
        assert!(rt; is_missing(run_on(&rt, &["stable", "f", "n"], *file, *net)?, *begins)?);
    }
    Ok(())
}

// Whether the run came to rest with these rows, after any number of deliveries.
pub(crate) fn is_at_rest(outcome: Outcome, rows: &str) -> Result<bool, Fail> {
    let text = str::from_utf8(&outcome.taken)?;
    match text.strip_prefix(rows) {
        Some(rest) => {
            let is_quiet = rest.starts_with("quiet ") && rest.lines().count() == 1;
            Ok(is_quiet && outcome.status == 0)
        }
        None => Ok(false),
    }
}

// Ends of a node that aren't `a x 0 a` at rest.
const NO_RESTS: &[(&[u8], u8)] = &[
    (b"a x 0 a\nquiet 0\n", 4),
    (b"a x 0 a\nspent 0\n", 0),
    (b"a x none\nquiet 0\n", 0),
    (b"a x 0 a\nquiet 0\nphase 1\n", 0),
    (b"a x 0 a\nb x none\nquiet 0\n", 0),
];

#[test]
fn other_ends_are_reported_apart(rt: HostRuntime) -> Result<(), Fail> {
    for (taken, status) in NO_RESTS {
        let outcome = outcome_of(rt.alloc(), *taken, *status)?;
        assert!(rt; !is_at_rest(outcome, "a x 0 a\n")?);
    }
    Ok(())
}

// Whatever is delivered first, each run comes to the one stable table.
#[test]
fn any_workers_come_to_the_stable_table(rt: HostRuntime) -> Result<(), Fail> {
    for _run in 0..50u32 {
        for workers in WORKERS {
            let words = ["run", "f", "n", "--workers", workers];
            let outcome = run_on(&rt, &words, FREE, FREE_RING)?;
            assert!(rt; is_at_rest(outcome, FREE_RING_ROWS)?, "by {workers}");
        }
    }
    Ok(())
}
