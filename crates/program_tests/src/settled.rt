// Tests of `settle`: the one stable table of a network, worked out by hand, also after each change of one whose nodes
// ran through its changes; and labels that forbid it.
use crate::program::{CUSTOMERS, ended_with, is_missing, run_on};
use std::test::Fail;

// Costs are added up.
pub(crate) const SHORTEST: &[u8] = b"main add(1..10);";

// The widest way, and among those the shortest. Its labels aren't isotone.
pub(crate) const WIDE_THEN_SHORT: &[u8] = b"main lex(width(100; 0..100), add(1..10));";

// The walk a b c d is better for a, but b doesn't route by c.
pub(crate) const UNHEARD: &[u8] = b"node a b c d
link b d : (10,7)
link c d : (6,1)
link b c : (6,1)
link a b : (5,1)
origin x at d : (100,0)
";

const UNHEARD_ROWS: &[u8] = b"a x (5,8) a b d\nb x (10,7) b d\nc x (6,1) c d\nd x (100,0) d\n";

// Two ways from a to d that are equally good: the one by the smaller node number is taken.
pub(crate) const DIAMOND: &[u8] =
    b"node a b c d\nlink a b : 1\nlink a c : 1\nlink b d : 1\nlink c d : 1\norigin x at d : 0\n";

const DIAMOND_ROWS: &[u8] = b"a x 2 a b d\nb x 1 b d\nc x 1 c d\nd x 0 d\n";

// A provider route is reported upwards to no one.
pub(crate) const PROVIDERS: &[u8] =
    b"node u v w\nlink u v : (P,1)\nlink v w : (C,1)\norigin x at w : (c,0)\n";

const PROVIDERS_ROWS: &[u8] = b"u x (p,2) u v w\nv x (c,1) v w\nw x (c,0) w\n";

// The rows of the phases that nodes run through on these networks, one change after another.
const BEFORE: &[u8] = b"node a b c\nlink a b : 1\nlink b c : 1\nlink a c : 5\norigin x at c : 0\n";

const RELABELLED: &[u8] = b"node a b c
link a b : 1
link b c : 1
link a c : 5
origin x at c : 0
then link a b : 9
";

const DROPPED: &[u8] = b"node a b c
link a b : 1
link b c : 1
link a c : 5
origin x at c : 0
then link a b : 9
then drop a c
";

#[test]
fn tables_are_settled(rt: HostRuntime) -> Result<(), Fail> {
    let cases: &[(&[u8], &[u8], &[u8])] = &[
        (WIDE_THEN_SHORT, UNHEARD, UNHEARD_ROWS),
        (b"main add(1..1);", DIAMOND, DIAMOND_ROWS),
        (CUSTOMERS, PROVIDERS, PROVIDERS_ROWS),
        (SHORTEST, BEFORE, b"a x 2 a b c\nb x 1 b c\nc x 0 c\n"),
        (SHORTEST, RELABELLED, b"a x 5 a c\nb x 1 b c\nc x 0 c\n"),
        (SHORTEST, DROPPED, b"a x 10 a b c\nb x 1 b c\nc x 0 c\n"),
        (SHORTEST, b"", b""),
    ];
    for (file, net, rows) in cases {
        assert!(rt; ended_with(run_on(&rt, &["settle", "f", "n"], *file, *net)?, *rows, 0));
    }
    Ok(())
}

#[test]
fn labels_forbid_settling(rt: HostRuntime) -> Result<(), Fail> {
    let cases: &[(&[u8], &[u8], &str)] = &[
        (
            b"main add(0..10);",
            b"node a b\nlink a b : 0\norigin x at b : 0\n",
            "strict fails on a b: 0 on ",
        ),
        (
            b"main add(0..10);",
            b"node a b c\nlink b c : 1\nlink a b : 1\norigin x at c : 0\nthen link a b : 0\n",
            "strict fails on a b: 0 on ",
        ),
    ];
    for (file, net, begins) in cases {
        assert!(rt; is_missing(run_on(&rt, &["settle", "f", "n"], *file, *net)?, *begins)?);
    }
    Ok(())
}
