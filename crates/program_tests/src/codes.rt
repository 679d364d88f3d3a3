// Tests of `code`: the code of orders and of labels, worked out by hand, also of the labels of a network after its
// changes.
use crate::program::{ended_with, run_on};
use std::test::Fail;

const SHORT_THEN_WIDE: &[u8] = b"main lex(add(1..10), width(100; 0..100));";

const WAYS: &[u8] = b"node a b c d
link b d : (7,10)
link c d : (1,6)
link b c : (1,6)
link a b : (1,5)
origin x at d : (0,100)
";

const WAYS_CODE: &[u8] = b"order
0 less
1 more
arc b d (7,10)
0 add 7
1 min 10
arc c d (1,6)
0 add 1
1 min 6
arc b c (1,6)
0 add 1
1 min 6
arc a b (1,5)
0 add 1
1 min 5
";

const UNION_CODE: &[u8] = b"order
0 sides 2
1 less
2 skip 1
3 length
arc a b l:1
0 fork 2
1 add 1
2 skip 1
3 deny
";

#[test]
fn codes_are_reported(rt: HostRuntime) -> Result<(), Fail> {
    let cases: &[(&[u8], &[u8], &[u8])] = &[
        (SHORT_THEN_WIDE, WAYS, WAYS_CODE),
        (
            b"main union(add(1..1), seq(2));",
            b"node a b\nlink a b : l:1\n",
            UNION_CODE,
        ),
        (
            b"main plus(tags(4), guard(4));",
            b"node a b\nlink a b : r:?2\n",
            b"order\n0 pass\narc a b r:?2\n0 need 2\n",
        ),
        (
            b"main add(1..9);",
            b"node a b\nlink a b : 1\nlink b a : 2\nthen link a b : 9\nthen drop b a\n",
            b"order\n0 less\narc a b 9\n0 add 9\n",
        ),
        (b"main gate;", b"", b"order\n"),
    ];
    for (file, net, lines) in cases {
        assert!(rt; ended_with(run_on(&rt, &["code", "f", "n"], *file, *net)?, *lines, 0));
    }
    Ok(())
}

#[test]
fn an_order_needs_no_network(rt: HostRuntime) -> Result<(), Fail> {
    let ended = run_on(&rt, &["code", "f"], SHORT_THEN_WIDE, b"")?;
    assert!(rt; ended_with(ended, b"order\n0 less\n1 more\n", 0));
    Ok(())
}
