// Tests of `stable_check`: what walks weigh, which tables are relaxed, and which are stable.
use meta_base::{DestId, NodeId};
use net_graph::Net;
use stable_check::{MAX_WALK_NODES, is_relaxed, is_stable, is_table_of, weight_of};
use std::alloc::Global;
use std::test::Fail;
use testkit_nodes::{is_value, path_of, table_of};
use testkit_readers::network;

const WIDE_THEN_SHORT: &str = "lex(width(100; 0..100), add(1..10))";

const WIDE_NET: &[u8] = b"node a b c d
link b d : (10,7)
link c d : (6,1)
link b c : (6,1)
link a b : (5,1)
origin x at d : (100,0)
";

const SHORT_THEN_WIDE: &str = "lex(add(1..10), width(100; 0..100))";

const SHORT_NET: &[u8] = b"node a b c d
link b d : (7,10)
link c d : (1,6)
link b c : (1,6)
link a b : (1,5)
origin x at d : (0,100)
";

const HOPS: &str = "add(1..9)";

// Two ways from a to d that are equally good.
const DIAMOND: &[u8] =
    b"node a b c d\nlink a b : 1\nlink a c : 1\nlink b d : 1\nlink c d : 1\norigin x at d : 0\n";

// Of the two ways the one by c is better.
const BENT: &[u8] =
    b"node a b c d\nlink a b : 2\nlink a c : 1\nlink b d : 1\nlink c d : 1\norigin x at d : 0\n";

// The arc from a to d is worse than the way by b, and as good as that.
const DETOUR: &[u8] = b"node a b d\nlink a b : 1\nlink b d : 1\nlink a d : 5\norigin x at d : 0\n";

const SHORTCUT: &[u8] =
    b"node a b d\nlink a b : 1\nlink b d : 1\nlink a d : 2\norigin x at d : 0\n";

// a has a value of its own, which is better than what b offers, and as good as that.
const BETTER_HOME: &[u8] = b"node a b\nlink a b : 1\norigin x at a : 0\norigin x at b : 0\n";

const EQUAL_HOME: &[u8] = b"node a b\nlink a b : 1\norigin x at a : 1\norigin x at b : 0\n";

// An arc each way. From c there is none.
const BOTH_WAYS: &[u8] = b"node a b c\nboth a b : 3\norigin x at b : 0\n";

const DENIED: &[u8] = b"node a b\nlink a b : deny\norigin x at b : unit\n";

// No sum is above 3.
const CAPPED: &[u8] = b"node a b c\nlink a b : 1\nlink b c : 1\norigin x at c : 2\n";

// All sets are equally good.
const MARKED: &[u8] = b"node a b\nlink a b : +1\norigin x at b : {0}\n";

// Each of p and q likes the way by the other one best.
const DISAGREEMENT: &str = "table { o < a < d; D: o -> d; N: d -> a }";

const DISAGREE: &[u8] = b"node z p q
link p z : D
link q z : D
link p q : N
link q p : N
origin x at z : o
";

// The label from p to q keeps what q has of p.
const KEEPING: &str = "table { o < a < d; D: o -> d; N: d -> a; M: a -> a }";

const ECHO: &[u8] = b"node z p q\nlink p z : D\nlink q p : N\nlink p q : M\norigin x at z : o\n";

// Whether the nodes weigh so much for the first destination.
fn do_weigh(alloc: Global, net: &Net, nodes: &[NodeId], weight: &str) -> Result<bool, Fail> {
    if net.dest_count() == 0 || nodes.len() > MAX_WALK_NODES {
        return Err("there is no destination, or the walk is too long".into());
    }
    let found = weight_of(alloc, net, DestId(0), nodes)?;
    is_value(alloc, net, found.as_ref(), weight)
}

// The same of the nodes of these names.
fn is_weight(alloc: Global, net: &Net, walk: &str, weight: &str) -> Result<bool, Fail> {
    let walk = path_of(alloc, net, walk)?;
    do_weigh(alloc, net, walk.as_slice(), weight)
}

// The same over the network of these lines.
fn is_weight_over(
    alloc: Global,
    expression: &str,
    lines: &[u8],
    walk: &str,
    weight: &str,
) -> Result<bool, Fail> {
    let net = network(alloc, expression, lines)?;
    let answer = is_weight(alloc, &net, walk, weight);
    drop(net);
    answer
}

// An expression, the lines of a network, a list of its nodes, and what that weighs for the first destination.
type Walk = (&'static str, &'static [u8], &'static str, &'static str);

const WALKS: &[Walk] = &[
    (WIDE_THEN_SHORT, WIDE_NET, "a b c d", "(5,3)"),
    (WIDE_THEN_SHORT, WIDE_NET, "a b d", "(5,8)"),
    (WIDE_THEN_SHORT, WIDE_NET, "d", "(100,0)"),
    // There is no arc from a to c, and none from d.
    (WIDE_THEN_SHORT, WIDE_NET, "a c d", "none"),
    (WIDE_THEN_SHORT, WIDE_NET, "d c d", "none"),
    // No walk is empty or ends where nothing comes from.
    (WIDE_THEN_SHORT, WIDE_NET, "-", "none"),
    (WIDE_THEN_SHORT, WIDE_NET, "a", "none"),
    (WIDE_THEN_SHORT, WIDE_NET, "a b c", "none"),
    // A walk may pass a node twice.
    (HOPS, BOTH_WAYS, "a b a b", "9"),
    (HOPS, BOTH_WAYS, "b a b", "6"),
    // It ends where its last node is, also where a value comes from one before.
    (HOPS, BETTER_HOME, "a b", "1"),
    (HOPS, BETTER_HOME, "a", "0"),
    ("gate", DENIED, "a b", "none"),
    ("gate", DENIED, "b", "unit"),
    ("cap(3; 1..1)", CAPPED, "b c", "3"),
    ("cap(3; 1..1)", CAPPED, "a b c", "none"),
];

#[test]
fn walks_are_weighed(rt: HostRuntime) -> Result<(), Fail> {
    for (expression, lines, walk, weight) in WALKS {
        let is_weight = is_weight_over(rt.alloc(), *expression, *lines, *walk, *weight)?;
        assert!(rt; is_weight, "{walk} weighs {weight}");
    }
    Ok(())
}

// The network has the nodes 0 to 2.
#[test]
fn other_nodes_make_no_walk(rt: HostRuntime) -> Result<(), Fail> {
    let net = network(rt.alloc(), HOPS, BOTH_WAYS)?;
    let is_first = do_weigh(rt.alloc(), &net, &[NodeId(3), NodeId(1)], "none")?;
    let is_last = do_weigh(rt.alloc(), &net, &[NodeId(0), NodeId(3)], "none")?;
    drop(net);
    assert!(rt; is_first && is_last);
    Ok(())
}

// Walks that don't weigh this.
const OTHER_WALKS: &[Walk] = &[
    (HOPS, BOTH_WAYS, "a b", "4"),
    (HOPS, BOTH_WAYS, "a b", "none"),
    (HOPS, BOTH_WAYS, "a", "0"),
];

#[test]
fn other_weights_are_reported_apart(rt: HostRuntime) -> Result<(), Fail> {
    for (expression, lines, walk, weight) in OTHER_WALKS {
        let is_weight = is_weight_over(rt.alloc(), *expression, *lines, *walk, *weight)?;
        assert!(rt; !is_weight, "{walk} weighs {weight}");
    }
    Ok(())
}

// Whether the table of these rows is relaxed, and whether it is stable; `None` where it is no table of the network.
fn checks(alloc: Global, net: &Net, rows: &str) -> Result<Option<(bool, bool)>, Fail> {
    let table = table_of(alloc, net, rows)?;
    if !is_table_of(net, &table) {
        return Ok(None);
    }
    let relaxed = is_relaxed(alloc, net, &table)?;
    let stable = is_stable(alloc, net, &table)?;
    Ok(Some((relaxed, stable)))
}

// The same over the network of these lines.
fn checks_over(
    alloc: Global,
    expression: &str,
    lines: &[u8],
    rows: &str,
) -> Result<Option<(bool, bool)>, Fail> {
    let net = network(alloc, expression, lines)?;
    let answers = checks(alloc, &net, rows);
    drop(net);
    answers
}

const BOTH: Option<(bool, bool)> = Some((true, true));

const RELAXED_ALONE: Option<(bool, bool)> = Some((true, false));

const STABLE_ALONE: Option<(bool, bool)> = Some((false, true));

const NEITHER: Option<(bool, bool)> = Some((false, false));

// An expression, the lines of a network, the rows of a table, and what that is.
type Table = (
    &'static str,
    &'static [u8],
    &'static str,
    Option<(bool, bool)>,
);

const TABLES: &[Table] = &[
    (
        WIDE_THEN_SHORT,
        WIDE_NET,
        "(5,8) a b d / (10,7) b d / (6,1) c d / (100,0) d",
        BOTH,
    ),
    (
        SHORT_THEN_WIDE,
        SHORT_NET,
        "(3,5) a b c d / (2,6) b c d / (1,6) c d / (0,100) d",
        BOTH,
    ),
    (
        SHORT_THEN_WIDE,
        SHORT_NET,
        "(3,5) a b c d / none / (1,6) c d / (0,100) d",
        NEITHER,
    ),
    (HOPS, DIAMOND, "2 a b d / 1 b d / 1 c d / 0 d", BOTH),
    // A tie that is broken the wrong way.
    (
        HOPS,
        DIAMOND,
        "2 a c d / 1 b d / 1 c d / 0 d",
        RELAXED_ALONE,
    ),
    // No row where there is an offer, of an arc or of the node's own.
    (HOPS, DIAMOND, "none / 1 b d / 1 c d / 0 d", NEITHER),
    (HOPS, DIAMOND, "none / none / none / none", NEITHER),
    // The value isn't the weight.
    (HOPS, DIAMOND, "1 a b d / 1 b d / 1 c d / 0 d", NEITHER),
    // There is no such arc.
    (HOPS, DIAMOND, "2 a d / 1 b d / 1 c d / 0 d", NEITHER),
    // The walk of another node, and one that ends too soon.
    (HOPS, DIAMOND, "1 b d / 1 b d / 1 c d / 0 d", NEITHER),
    (HOPS, DIAMOND, "2 a b / 1 b d / 1 c d / 0 d", NEITHER),
    // No path, and one past the network's nodes.
    (HOPS, DIAMOND, "2 - / 1 b d / 1 c d / 0 d", NEITHER),
    (HOPS, DIAMOND, "2 a 4 d / 1 b d / 1 c d / 0 d", NEITHER),
    // The best value with another path.
    (HOPS, BENT, "2 a c d / 1 b d / 1 c d / 0 d", BOTH),
    (HOPS, BENT, "2 a b d / 1 b d / 1 c d / 0 d", NEITHER),
    // An arc is preferred.
    (HOPS, DETOUR, "2 a b d / 1 b d / 0 d", BOTH),
    (HOPS, DETOUR, "5 a d / 1 b d / 0 d", NEITHER),
    // Among equal values the shorter path is taken.
    (HOPS, SHORTCUT, "2 a d / 1 b d / 0 d", BOTH),
    (HOPS, SHORTCUT, "2 a b d / 1 b d / 0 d", RELAXED_ALONE),
    // An origin is preferred, and one is as good by a shorter path.
    (HOPS, BETTER_HOME, "0 a / 0 b", BOTH),
    (HOPS, BETTER_HOME, "1 a b / 0 b", NEITHER),
    (HOPS, EQUAL_HOME, "1 a / 0 b", BOTH),
    (HOPS, EQUAL_HOME, "1 a b / 0 b", RELAXED_ALONE),
    // Nothing is offered.
    (HOPS, BOTH_WAYS, "3 a b / 0 b / none", BOTH),
    ("gate", DENIED, "none / unit b", BOTH),
    ("gate", DENIED, "unit a b / unit b", NEITHER),
    ("cap(3; 1..1)", CAPPED, "none / 3 b c / 2 c", BOTH),
    // A value that is as good isn't the weight.
    ("tags(2)", MARKED, "{0,1} a b / {0} b", BOTH),
    ("tags(2)", MARKED, "{1} a b / {0} b", NEITHER),
    // Two tables are stable. In one that isn't, p and q each route by the row that the other one had.
    (DISAGREEMENT, DISAGREE, "o z / a p q z / d q z", BOTH),
    (DISAGREEMENT, DISAGREE, "o z / d p z / a q p z", BOTH),
    (DISAGREEMENT, DISAGREE, "o z / d p z / d q z", NEITHER),
    (
        DISAGREEMENT,
        DISAGREE,
        "o z / a p q z / a q p z",
        RELAXED_ALONE,
    ),
    // What comes back to p by its own path is no offer, however good.
    (KEEPING, ECHO, "o z / d p z / a q p z", STABLE_ALONE),
    (KEEPING, ECHO, "o z / a p q p z / a q p z", RELAXED_ALONE),
    // One row for each node, of a destination of the network.
    (HOPS, DIAMOND, "2 a b d / 1 b d / 1 c d", None),
    (HOPS, DIAMOND, "2 a b d / 1 b d / 1 c d / 0 d / none", None),
    (HOPS, b"node a\n", "none", None),
];

#[test]
fn tables_are_checked(rt: HostRuntime) -> Result<(), Fail> {
    for (expression, lines, rows, expected) in TABLES {
        let answers = checks_over(rt.alloc(), *expression, *lines, *rows)?;
        assert_eq!(rt; answers, *expected, "{rows}");
    }
    Ok(())
}
