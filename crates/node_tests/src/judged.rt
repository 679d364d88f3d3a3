// Tests of `report_check`: which reports are read, what the tables that they mean are judged to be, and which next hops
// are equally good.
use alg_model::TreeAlgebra;
use arc_labels::{label_forms, speaker_labels};
use meta_base::{DestId, NodeId};
use net_graph::Net;
use report_check::{
    MAX_REPORT_BYTES, ManyHops, OptimalFinding, ReportError, StableFinding, best_hops, judge,
    read_report,
};
use stable_check::is_table_of;
use std::alloc::Global;
use std::test::Fail;
use testkit_nodes::{NOTHING, dest_of, is_route, node_of, path_of, table_of};
use testkit_readers::network;

const SHORT_THEN_WIDE: &str = "lex(add(1..10), width(100; 0..100))";

const SHORT_NET: &[u8] = b"node a b c d
link b d : (7,10)
link c d : (1,6)
link b c : (1,6)
link a b : (1,5)
origin x at d : (0,100)
";

const WIDE_THEN_SHORT: &str = "lex(width(100; 0..100), add(1..10))";

const WIDE_NET: &[u8] = b"node a b c d
link b d : (10,7)
link c d : (6,1)
link b c : (6,1)
link a b : (5,1)
origin x at d : (100,0)
";

const HOPS: &str = "add(1..10)";

const BOTH_WAYS: &[u8] = b"node a b\nboth a b : 3\norigin x at b : 0\n";

const BETTER_HOME: &[u8] = b"node a b\nlink a b : 1\norigin x at a : 0\norigin x at b : 0\n";

const EQUAL_HOME: &[u8] = b"node a b\nlink a b : 1\norigin x at a : 1\norigin x at b : 0\n";

const DIAMOND: &[u8] =
    b"node a b c d\nlink a b : 1\nlink a c : 1\nlink b d : 1\nlink c d : 1\norigin x at d : 0\n";

const TWO_DESTS: &[u8] = b"node a b\nlink a b : 3\norigin x at b : 0\norigin y at a : 0\n";

// Whether the row is the one of the node for the destination.
fn is_row(net: &Net, node: NodeId, dest: DestId, row: &str) -> Result<bool, Fail> {
    let (node_name, dest_name) = row.split_once(' ').ok_or("no row")?;
    Ok(node_of(net, node_name)? == node && dest_of(net, dest_name)? == dest)
}

// Whether the walk is this one; any is where the text names none.
fn is_walk(alloc: Global, net: &Net, walk: &[NodeId], text: &str) -> Result<bool, Fail> {
    let expected = path_of(alloc, net, text)?;
    Ok(text == NOTHING || expected.as_slice() == walk)
}

// Whether the finding is the one of the text: `yes`, `no walk: ROW`, `beaten: ROW by WALK` or `open: TAIL HEAD`.
fn is_optimal(alloc: Global, net: &Net, found: &OptimalFinding, text: &str) -> Result<bool, Fail> {
    let (kind, rest) = text.split_once(": ").unwrap_or((text, ""));
    match found {
        OptimalFinding::Yes => Ok(kind == "yes"),
        OptimalFinding::NoWalk { node, dest } => {
            Ok(kind == "no walk" && is_row(net, *node, *dest, rest)?)
        }
        OptimalFinding::Beaten { node, dest, walk } => {
            let (row, by) = rest.split_once(" by ").ok_or("no walk")?;
            Ok(
                kind == "beaten"
                    && is_row(net, *node, *dest, row)?
                    && is_walk(alloc, net, walk.as_slice(), by)?,
            )
        }
        OptimalFinding::Unsettled { arc, .. } => {
            let (tail, head) = rest.split_once(' ').ok_or("no arc")?;
            let expected = net.arc_between(node_of(net, tail)?, node_of(net, head)?);
            Ok(kind == "open" && expected == Some(*arc))
        }
    }
}

// The same of `yes`, `not offered: ROW` or `better: ROW with ROUTE`.
fn is_stable(alloc: Global, net: &Net, found: &StableFinding, text: &str) -> Result<bool, Fail> {
    let (kind, rest) = text.split_once(": ").unwrap_or((text, ""));
    match found {
        StableFinding::Yes => Ok(kind == "yes"),
        StableFinding::NotOffered { node, dest } => {
            Ok(kind == "not offered" && is_row(net, *node, *dest, rest)?)
        }
        StableFinding::Better { node, dest, offer } => {
            let (row, route) = rest.split_once(" with ").ok_or("no offer")?;
            Ok(
                kind == "better"
                    && is_row(net, *node, *dest, row)?
                    && is_route(alloc, net, Some(offer), route)?,
            )
        }
    }
}

// Whether the report is read, and judged to be so.
fn is_judged(
    alloc: Global,
    net: &Net,
    report: &[u8],
    optimal: &str,
    stable: &str,
) -> Result<bool, Fail> {
    if report.len() > MAX_REPORT_BYTES {
        return Err("the report is too long".into());
    }
    let tables = read_report(alloc, net, report)?;
    let algebra = TreeAlgebra::new(net.alg());
    let judgement = judge(alloc, &algebra, net, tables.as_slice())?;
    Ok(
        is_optimal(alloc, net, &judgement.optimal, optimal)?
            && is_stable(alloc, net, &judgement.stable, stable)?,
    )
}

// An expression, the lines of a network and of a report, and what its tables are judged to be.
type Judged = (
    &'static str,
    &'static [u8],
    &'static [u8],
    &'static str,
    &'static str,
);

const JUDGED: &[Judged] = &[
    (
        SHORT_THEN_WIDE,
        SHORT_NET,
        b"a x (3,5) a b c d\nb x (2,6) b c d\nc x (1,6) c d\nd x (0,100) d\n",
        "yes",
        "yes",
    ),
    // A better walk may pass by c, since the label from b to d isn't isotone.
    (
        WIDE_THEN_SHORT,
        WIDE_NET,
        b"a x (5,8) a b d\nb x (10,7) b d\nc x (6,1) c d\nd x (100,0) d\n",
        "open: b d",
        "yes",
    ),
    (
        HOPS,
        BOTH_WAYS,
        b"a x none\nb x 0 b\nquiet 2\n",
        "beaten: a x by a b",
        "better: a x with 3 a b",
    ),
    (
        HOPS,
        BOTH_WAYS,
        b"a x 4 a b\nb x 0 b",
        "no walk: a x",
        "not offered: a x",
    ),
    // Two walks beat the row of b; which is named isn't said.
    (
        SHORT_THEN_WIDE,
        SHORT_NET,
        b"a x (3,5) a b c d\nb x none\nc x (1,6) c d\nd x (0,100) d\n",
        "beaten: b x by -",
        "not offered: a x",
    ),
    // The walk of a is one, but b goes another way.
    (
        WIDE_THEN_SHORT,
        WIDE_NET,
        b"a x (5,3) a b c d\nb x (10,7) b d\nc x (6,1) c d\nd x (100,0) d\n",
        "open: b d",
        "not offered: a x",
    ),
    // There is no arc from a to c.
    (
        WIDE_THEN_SHORT,
        WIDE_NET,
        b"a x (5,3) a c d\nb x (10,7) b d\nc x (6,1) c d\nd x (100,0) d\n",
        "no walk: a x",
        "not offered: a x",
    ),
    // A path that is no walk comes first, also after a row that is beaten.
    (
        HOPS,
        BOTH_WAYS,
        b"a x none\nb x 1 b\n",
        "no walk: b x",
        "better: a x with 4 a b",
    ),
    (
        HOPS,
        BETTER_HOME,
        b"a x 1 a b\nb x 0 b\n",
        "beaten: a x by a",
        "better: a x with 0 a",
    ),
    // Of two walks of one value the other is chosen by its path.
    (
        HOPS,
        DIAMOND,
        b"a x 2 a c d\nb x 1 b d\nc x 1 c d\nd x 0 d\n",
        "yes",
        "better: a x with 2 a b d",
    ),
    // The first destination with a fault is named, for each of the two.
    (
        HOPS,
        TWO_DESTS,
        b"a x 3 a b\r\n\nb x 0 b\n \t\na y 0 a\nb y none\nspent 00000000000000000001\n",
        "yes",
        "yes",
    ),
    (
        HOPS,
        TWO_DESTS,
        b"a x 3 a b\nb x 0 b\na y none\nb y none\n",
        "beaten: a y by a",
        "better: a y with 0 a",
    ),
    (
        HOPS,
        TWO_DESTS,
        b"a x none\nb x 0 b\na y 1 a\nb y none\n",
        "beaten: a x by a b",
        "better: a x with 3 a b",
    ),
];

#[test]
fn tables_are_judged(rt: HostRuntime) -> Result<(), Fail> {
    for (expression, lines, report, optimal, stable) in JUDGED {
        let net = network(rt.alloc(), *expression, *lines)?;
        let is_judged = is_judged(rt.alloc(), &net, *report, *optimal, *stable)?;
        drop(net);
        assert!(rt; is_judged, "{optimal}, {stable}");
    }
    Ok(())
}

// The line and the number of the fault that refuses the report; none where it is read.
fn fault_of(alloc: Global, net: &Net, report: &[u8]) -> Result<Option<(u32, u8)>, Fail> {
    if report.len() > MAX_REPORT_BYTES {
        return Err("the report is too long".into());
    }
    match read_report(alloc, net, report) {
        Ok(_) => Ok(None),
        Err(ReportError::Bad(fault)) => Ok(Some((fault.line, fault.kind.number()))),
        Err(ReportError::NoMemory) => Err("out of memory".into()),
    }
}

// A report over the two nodes a and b with the destination x, and the line and the number of its fault.
type Refused = (&'static [u8], u32, u8);

const REFUSED: &[Refused] = &[
    (b"# so", 1, 1),
    (b"a", 1, 1),
    (b"a x", 1, 1),
    (b"a x 3", 1, 1),
    (b"a x none\nquiet 2\nb x 0 b\n", 2, 1),
    (b"a x none\nb x 0 b\nquiet 2\nquiet 2\n", 4, 1),
    (b"a x none\nb x 0 b\nquiet 2\nb x 0 b\n", 4, 1),
    (b"a x none\nb x 0 b\nquiet\n", 3, 1),
    (b"a x none\nb x 0 b\nquiet 2s\n", 3, 1),
    (b"a x none\nb x 0 b\nquiet 000000000000000000001\n", 3, 1),
    (b"c x none\n", 1, 2),
    (b"a y none\n", 1, 2),
    (b"a x 3 a $\n", 1, 2),
    (b"b x 3 a c\n", 1, 2),
    (b"a x none\na x none", 2, 3),
    (b"b x unit b\n", 1, 3),
    (b"a x none\nb x 0 b\nb x 0 b\n", 3, 3),
    (b"a x unit a\n", 1, 4),
    (b"a x none a\n", 1, 4),
    (b"", 1, 5),
    (b"a x none", 2, 5),
    (b"a x none\n\n", 3, 5),
];

#[test]
fn other_texts_are_refused(rt: HostRuntime) -> Result<(), Fail> {
    let net = network(rt.alloc(), HOPS, BOTH_WAYS)?;
    for (report, line, number) in REFUSED {
        let fault = fault_of(rt.alloc(), &net, *report)?;
        assert!(rt; fault == Some((*line, *number)), "V{number} at line {line}");
    }
    drop(net);
    Ok(())
}

// Whether the row has these next hops, `here` before their names where the node itself is one.
fn is_hops(alloc: Global, net: &Net, found: &ManyHops, text: &str) -> Result<bool, Fail> {
    let (here, heads) = match text.strip_prefix("here ") {
        Some(heads) => (true, heads),
        None => (false, text),
    };
    let expected = path_of(alloc, net, heads)?;
    Ok(found.here == here && expected.as_slice() == found.heads.as_slice())
}

// Whether the rows of the table have these next hops.
fn has_hops(alloc: Global, net: &Net, rows: &str, hops: &str) -> Result<bool, Fail> {
    let table = table_of(alloc, net, rows)?;
    if !is_table_of(net, &table) {
        return Err("no table".into());
    }
    let algebra = TreeAlgebra::new(net.alg());
    let forms = label_forms(alloc, &algebra, net)?;
    let labels = speaker_labels(alloc, &algebra, net, &forms)?;
    let many = best_hops(alloc, &algebra, net, &labels, &table)?;
    let mut place = 0;
    for text in hops.split(" / ") {
        let Some(found) = many.as_slice().get(place) else {
            return Ok(false);
        };
        if found.node.0 as usize != place || !is_hops(alloc, net, found, text)? {
            return Ok(false);
        }
        place += 1;
    }
    Ok(place == many.as_slice().len())
}

// The lines of a network, the rows of a table, and the next hops of each of its nodes.
type Hops = (&'static [u8], &'static str, &'static str);

const ALL_HOPS: &[Hops] = &[
    (
        DIAMOND,
        "2 a b d / 1 b d / 1 c d / 0 d",
        "b c / d / d / here -",
    ),
    (EQUAL_HOME, "1 a / 0 b", "here b / here -"),
    // The own origin is better than the row, and so no next hop.
    (BETTER_HOME, "1 a b / 0 b", "b / here -"),
    // A row without a route has no next hop.
    (BOTH_WAYS, "none / 0 b", "- / here -"),
    (BOTH_WAYS, "3 a b / 0 b", "b / here -"),
];

#[test]
fn equally_good_hops_are_listed(rt: HostRuntime) -> Result<(), Fail> {
    for (lines, rows, hops) in ALL_HOPS {
        let net = network(rt.alloc(), HOPS, *lines)?;
        let has_hops = has_hops(rt.alloc(), &net, *rows, *hops)?;
        drop(net);
        assert!(rt; has_hops, "{rows} has {hops}");
    }
    Ok(())
}
