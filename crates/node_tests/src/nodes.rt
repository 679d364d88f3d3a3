// Tests of path-vector nodes by single messages, also such as no node sends.
ghost use Rattle.std.specs.Prelude.{◌≡◌, false};

use alg_model::{Algebra, TreeAlgebra};
use meta_base::{ArcId, List, NodeId};
use net_graph::{Net, Route, RouteRow};
use node_core::{MAX_CLOCK, NodeCore, Outgoing};
use path_vector::{NodePath, PvNode, Shared, SharedRoute, Update, rows_of};
use std::alloc::Global;
use std::test::Fail;
use testkit_nodes::{NOTHING, dest_of, is_route, node_of, route_of};
use testkit_readers::network;

// Begins the node and hands it the messages one after another, each with the next clock. What it sent last.
fn sent_last<N: NodeCore>(
    alloc: Global,
    node: &mut N,
    net: &Net,
    number: NodeId,
    heard: &[(ArcId, N::Message)],
) -> Result<Outgoing<N::Message>, Fail>
    requires net { N.kind.net (N.state node.old) ≡ net.now }
    requires number { N.kind.number (N.state node.old) ≡ number.0 }
    requires unbegun { N.kind.is_begun (N.state node.old) ≡ false }
{
    let mut out = List::new(alloc);
    node.on_start(&mut out)?;
    let mut clock = 0;
    for (arc, message) in heard {
        if clock == MAX_CLOCK || arc.0 as usize >= net.arc_count() || net.arc(*arc).tail != number {
            return Err("the node doesn't hear this".into());
        }
        clock += 1;
        if N::stamp(message) >= clock {
            return Err("the message is sent too late".into());
        }
        out = List::new(alloc);
        node.on_message(*arc, message, clock, &mut out)?;
    }
    Ok(out)
}

// The route as nodes tell it.
fn reported_of(
    alloc: Global,
    net: &Net,
    route: Option<Route>,
) -> Result<Option<Shared<SharedRoute>>, Fail> {
    let Some(Route { value, path }) = route else {
        return Ok(None);
    };
    let path = Shared::new(alloc, NodePath::new(path, net.node_count()))?;
    Ok(Some(Shared::new(alloc, SharedRoute { value, path })?))
}

// The route that was reported.
fn heard_of(alloc: Global, reported: &Option<Shared<SharedRoute>>) -> Result<Option<Route>, Fail> {
    let Some(reported) = reported else {
        return Ok(None);
    };
    let mut path = List::new(alloc);
    for node in reported.get().path.as_slice() {
        path.push(*node)?;
    }
    let value = reported.get().value.copy(alloc)?;
    Ok(Some(Route { value, path }))
}

// An update that was sent at the start, and the arc that it comes on: the text has the number of that, the destination,
// and the row that is reported.
fn update_of(alloc: Global, net: &Net, text: &str) -> Result<(ArcId, Update), Fail> {
    let (arc, rest) = text.split_once(' ').ok_or("no destination")?;
    let (dest, row) = rest.split_once(' ').ok_or("no row")?;
    let arc = ArcId(arc.parse()?);
    let dest = dest_of(net, dest)?;
    let route = reported_of(alloc, net, route_of(alloc, net, row)?)?;
    Ok((
        arc,
        Update {
            dest,
            route,
            stamp: 0,
        },
    ))
}

// The updates of a text, in order.
fn updates_of(alloc: Global, net: &Net, text: &str) -> Result<Vec<(ArcId, Update)>, Fail> {
    let mut updates = Vec::new(alloc);
    if text == NOTHING {
        return Ok(updates);
    }
    for update in text.split(", ") {
        updates.push(update_of(alloc, net, update)?)?;
    }
    Ok(updates)
}

// Whether the update tells the row of the first destination, at that clock.
fn reports(alloc: Global, net: &Net, update: &Update, row: &str, clock: u64) -> Result<bool, Fail> {
    if update.dest.0 != 0 || update.stamp != clock {
        return Ok(false);
    }
    let route = heard_of(alloc, &update.route)?;
    is_route(alloc, net, route.as_ref(), row)
}

// Whether the first destination's row was sent on these arcs at that clock.
fn is_sent(
    alloc: Global,
    net: &Net,
    sent: &[(ArcId, Update)],
    row: &str,
    clock: u64,
    arcs: &str,
) -> Result<bool, Fail> {
    if arcs == NOTHING {
        return Ok(sent.is_empty());
    }
    let mut place = 0;
    for arc in arcs.split_whitespace() {
        if place >= sent.len() {
            return Ok(false);
        }
        let (on, update) = &sent[place];
        if on.0 != arc.parse()? || !reports(alloc, net, update, row, clock)? {
            return Ok(false);
        }
        place += 1;
    }
    Ok(place == sent.len())
}

// Whether the node's first row is this one.
fn has_row(
    alloc: Global,
    net: &Net,
    rows: &[RouteRow],
    node: NodeId,
    row: &str,
) -> Result<bool, Fail> {
    match rows {
        [first, ..] if first.node == node && first.dest.0 == 0 => {
            is_route(alloc, net, first.route.as_ref(), row)
        }
        _ => Ok(false),
    }
}

// Whether the new node has that row once it heard the updates, and sends it then on these arcs.
fn answers<A: Algebra>(
    alloc: Global,
    algebra: &A,
    net: &Net,
    number: NodeId,
    updates: &[(ArcId, Update)],
    row: &str,
    arcs: &str,
) -> Result<bool, Fail>
    requires { A.expression algebra.now ≡ net.now.alg.expression }
{
    if number.0 as usize >= net.node_count() {
        return Err("there is no such node".into());
    }
    let mut node = PvNode::new(alloc, algebra, net, number)?;
    let sent = sent_last(alloc, &mut node, net, number, updates)?;
    let mut nodes = Vec::with_capacity(alloc, 1)?;
    nodes.push(node)?;
    let rows = rows_of(alloc, &nodes)?;
    let clock = updates.len() as u64;
    Ok(
        has_row(alloc, net, rows.as_slice(), number, row)?
            && is_sent(alloc, net, sent.as_slice(), row, clock, arcs)?,
    )
}

// The same for the texts of a case.
fn answers_case(alloc: Global, net: &Net, case: &str) -> Result<bool, Fail> {
    let (node, rest) = case.split_once(" | ").ok_or("no updates")?;
    let (heard, rest) = rest.split_once(" | ").ok_or("no row")?;
    let (row, arcs) = rest.split_once(" | ").ok_or("no arcs")?;
    let updates = updates_of(alloc, net, heard)?;
    let algebra = TreeAlgebra::new(net.alg());
    answers(
        alloc,
        &algebra,
        net,
        node_of(net, node)?,
        &updates,
        row,
        arcs,
    )
}

// The same over the network of these lines.
fn answers_over(alloc: Global, expression: &str, lines: &[u8], case: &str) -> Result<bool, Fail> {
    let net = network(alloc, expression, lines)?;
    let answer = answers_case(alloc, &net, case);
    drop(net);
    answer
}

const HOPS: &str = "add(1..9)";

// By b and by c a reaches d, and s listens to a.
const HUB: &[u8] = b"node a b c d s
link a b : 1
link a c : 1
link b d : 1
link c d : 1
link s a : 1
origin x at d : 0
";

// a and b have values of their own, and hear each other.
const HOMES: &[u8] = b"node a b\nboth a b : 1\norigin x at a : 2\norigin x at b : 0\n";

// No sum is above 3.
const CAPPED: &[u8] = b"node a b c\nboth a b : 1\nlink b c : 1\norigin x at c : 1\n";

const DENIED: &[u8] = b"node a b\nlink a b : deny\norigin x at b : unit\n";

// An expression, the lines of a network, and cases of its nodes, one a line: a new node, what it hears in turn,
// its row for the first destination in the end, and the arcs on which it tells that then.
type Cases = (&'static str, &'static [u8], &'static str);

const CASES: &[Cases] = &[
    // A node begins with its own value, and tells what changed, but nothing else.
    (
        HOPS,
        HUB,
        "d | - | 0 d | 2 3
a | - | none | -
a | 0 x 1 b d | 2 a b d | 4
a | 0 x none | none | -
a | 0 x 1 b d, 0 x 1 b d | 2 a b d | -
a | 0 x 1 b d, 0 x none | none | 4",
    ),
    // It doesn't keep a route that got worse.
    (
        HOPS,
        HUB,
        "a | 0 x 1 b d, 0 x 5 b d | 6 a b d | 4
a | 0 x 1 b d, 1 x 2 c d, 0 x none | 3 a c d | 4",
    ),
    // Ties are broken by paths, whichever came first.
    (
        HOPS,
        HUB,
        "a | 0 x 1 b d, 1 x 1 c d | 2 a b d | -
a | 1 x 1 c d, 0 x 1 b d | 2 a b d | 4
a | 0 x 1 b s d, 1 x 1 c d | 2 a c d | 4",
    ),
    // What passes the node itself is heard, and is no offer.
    (
        HOPS,
        HUB,
        "a | 0 x 2 b a d | none | -
a | 0 x 1 b d, 0 x 2 b a d | none | 4",
    ),
    // Its own value is an offer like the others.
    (
        HOPS,
        HOMES,
        "a | - | 2 a | 1
a | 0 x 0 b | 1 a b | 1
a | 0 x 1 b | 2 a | -
a | 0 x 0 b, 0 x 2 b | 2 a | 1",
    ),
    // A label may prohibit what is reported.
    ("gate", DENIED, "a | 0 x unit b | none | -"),
    (
        "cap(3; 1..1)",
        CAPPED,
        "a | 0 x 2 b c, 0 x 3 b c | none | 1",
    ),
    // No node sends these: a path from another node than the speaker, one from none, one with a node twice, one
    // through a node that the network hasn't, and destinations that it hasn't.
    (
        HOPS,
        HUB,
        "a | 0 x 1 b d, 0 x 0 c d | 2 a b d | -
a | 0 x 1 b d, 0 x 0 - | 2 a b d | -
a | 0 x 1 b d, 0 x 0 b d b | 2 a b d | -
a | 0 x 1 b d, 0 x 0 b 5 | 2 a b d | -
a | 0 x 1 b d, 0 1 0 b d | 2 a b d | -
a | 0 x 1 b d, 0 1 none | 2 a b d | -",
    ),
    // Nor these: values that aren't the algebra's, and numbers that are too great for their paths.
    (
        "cap(3; 1..1)",
        CAPPED,
        "a | 0 x 2 b c, 0 x 4 b c | 3 a b c | -
a | 0 x 4 b c | none | -",
    ),
    (
        HOPS,
        HUB,
        "a | 0 x 1 b d, 0 x 4294967296 b | 4294967297 a b | 4
a | 0 x 1 b d, 0 x 4294967297 b | 2 a b d | -
a | 0 x 1 b d, 0 x 8589934592 b d | 8589934593 a b d | 4
a | 0 x 1 b d, 0 x 8589934593 b d | 2 a b d | -",
    ),
    // What was heard before is still known after such an update.
    (
        HOPS,
        HUB,
        "a | 0 x 1 b d, 0 x 0 c d, 1 x 5 c d | 2 a b d | -
a | 0 x 5 b d, 1 x 2 c d, 0 x 0 c d, 1 x none | 6 a b d | 4",
    ),
];

#[test]
fn nodes_answer(rt: HostRuntime) -> Result<(), Fail> {
    for (expression, lines, cases) in CASES {
        for case in cases.lines() {
            assert!(rt;
                answers_over(rt.alloc(), *expression, *lines, case)?,
                "{case}"
            );
        }
    }
    Ok(())
}

// Another row, an arc too few, one too many, arcs in another order, and a row that is reported or not.
const OTHER_CASES: &str = "d | - | 1 d | 2 3
d | - | 0 d | 2
d | - | 0 d | 2 3 4
d | - | 0 d | 3 2
d | - | 0 d | -
a | - | none | 4";

// The cases, in a call, so that no proof looks into them.
fn other_cases() -> &'static str {
    OTHER_CASES
}

#[test]
fn other_answers_are_reported_apart(rt: HostRuntime) -> Result<(), Fail> {
    for case in other_cases().lines() {
        assert!(rt; !answers_over(rt.alloc(), HOPS, HUB, case)?, "{case}");
    }
    Ok(())
}
