// Tests of distance-vector nodes on the machine of one thread.
ghost use Rattle.std.specs.Prelude.{◌≡◌, Some, OnOk};
ghost use Rattle.arc_labels.specs.Neighbours.{AreSpeakerLabels};
ghost use Rattle.node_core.specs.MachineOf.{machine_of, net_of};
ghost use Rattle.node_core.specs.Running.{AreUpTo, IsRunning};
ghost use Rattle.distance_node.specs.Node.{distance};
ghost use Rattle.distance_node.specs.Nodes.{state_of};

use alg_model::{Algebra, TreeAlgebra};
use arc_labels::{NeighbourLabels, label_forms, speaker_labels};
use distance_node::{DvNode, HopRow, Mark, hop_rows, new_nodes};
use meta_base::{ArcId, List, NoMemory};
use net_graph::Net;
use node_core::{Config, MAX_CLOCK, NodeCore};
use std::alloc::Global;
use std::marker::Brand;
use std::rt::HostRuntime;
use std::test::Fail;
use testkit_nodes::{NOTHING, is_value, make_delivery, node_of};
use testkit_readers::network;

// Whether so many messages wait on the arcs.
fn waits_so<N: NodeCore>(config: &Config<'_, N>, counts: &str) -> Result<bool, Fail> {
    let mut id = 0;
    for count in counts.split_whitespace() {
        if id >= config.net().arc_count() {
            return Ok(false);
        }
        if config.waiting(ArcId(id as u32)) != count.parse()? {
            return Ok(false);
        }
        id += 1;
    }
    Ok(id == config.net().arc_count())
}

// Makes the deliveries on these arcs, one after another. Whether there was a message for each.
fn deliver_on<N: NodeCore>(config: &mut Config<'_, N>, arcs: &str) -> Result<bool, Fail>
    requires running { IsRunning N.kind (net_of config.old) (machine_of N.state N.note config.old) }
    requires begun { AreUpTo N.kind (machine_of N.state N.note config.old) 0 }
    ensures { OnOk result (IsRunning N.kind (net_of config.new) (machine_of N.state N.note config.new)) }
{
    let mut made = 0;
    for arc in arcs.split_whitespace() {
        if made >= MAX_CLOCK {
            return Err("too many deliveries".into());
        }
        if make_delivery(config, ArcId(arc.parse()?), made)?.is_none() {
            return Ok(false);
        }
        made += 1;
    }
    Ok(true)
}

// The rows of the machine's nodes as they are now.
fn rows_now<A: Algebra, M: Mark<A>>(
    alloc: Global,
    config: &Config<'_, DvNode<'_, A, M>>,
) -> Result<List<HopRow>, NoMemory>
    requires { IsRunning distance (net_of config.now) (machine_of state_of (λ m. m) config.now) }
{
    hop_rows(alloc, config.nodes())
}

// Whether the row has the value and the next hop that the text says.
fn is_hop(alloc: Global, net: &Net, row: &HopRow, text: &str) -> Result<bool, Fail> {
    let Some((value, way)) = text.split_once(' ') else {
        return Ok(row.next.is_none() && is_value(alloc, net, row.value.as_ref(), text)?);
    };
    let next = match way.strip_prefix("via ") {
        Some(name) => Some(node_of(net, name)?),
        None => None,
    };
    Ok(row.next == next && is_value(alloc, net, row.value.as_ref(), value)?)
}

// Whether the row is the one at that place of all rows.
fn stands_at(row: &HopRow, net: &Net, place: usize) -> bool {
    let count = net.node_count();
    count > 0 && row.node.0 as usize == place % count && row.dest.0 as usize == place / count
}

// Whether the rows are all those of the text.
fn are_hops(alloc: Global, net: &Net, found: &[HopRow], rows: &str) -> Result<bool, Fail> {
    if rows == NOTHING {
        return Ok(found.is_empty());
    }
    let mut place = 0;
    for row in rows.split(" / ") {
        if place >= found.len() {
            return Ok(false);
        }
        let next = &found[place];
        if !stands_at(next, net, place) || !is_hop(alloc, net, next, row)? {
            return Ok(false);
        }
        place += 1;
    }
    Ok(place == found.len())
}

// Whether no row has a value or a next hop.
fn are_empty(rows: &[HopRow]) -> bool {
    for row in rows {
        if row.value.is_some() || row.next.is_some() {
            return false;
        }
    }
    true
}

// An expression, the lines of a network, and the arcs of deliveries, one after another; how many messages wait on each
// arc then, and the rows: a value `here` or `via` the next hop, by destination, then node.
type Case = (
    &'static str,
    &'static [u8],
    &'static str,
    &'static str,
    &'static str,
);

const HOPS: &str = "add(1..9)";

// By b and by c a reaches d, and s listens to a.
const HUB: &[u8] = b"node a b c d s
link a b : 1
link a c : 1
link b d : 1
link c d : 1
link s a : 1
origin x at d : 0
";

const LOADS: &str = "lex(add(1..10), width(100; 0..100))";

// Two ways from b to d, of which the longer is the better.
const WAYS: &[u8] = b"node a b c d
link b d : (7,10)
link c d : (1,6)
link b c : (1,6)
link a b : (1,5)
origin x at d : (0,100)
";

// The label `lesser` prohibits the better value.
const METALS: &str =
    "table { gold < silver; same: gold -> gold, silver -> silver; plain: gold -> silver, silver -> silver; lesser: silver -> silver }";

const CASES: &[Case] = &[
    // The start: each origin's row is sent, on each arc that its node speaks on.
    (
        HOPS,
        HUB,
        "",
        "0 0 1 1 0",
        "none / none / none / 0 here / none",
    ),
    // A message, and what is sent on.
    (
        HOPS,
        HUB,
        "3",
        "0 1 1 0 0",
        "none / none / 1 via d / 0 here / none",
    ),
    // Of equal offers the first in file order counts, whichever came first. A next hop that changes alone isn't sent.
    (
        HOPS,
        HUB,
        "3 1 2",
        "1 0 0 0 1",
        "2 via c / 1 via d / 1 via d / 0 here / none",
    ),
    (
        HOPS,
        HUB,
        "3 1 2 0",
        "0 0 0 0 1",
        "2 via b / 1 via d / 1 via d / 0 here / none",
    ),
    (
        HOPS,
        HUB,
        "2 0 3 1 4",
        "0 0 0 0 0",
        "2 via b / 1 via d / 1 via d / 0 here / 3 via a",
    ),
    // The own origin stands before an equal offer.
    (
        HOPS,
        b"node a b\nboth a b : 1\norigin x at a : 2\norigin x at b : 1\n",
        "0 1",
        "0 0",
        "2 here / 1 here",
    ),
    // By destination, then node.
    (
        HOPS,
        b"node a b\nboth a b : 3\norigin x at b : 0\norigin y at a : 2\n",
        "0 1 0 1",
        "0 0",
        "3 via b / 0 here / 2 here / 5 via a",
    ),
    (HOPS, b"node a b\nboth a b : 3\n", "", "0 0", "-"),
    // A better value later.
    (
        LOADS,
        WAYS,
        "0 3",
        "0 1 0 0",
        "(8,5) via b / (7,10) via d / none / (0,100) here",
    ),
    (
        LOADS,
        WAYS,
        "0 3 1 2 3",
        "0 0 0 0",
        "(3,5) via b / (2,6) via c / (1,6) via d / (0,100) here",
    ),
    // A value that is withdrawn where a better one may not pass, and so on to the next node.
    (
        METALS,
        b"node z a b c d\nlink z a : same\nlink a b : lesser\nlink b c : same\nlink b d : plain\norigin x at c : gold\norigin x at d : gold\n",
        "3 1 0",
        "0 0 1 0",
        "silver via a / silver via b / silver via d / gold here / gold here",
    ),
    (
        METALS,
        b"node z a b c d\nlink z a : same\nlink a b : lesser\nlink b c : same\nlink b d : plain\norigin x at c : gold\norigin x at d : gold\n",
        "3 1 0 2 1 0",
        "0 0 0 0",
        "none / none / gold via c / gold here / gold here",
    ),
    // Where another neighbour offers an equal value in its place, the next hop changes alone.
    (
        METALS,
        b"node z a b c d\nlink z a : same\nlink a b : lesser\nlink a d : plain\nlink b c : same\nlink b d : plain\norigin x at c : gold\norigin x at d : gold\n",
        "4 2 1 3 1",
        "1 0 0 0 0",
        "none / silver via d / gold via c / gold here / gold here",
    ),
];

// Whether new nodes have no rows, and their machine comes to what the case says.
fn comes_to<A: Algebra, M: Mark<A>>(
    alloc: Global,
    algebra: &A,
    net: &Net,
    labels: &NeighbourLabels<'_, A::Lab>,
    case: &Case,
) -> Result<bool, Fail>
    requires mark { M.algebra ≡ Some algebra.now }
    requires algebra { A.expression algebra.now ≡ net.now.alg.expression }
    requires labels { AreSpeakerLabels (A.stands_for algebra.now) net.now labels.now }
{
    let nodes = new_nodes::<A, M>(alloc, algebra, net, labels)?;
    if !are_empty(hop_rows(alloc, nodes.as_slice())?.as_slice()) {
        return Ok(false);
    }
    let mut config = Config::start(alloc, net, nodes)?;
    if !deliver_on(&mut config, case.2)? || !waits_so(&config, case.3)? {
        return Ok(false);
    }
    let rows = rows_now(alloc, &config)?;
    are_hops(alloc, net, rows.as_slice(), case.4)
}

// The same over an algebra that is the network's.
fn comes_over<A: Algebra>(alloc: Global, algebra: &A, net: &Net, case: &Case) -> Result<bool, Fail>
    requires { A.expression algebra.now ≡ net.now.alg.expression }
{
    let forms = label_forms(alloc, algebra, net)?;
    let labels = speaker_labels(alloc, algebra, net, &forms)?;
    comes_to::<A, Brand>(alloc, algebra, net, &labels, case)
}

fn comes_on(alloc: Global, net: &Net, case: &Case) -> Result<bool, Fail> {
    comes_over(alloc, &TreeAlgebra::new(net.alg()), net, case)
}

fn comes_so(alloc: Global, case: &Case) -> Result<bool, Fail> {
    let net = network(alloc, case.0, case.1)?;
    comes_on(alloc, &net, case)
}

#[test]
fn nodes_come_to_their_rows(rt: HostRuntime) -> Result<(), Fail> {
    for case in CASES {
        if !comes_so(rt.alloc(), case)? {
            return Err(case.4.into());
        }
    }
    Ok(())
}
