// Tests of the machine of one thread by single deliveries, on path-vector nodes.
ghost use Rattle.std.specs.Prelude.{◌≡◌, ◌+◌, ◌<◌, OnOk};
ghost use Rattle.node_core.specs.declared.node.TheConstants.{MAX_CLOCK};
ghost use Rattle.node_core.specs.MachineOf.{machine_of, net_of};
ghost use Rattle.node_core.specs.Running.{AreUpTo, IsRunning};

use alg_model::{Algebra, TreeAlgebra};
use meta_base::ArcId;
use net_graph::Net;
use node_core::{Config, MAX_CLOCK, NodeCore};
use std::alloc::Global;
use std::test::Fail;
use testkit_nodes::{are_rows, make_delivery, new_nodes, rows_now};
use testkit_readers::network;

// Whether so many messages wait on the arcs.
fn waits_so<N: NodeCore>(config: &Config<'_, N>, counts: &[usize]) -> bool {
    for id in 0..config.net().arc_count() {
        if id >= counts.len() || config.waiting(ArcId(id as u32)) != counts[id] {
            return false;
        }
    }
    counts.len() == config.net().arc_count()
}

// A delivery: its arc, the clock that it gives, or none where nothing waits there, and how many messages wait on each
// arc then.
#[derive(Drop)]
struct Step {
    arc: ArcId,
    clock: Option<u64>,
    counts: Vec<usize>,
}

// The numbers of a text.
fn counts_of(alloc: Global, text: &str) -> Result<Vec<usize>, Fail> {
    let mut counts = Vec::new(alloc);
    for word in text.split_whitespace() {
        counts.push(word.parse()?)?;
    }
    Ok(counts)
}

// The delivery of a text, as `3 at 1: 0 1 1 0`, or `3 empty: 0 1 1 0`.
fn step_of(alloc: Global, text: &str) -> Result<Step, Fail> {
    let (delivery, counts) = text.split_once(": ").ok_or("no counts")?;
    let counts = counts_of(alloc, counts)?;
    let (arc, clock) = match delivery.split_once(" at ") {
        Some((arc, clock)) => (arc, Some(clock.parse()?)),
        None => (delivery.strip_suffix(" empty").ok_or("no clock")?, None),
    };
    Ok(Step {
        arc: ArcId(arc.parse()?),
        clock,
        counts,
    })
}

fn steps_of(alloc: Global, text: &str) -> Result<Vec<Step>, Fail> {
    let mut steps = Vec::new(alloc);
    for step in text.split(" / ") {
        steps.push(step_of(alloc, step)?)?;
    }
    Ok(steps)
}

// Makes the delivery, after so many others. Whether it is as the step says.
fn makes_step<N: NodeCore>(config: &mut Config<'_, N>, step: &Step, made: u64) -> Result<bool, Fail>
    requires running { IsRunning N.kind (net_of config.old) (machine_of N.state N.note config.old) }
    requires begun { AreUpTo N.kind (machine_of N.state N.note config.old) made }
    requires early { made < MAX_CLOCK }
    ensures running { OnOk result (IsRunning N.kind (net_of config.new) (machine_of N.state N.note config.new)) }
    ensures begun { OnOk result (AreUpTo N.kind (machine_of N.state N.note config.new) (made + 1)) }
{
    let clock = make_delivery(config, step.arc, made)?;
    Ok(clock == step.clock && waits_so(config, &step.counts))
}

// Makes deliveries one after another. Whether each is as its step says.
fn makes_steps<N: NodeCore>(config: &mut Config<'_, N>, steps: &[Step]) -> Result<bool, Fail>
    requires running { IsRunning N.kind (net_of config.old) (machine_of N.state N.note config.old) }
    requires begun { AreUpTo N.kind (machine_of N.state N.note config.old) 0 }
    ensures { OnOk result (IsRunning N.kind (net_of config.new) (machine_of N.state N.note config.new)) }
{
    let mut made = 0;
    for step in steps {
        if made >= MAX_CLOCK {
            return Err("too many deliveries".into());
        }
        if !makes_step(config, step, made)? {
            return Ok(false);
        }
        made += 1;
    }
    Ok(true)
}

// Whether the new nodes send so many messages when they begin, the deliveries are as stated, and the rows are these in
// the end.
fn delivers<A: Algebra>(
    alloc: Global,
    algebra: &A,
    net: &Net,
    counts: &[usize],
    steps: &[Step],
    rows: &str,
) -> Result<bool, Fail>
    requires { A.expression algebra.now ≡ net.now.alg.expression }
{
    let nodes = new_nodes(alloc, algebra, net)?;
    let mut config = Config::start(alloc, net, nodes)?;
    if !waits_so(&config, counts) || !makes_steps(&mut config, steps)? {
        return Ok(false);
    }
    let found = rows_now(alloc, &config)?;
    are_rows(alloc, net, found.as_slice(), rows)
}

// The same for the texts of a case.
fn delivers_on(alloc: Global, net: &Net, deliveries: &str, rows: &str) -> Result<bool, Fail> {
    let (counts, steps) = deliveries.split_once(" / ").ok_or("no deliveries")?;
    let counts = counts_of(alloc, counts)?;
    let steps = steps_of(alloc, steps)?;
    delivers(
        alloc,
        &TreeAlgebra::new(net.alg()),
        net,
        &counts,
        &steps,
        rows,
    )
}

// The same over the network of these lines.
fn delivers_over(
    alloc: Global,
    expression: &str,
    lines: &[u8],
    deliveries: &str,
    rows: &str,
) -> Result<bool, Fail> {
    let net = network(alloc, expression, lines)?;
    let answer = delivers_on(alloc, &net, deliveries, rows);
    drop(net);
    answer
}

const HOPS: &str = "add(1..9)";

const PAIR: &[u8] = b"node a b\nboth a b : 3\norigin x at b : 0\n";

// Two ways from a to d that are equally good.
const DIAMOND: &[u8] =
    b"node a b c d\nlink a b : 1\nlink a c : 1\nlink b d : 1\nlink c d : 1\norigin x at d : 0\n";

// c has values for two destinations.
const LINE: &[u8] =
    b"node a b c\nlink a b : 1\nlink b c : 1\norigin x at c : 0\norigin y at c : 5\n";

// p likes the way by q best, and then r may not route by it.
const CHOOSY: &str = "table { o < a < d; D: o -> d; N: d -> a; K: d -> d }";

const LOSS: &[u8] = b"node z p q r s
link p z : D
link q z : D
link p q : N
link r p : K
link s r : K
origin x at z : o
";

// An expression, the lines of a network, how many messages its nodes send on each arc when they begin, with the
// deliveries that are made then, and the rows in the end.
type Machine = (&'static str, &'static [u8], &'static str, &'static str);

const MACHINES: &[Machine] = &[
    (
        HOPS,
        PAIR,
        "1 0 / 0 at 1: 0 1 / 0 empty: 0 1 / 1 at 2: 0 0",
        "3 a b / 0 b",
    ),
    (HOPS, PAIR, "1 0 / 1 empty: 1 0", "none / 0 b"),
    // a hears of the way by c first.
    (
        HOPS,
        DIAMOND,
        "0 0 1 1 / 3 at 1: 0 1 1 0 / 1 at 2: 0 0 1 0 / 2 at 1: 1 0 0 0 / 0 at 3: 0 0 0 0",
        "2 a b d / 1 b d / 1 c d / 0 d",
    ),
    // What was sent first is taken first.
    (
        HOPS,
        LINE,
        "0 2 / 1 at 1: 1 1",
        "none / 1 b c / 0 c / none / none / 5 c",
    ),
    (
        HOPS,
        LINE,
        "0 2 / 1 at 1: 1 1 / 1 at 2: 2 0 / 0 at 2: 1 0 / 0 at 3: 0 0",
        "2 a b c / 1 b c / 0 c / 7 a b c / 6 b c / 5 c",
    ),
    // r and s have a route, and lose it when p finds a better one.
    (
        CHOOSY,
        LOSS,
        "1 1 0 0 0 / 0 at 1: 0 1 0 1 0 / 3 at 2: 0 1 0 0 1 / 4 at 3: 0 1 0 0 0 / 1 at 1: 0 0 1 0 0",
        "o z / d p z / d q z / d r p z / d s r p z",
    ),
    (
        CHOOSY,
        LOSS,
        "1 1 0 0 0 / 0 at 1: 0 1 0 1 0 / 3 at 2: 0 1 0 0 1 / 4 at 3: 0 1 0 0 0 / 1 at 1: 0 0 1 0 0 / \
            2 at 2: 0 0 0 1 0 / 3 at 3: 0 0 0 0 1 / 4 at 4: 0 0 0 0 0",
        "o z / a p q z / d q z / none / none",
    ),
    // Nothing is sent of no destination.
    (HOPS, b"node a b\nlink a b : 1\n", "0 / 0 empty: 0", ""),
];

#[test]
fn deliveries_are_made(rt: HostRuntime) -> Result<(), Fail> {
    for (expression, lines, deliveries, rows) in MACHINES {
        let are_right = delivers_over(rt.alloc(), *expression, *lines, *deliveries, *rows)?;
        assert!(rt; are_right, "{deliveries}");
    }
    Ok(())
}

// Another clock, a message that is said not to wait, other counts of messages in the end and at the beginning, and
// another row.
const OTHER_MACHINES: &[Machine] = &[
    (HOPS, PAIR, "1 0 / 0 at 2: 0 1", "3 a b / 0 b"),
    (HOPS, PAIR, "1 0 / 0 empty: 0 1", "3 a b / 0 b"),
    (HOPS, PAIR, "1 0 / 0 at 1: 0 0", "3 a b / 0 b"),
    (HOPS, PAIR, "1 0 / 0 at 1: 0", "3 a b / 0 b"),
    (HOPS, PAIR, "1 0 / 0 at 1: 0 1 0", "3 a b / 0 b"),
    (HOPS, PAIR, "1 1 / 0 at 1: 0 1", "3 a b / 0 b"),
    (HOPS, PAIR, "1 0 / 0 at 1: 0 1", "none / 0 b"),
];

#[test]
fn other_deliveries_are_reported_apart(rt: HostRuntime) -> Result<(), Fail> {
    for (expression, lines, deliveries, rows) in OTHER_MACHINES {
        let are_right = delivers_over(rt.alloc(), *expression, *lines, *deliveries, *rows)?;
        assert!(rt; !are_right, "{deliveries}");
    }
    Ok(())
}
