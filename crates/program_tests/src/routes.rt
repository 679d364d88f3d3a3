// Tests of `route`: rows whose values are worked out by hand, labels that forbid it, and a plain program that relaxes
// values along arcs until none changes.
use crate::program::{BAD_GADGET, CUSTOMERS, ended_with, is_missing, run_on};
use meta_base::NoMemory;
use std::alloc::{AllocGlobal, Global};
use std::fmt::Write;
use std::str;
use std::sync::Wait;
use std::test::Fail;
use std::thread::Threads;

// Two ways from a to d that are equally good: the one by the smaller node number is taken.
const DIAMOND: &[u8] =
    b"node a b c d\nlink a b : 1\nlink a c : 1\nlink b d : 1\nlink c d : 1\norigin x at d : 0\n";

const DIAMOND_ROUTES: &[u8] = b"a x 2 a b d\nb x 1 b d\nc x 1 c d\nd x 0 d\n";

// Two ways from a to c that are equally good: the shorter one is taken. From d there is none.
const TRIANGLE: &[u8] =
    b"node a b c d\nlink a b : 1\nlink b c : 1\nlink a c : 2\norigin x at c : 0\n";

const TRIANGLE_ROUTES: &[u8] = b"a x 2 a c\nb x 1 b c\nc x 0 c\nd x none\n";

// An arc each way. From c there is none.
const BOTH_WAYS: &[u8] = b"node a b c\nboth a b : 3\norigin x at b : 0\n";

const BOTH_WAYS_ROUTES: &[u8] = b"a x 3 a b\nb x 0 b\nc x none\n";

// Routes are those of the network after all its changes.
pub(crate) const CHANGED: &[u8] = b"node a b c
link a b : 1
link b c : 1
link a c : 5
origin x at c : 0
then link a b : 9
then drop a c
";

const CHANGED_ROUTES: &[u8] = b"a x 10 a b c\nb x 1 b c\nc x 0 c\n";

const SHORTEST: &[u8] = b"main add(1..10);";

pub(crate) const SHORT_THEN_WIDE: &[u8] = b"main lex(add(1..10), width(100; 0..100));";

const WIDE_THEN_SHORT: &[u8] = b"main lex(width(100; 0..100), add(1..10));";

// The short way is the wide one's, by three arcs.
pub(crate) const THREE_ARCS: &[u8] = b"node a b c d
link b d : (7,10)
link c d : (1,6)
link b c : (1,6)
link a b : (1,5)
origin x at d : (0,100)
";

const THREE_ARCS_ROUTES: &[u8] =
    b"a x (3,5) a b c d\nb x (2,6) b c d\nc x (1,6) c d\nd x (0,100) d\n";

// All values are equivalent, so the fewest nodes decide, and then the next hop's number.
const TIES: &[u8] = b"node a b c d e
link a c : allow
link a b : allow
link b d : allow
link c d : allow
link e a : allow
link e b : allow
origin x at d : unit
";

const TIES_ROUTES: &[u8] =
    b"a x unit a b d\nb x unit b d\nc x unit c d\nd x unit d\ne x unit e b d\n";

// The labels on these arcs are fit, though others of the algebra aren't.
pub(crate) const FULL_WIDTH: &[u8] = b"node a b\nlink a b : (100,1)\norigin x at b : (7,0)\n";

const FULL_WIDTH_ROUTES: &[u8] = b"a x (7,1) a b\nb x (7,0) b\n";

#[test]
fn routes_are_found(rt: HostRuntime) -> Result<(), Fail> {
    let cases: &[(&[u8], &[u8], &[u8])] = &[
        (SHORTEST, DIAMOND, DIAMOND_ROUTES),
        (SHORTEST, TRIANGLE, TRIANGLE_ROUTES),
        (SHORTEST, BOTH_WAYS, BOTH_WAYS_ROUTES),
        (SHORTEST, CHANGED, CHANGED_ROUTES),
        (SHORTEST, b"node a\norigin x at a : 0\n", b"a x 0 a\n"),
        (SHORTEST, b"", b""),
        (SHORT_THEN_WIDE, THREE_ARCS, THREE_ARCS_ROUTES),
        (b"main gate;", TIES, TIES_ROUTES),
        (WIDE_THEN_SHORT, FULL_WIDTH, FULL_WIDTH_ROUTES),
    ];
    for (file, net, routes) in cases {
        for workers in ["1", "2", "16"] {
            let words = ["route", "--workers", workers, "f", "n"];
            assert!(rt; ended_with(run_on(&rt, &words, *file, *net)?, *routes, 0));
        }
    }
    Ok(())
}

// In profile 2 a label may be as great as a word of 64 bits, and sums pass it.
pub(crate) const WIDE_SUMS: &[u8] = b"raml 2; main add(1..18446744073709551615);";

pub(crate) const WIDE: &[u8] = b"node a b c
link a b : 18446744073709551615
link b c : 18446744073709551615
origin x at c : 18446744073709551615
";

const WIDE_ROUTES: &[u8] = b"a x 55340232221128654845 a b c
b x 36893488147419103230 b c
c x 18446744073709551615 c
";

#[test]
fn sums_pass_a_word(rt: HostRuntime) -> Result<(), Fail> {
    let outcome = run_on(&rt, &["route", "f", "n"], WIDE_SUMS, WIDE)?;
    assert!(rt; ended_with(outcome, WIDE_ROUTES, 0));
    Ok(())
}

const PROVIDERS: &[u8] = b"node u v w\nlink u v : (P,1)\nlink v w : (C,1)\norigin x at w : (c,0)\n";

const LATE_PROVIDER: &[u8] =
    b"node u v w\nlink v w : (C,1)\norigin x at w : (c,0)\nthen link u v : (P,1)\n";

const NARROW: &[u8] = b"node a b c d
link b d : (10,7)
link c d : (6,1)
origin x at d : (100,0)
";

const GADGET: &[u8] = b"node z p q
link p z : D
link p q : N
link q z : D
link q p : N
origin x at z : o
";

#[test]
fn labels_forbid_routes(rt: HostRuntime) -> Result<(), Fail> {
    let cases: &[(&[u8], &[u8], &str)] = &[
        (CUSTOMERS, PROVIDERS, "isotone fails on u v: (P,1) on "),
        (CUSTOMERS, LATE_PROVIDER, "isotone fails on u v: (P,1) on "),
        (WIDE_THEN_SHORT, NARROW, "isotone fails on b d: (10,7) on "),
        (
            BAD_GADGET,
            GADGET,
            "monotone fails on p q: N on d gives a\n",
        ),
    ];
    for (file, net, begins) in cases {
        assert!(rt; is_missing(run_on(&rt, &["route", "f", "n"], *file, *net)?, *begins)?);
    }
    Ok(())
}

// Without the arcs that forbid it, routes are found.
#[test]
fn dropped_arcs_forbid_nothing(rt: HostRuntime) -> Result<(), Fail> {
    let net =
        b"node z p q\nlink p z : D\nlink p q : N\nlink q z : D\norigin x at z : o\nthen drop p q\n";
    let outcome = run_on(&rt, &["route", "f", "n"], BAD_GADGET, net)?;
    assert!(rt; ended_with(outcome, b"z x o z\np x d p z\nq x d q z\n", 0));
    Ok(())
}

// Numbers that look random, the same in every run.
#[derive(Drop)]
pub(crate) struct Draw {
    pub(crate) state: u64,
}

impl Draw {
    // A number below the limit.
    fn below(&mut self, limit: u64) -> u64 {
        self.state = self
            .state
            .wrapping_mul(6364136223846793005)
            .wrapping_add(1442695040888963407);
        (self.state >> 33) % limit.max(1)
    }
}

// A cost, and a width that plays no part in some policies.
pub(crate) type Measure = (u64, u64);

// A policy, written once more by hand.
#[derive(Clone, Copy)]
pub(crate) enum Policy {
    Sum,
    Greatest,
    SumThenWidth,
}

impl Policy {
    pub(crate) fn file(self) -> &'static [u8] {
        match self {
            Policy::Sum => b"main add(1..9);",
            Policy::Greatest => b"main worst(9; 1..9);",
            Policy::SumThenWidth => b"main lex(add(1..9), width(9; 0..9));",
        }
    }

    // What the label makes of the value.
    fn along(self, label: Measure, value: Measure) -> Measure {
        match self {
            Policy::Sum => (value.0.saturating_add(label.0), 0),
            Policy::Greatest => (value.0.max(label.0), 0),
            Policy::SumThenWidth => (value.0.saturating_add(label.0), value.1.min(label.1)),
        }
    }

    // A label or a value as a literal.
    fn literal(self, alloc: Global, measure: Measure) -> Result<String, Fail> {
        let (cost, width) = measure;
        match self {
            Policy::Sum | Policy::Greatest => Ok(format!(in alloc; "{cost}")?),
            Policy::SumThenWidth => Ok(format!(in alloc; "({cost},{width})")?),
        }
    }
}

// A smaller cost, or a greater width at the same.
fn is_better(u: Measure, v: Measure) -> bool {
    u.0 < v.0 || (u.0 == v.0 && u.1 > v.1)
}

const NODES: usize = 8;

// An arc from a node to another, with its label.
pub(crate) type Arc = (usize, usize, Measure);

pub(crate) fn drawn_arcs(alloc: Global, draw: &mut Draw) -> Result<Vec<Arc>, NoMemory> {
    let mut arcs = Vec::new(alloc);
    for tail in 0..NODES {
        for head in 0..NODES {
            if tail != head && draw.below(3) == 0 {
                let label = (draw.below(9).saturating_add(1), draw.below(10));
                arcs.push((tail, head, label))?;
            }
        }
    }
    Ok(arcs)
}

// The network of these arcs, with an origin at node 0.
pub(crate) fn network_of(alloc: Global, policy: Policy, arcs: &[Arc]) -> Result<String, Fail> {
    let mut text = String::new(alloc);
    for node in 0..NODES {
        writeln!(text, "node n{node}")?;
    }
    for (tail, head, label) in arcs {
        let label = policy.literal(alloc, *label)?;
        writeln!(text, "link n{tail} n{head} : {label}")?;
    }
    let origin = policy.literal(alloc, ORIGIN)?;
    writeln!(text, "origin x at n0 : {origin}")?;
    Ok(text)
}

const ORIGIN: Measure = (0, 9);

// The best value of each node: values go along arcs until, after as many rounds as there are nodes, none changes.
fn relaxed(policy: Policy, arcs: &[Arc]) -> [Option<Measure>; NODES] {
    let mut best = [None; NODES];
    best[0] = Some(ORIGIN);
    for _round in 0..NODES {
        for arc in arcs {
            relax(policy, *arc, &mut best);
        }
    }
    best
}

fn relax(policy: Policy, arc: Arc, best: &mut [Option<Measure>]) {
    let (tail, head, label) = arc;
    let Some(Some(value)) = best.get(head).copied() else {
        return;
    };
    let offered = policy.along(label, value);
    if let Some(place) = best.get_mut(tail) {
        let improves = match *place {
            Some(known) => is_better(offered, known),
            None => true,
        };
        if improves {
            *place = Some(offered);
        }
    }
}

// How the line of a node begins whose best value is this.
fn line_of(
    alloc: Global,
    policy: Policy,
    node: usize,
    best: Option<Measure>,
) -> Result<String, Fail> {
    match best {
        Some(value) => {
            let value = policy.literal(alloc, value)?;
            Ok(format!(in alloc; "n{node} x {value} n{node}")?)
        }
        None => Ok(format!(in alloc; "n{node} x none")?),
    }
}

// Whether the program's routes on the drawn network have the values of the plain program, which goes by the same policy
// or by another one.
fn agrees(
    rt: &(impl AllocGlobal + Threads + Wait + Sync),
    policy: Policy,
    plain: Policy,
    draw: &mut Draw,
) -> Result<bool, Fail> {
    let alloc = rt.alloc();
    let arcs = drawn_arcs(alloc, draw)?;
    let net = network_of(alloc, policy, &arcs)?;
    let outcome = run_on(rt, &["route", "f", "n"], policy.file(), net.as_bytes())?;
    let text = str::from_utf8(&outcome.taken)?;
    let best = relaxed(plain, &arcs);
    for (node, line) in text.lines().enumerate() {
        let known = best.get(node).copied().flatten();
        if !line.starts_with(line_of(alloc, plain, node, known)?.as_str()) {
            return Ok(false);
        }
    }
    Ok(text.lines().count() == NODES)
}

#[test]
fn drawn_networks_have_the_relaxed_values(rt: HostRuntime) -> Result<(), Fail> {
    let mut draw = Draw { state: 1 };
    for _network in 0..20 {
        for policy in [Policy::Sum, Policy::Greatest, Policy::SumThenWidth] {
            assert!(rt; agrees(&rt, policy, policy, &mut draw)?);
        }
    }
    Ok(())
}

// Sums are greater than their greatest parts.
#[test]
fn other_values_are_reported_apart(rt: HostRuntime) -> Result<(), Fail> {
    let mut draw = Draw { state: 1 };
    assert!(rt; !agrees(&rt, Policy::Sum, Policy::Greatest, &mut draw)?);
    Ok(())
}
