// Tests of drawn schedules: whichever deliveries come first, what a network comes to rest in is stable, and where all
// labels are monotone it is one table.
ghost use Rattle.std.specs.Prelude.{◌≡◌, ◌<◌, OnOk};
ghost use Rattle.node_core.specs.MachineOf.{machine_of, net_of};
ghost use Rattle.node_core.specs.Running.{AreUpTo, IsRunning};

use alg_model::{Algebra, TreeAlgebra};
use meta_base::{ArcId, DestId, List, NoMemory};
use net_graph::{DestTable, Net, RouteRow};
use node_core::{Config, NodeCore};
use stable_check::{is_stable, is_table_of};
use std::alloc::Global;
use std::test::Fail;
use testkit_nodes::{are_rows, make_delivery, new_nodes, rows_now};
use testkit_readers::network;

// Knuth's MMIX linear congruential generator, by which the networks of `demo` are drawn too.
#[derive(Drop)]
pub(crate) struct Draws {
    state: u64,
}

impl Draws {
    pub(crate) fn of_seed(seed: u64) -> Draws {
        Draws { state: seed }
    }

    // A number below the bound.
    fn below(&mut self, bound: usize) -> usize
        requires { 0 < bound }
        ensures { result < bound }
    {
        self.state = self
            .state
            .wrapping_mul(6_364_136_223_846_793_005)
            .wrapping_add(1_442_695_040_888_963_407);
        (self.state >> 33) as usize % bound
    }
}

pub(crate) const SEEDS: u64 = 100;

const MOST_DELIVERIES: u64 = 1000;

// The arcs on which something waits, in order.
fn waiting_arcs<N: NodeCore>(
    alloc: Global,
    config: &Config<'_, N>,
) -> Result<Vec<ArcId>, NoMemory> {
    let mut arcs = Vec::new(alloc);
    for id in 0..config.net().arc_count() {
        let arc = ArcId(id as u32);
        if config.waiting(arc) > 0 {
            arcs.push(arc)?;
        }
    }
    Ok(arcs)
}

// Makes deliveries on drawn arcs until nothing waits. Whether so many were enough.
pub(crate) fn comes_to_rest<N: NodeCore>(
    alloc: Global,
    config: &mut Config<'_, N>,
    draws: &mut Draws,
) -> Result<bool, Fail>
    requires running { IsRunning N.kind (net_of config.old) (machine_of N.state N.note config.old) }
    requires begun { AreUpTo N.kind (machine_of N.state N.note config.old) 0 }
    ensures net { OnOk result (net_of config.new ≡ net_of config.old) }
    ensures running { OnOk result (IsRunning N.kind (net_of config.new) (machine_of N.state N.note config.new)) }
{
    for made in 0..MOST_DELIVERIES {
        let arcs = waiting_arcs(alloc, &*config)?;
        if arcs.is_empty() {
            return Ok(true);
        }
        let arc = arcs[draws.below(arcs.len())];
        make_delivery(config, arc, made)?;
    }
    Ok(false)
}

// The rows that new nodes come to rest with by the schedule of a seed; none where they don't come to rest.
fn rows_by<A: Algebra>(
    alloc: Global,
    algebra: &A,
    net: &Net,
    seed: u64,
) -> Result<Option<List<RouteRow>>, Fail>
    requires { A.expression algebra.now ≡ net.now.alg.expression }
{
    let nodes = new_nodes(alloc, algebra, net)?;
    let mut config = Config::start(alloc, net, nodes)?;
    let mut draws = Draws::of_seed(seed);
    if !comes_to_rest(alloc, &mut config, &mut draws)? {
        return Ok(None);
    }
    Ok(Some(rows_now(alloc, &config)?))
}

// Whether the rows, of the one destination, are a stable table of the network.
pub(crate) fn is_at_rest(alloc: Global, net: &Net, rows: List<RouteRow>) -> Result<bool, Fail> {
    let dest = DestId(0);
    let table = DestTable { dest, rows };
    Ok(is_table_of(net, &table) && is_stable(alloc, net, &table)?)
}

// The place among these tables of the one that the nodes come to rest with, if they do. It fails where the table isn't
// stable, or is none of these.
fn table_by(alloc: Global, net: &Net, tables: &[&str], seed: u64) -> Result<Option<usize>, Fail> {
    let Some(rows) = rows_by(alloc, &TreeAlgebra::new(net.alg()), net, seed)? else {
        return Ok(None);
    };
    let mut place = None;
    for (number, table) in tables.iter().enumerate() {
        if are_rows(alloc, net, rows.as_slice(), *table)? {
            place = Some(number);
        }
    }
    if place.is_none() || !is_at_rest(alloc, net, rows)? {
        return Err("the table is another one, or isn't stable".into());
    }
    Ok(place)
}

// How many seeds come to each of two tables.
#[derive(Clone, Copy, Debug, PartialEq, Eq)]
struct Counts {
    first: u64,
    second: u64,
}

fn counts_on(alloc: Global, net: &Net, tables: &[&str]) -> Result<Counts, Fail> {
    let mut counts = Counts {
        first: 0,
        second: 0,
    };
    for seed in 0..SEEDS {
        match table_by(alloc, net, tables, seed)? {
            Some(0) => counts.first = counts.first.saturating_add(1),
            Some(_) => counts.second = counts.second.saturating_add(1),
            None => {}
        }
    }
    Ok(counts)
}

fn counts_over(
    alloc: Global,
    expression: &str,
    lines: &[u8],
    tables: &[&str],
) -> Result<Counts, Fail> {
    let net = network(alloc, expression, lines)?;
    let counts = counts_on(alloc, &net, tables);
    drop(net);
    counts
}

const WIDE: &[u8] = b"node a b c d
link b d : (10,7)
link c d : (6,1)
link b c : (6,1)
link a b : (5,1)
origin x at d : (100,0)
";

const DIAMOND: &[u8] =
    b"node a b c d\nlink a b : 1\nlink a c : 1\nlink b d : 1\nlink c d : 1\norigin x at d : 0\n";

// Where labels are monotone each schedule comes to rest, in the one stable table.
#[test]
fn schedules_come_to_one_table(rt: HostRuntime) -> Result<(), Fail> {
    let cases: &[(&str, &[u8], &str)] = &[
        (
            "lex(width(100; 0..100), add(1..10))",
            WIDE,
            "(5,8) a b d / (10,7) b d / (6,1) c d / (100,0) d",
        ),
        ("add(1..1)", DIAMOND, "2 a b d / 1 b d / 1 c d / 0 d"),
    ];
    for (expression, lines, table) in cases {
        let counts = counts_over(rt.alloc(), *expression, *lines, &[*table])?;
        assert_eq!(rt; counts.first, SEEDS);
    }
    Ok(())
}

// p and q like the way by each other better than the direct one.
const DISAGREE: &[u8] = b"node z p q
link p z : D
link q z : D
link p q : N
link q p : N
origin x at z : o
";

// Of the two that disagree some schedules come to rest in one of two tables, and some, such as that of seed 0, don't.
#[test]
fn schedules_come_to_either_table(rt: HostRuntime) -> Result<(), Fail> {
    let expression = "table { o < a < d; D: o -> d; N: d -> a }";
    let tables = ["o z / a p q z / d q z", "o z / d p z / a q p z"];
    let counts = counts_over(rt.alloc(), expression, DISAGREE, &tables)?;
    assert!(rt; counts.first > 0);
    assert!(rt; counts.second > 0);
    assert!(rt; counts.first.saturating_add(counts.second) < SEEDS);
    Ok(())
}

// Whether the schedule of seed 0 comes to rest on the network.
fn rests_at_seed_0(alloc: Global, net: &Net) -> Result<bool, Fail> {
    Ok(rows_by(alloc, &TreeAlgebra::new(net.alg()), net, 0)?.is_some())
}

#[test]
fn one_schedule_never_rests(rt: HostRuntime) -> Result<(), Fail> {
    let alloc = rt.alloc();
    let net = network(alloc, "table { o < a < d; D: o -> d; N: d -> a }", DISAGREE)?;
    let rests = rests_at_seed_0(alloc, &net);
    drop(net);
    assert!(rt; !rests?);
    Ok(())
}
