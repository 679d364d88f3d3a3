// Tests of networks on which one schedule takes twice as many deliveries, and three more, with each stage.
ghost use Rattle.std.specs.Prelude.{◌≡◌};
ghost use Rattle.node_core.specs.MachineOf.{machine_of, net_of};
ghost use Rattle.node_core.specs.Running.{AreUpTo, IsRunning};

use alg_model::{Algebra, TreeAlgebra};
use meta_base::ArcId;
use net_graph::Net;
use node_core::{Config, NodeCore};
use std::alloc::Global;
use std::test::Fail;
use testkit_nodes::{make_delivery, new_nodes};
use testkit_readers::network;

const MOST_STAGES: u32 = 12;

const MOST_DELIVERIES: u64 = 20_000;

// The lines of a stage: its node `a` routes by the `a` before it, at a cost that halves from stage to stage, and by its
// node `b`, and that by the `a` before it, at the cost 1.
fn push_stage(alloc: Global, lines: &mut String, stages: u32, stage: u32) -> Result<(), Fail> {
    let before = stage.wrapping_sub(1);
    let power = stages.wrapping_sub(before).min(20);
    let cost = 2 + (1u64 << power);
    lines.push_str(format!(in alloc; "link a{stage} a{before} : {cost}\n")?.as_str())?;
    lines.push_str(format!(in alloc; "link a{stage} b{stage} : 1\n")?.as_str())?;
    lines.push_str(format!(in alloc; "link b{stage} a{before} : 1\n")?.as_str())?;
    Ok(())
}

// The lines of the network of so many stages, with the arcs of the last stage first.
fn family_lines(alloc: Global, stages: u32) -> Result<String, Fail> {
    let mut lines = String::new(alloc);
    lines.push_str("node a0\n")?;
    for stage in 0..stages {
        let name = stage.wrapping_add(1);
        lines.push_str(format!(in alloc; "node a{name} b{name}\n")?.as_str())?;
    }
    for stage in 0..stages {
        push_stage(alloc, &mut lines, stages, stages.wrapping_sub(stage))?;
    }
    lines.push_str("origin x at a0 : 0\n")?;
    Ok(lines)
}

// The first arc on which something waits.
fn first_waiting<N: NodeCore>(config: &Config<'_, N>) -> Option<ArcId> {
    for id in 0..config.net().arc_count() {
        let arc = ArcId(id as u32);
        if config.waiting(arc) > 0 {
            return Some(arc);
        }
    }
    None
}

// How many deliveries there are until nothing waits, each on the first arc on which something does.
fn deliveries_in_order<N: NodeCore>(config: &mut Config<'_, N>) -> Result<u64, Fail>
    requires running { IsRunning N.kind (net_of config.old) (machine_of N.state N.note config.old) }
    requires begun { AreUpTo N.kind (machine_of N.state N.note config.old) 0 }
{
    for made in 0..MOST_DELIVERIES {
        let Some(arc) = first_waiting(config) else {
            return Ok(made);
        };
        make_delivery(config, arc, made)?;
    }
    Err("the run doesn't end".into())
}

fn deliveries_with<A: Algebra>(alloc: Global, algebra: &A, net: &Net) -> Result<u64, Fail>
    requires { A.expression algebra.now ≡ net.now.alg.expression }
{
    let nodes = new_nodes(alloc, algebra, net)?;
    let mut config = Config::start(alloc, net, nodes)?;
    deliveries_in_order(&mut config)
}

fn deliveries_on(alloc: Global, net: &Net) -> Result<u64, Fail> {
    deliveries_with(alloc, &TreeAlgebra::new(net.alg()), net)
}

// Deliveries on the network of so many stages, and how many nodes and arcs it has.
fn deliveries_over(alloc: Global, stages: u32) -> Result<(usize, usize, u64), Fail> {
    let lines = family_lines(alloc, stages)?;
    let net = network(alloc, "add(1..9000)", lines.as_bytes())?;
    let (nodes, arcs) = (net.node_count(), net.arc_count());
    let made = deliveries_on(alloc, &net);
    drop(net);
    Ok((nodes, arcs, made?))
}

// The schedule takes the waiting arc whose listener has the highest stage, and of a stage that of an `a` before that of
// its `b`, as the arcs stand in the file. Then k stages, with 2k + 1 nodes and 3k arcs, take 3 (2^k - 1) deliveries.
#[test]
fn deliveries_double_with_each_stage(rt: HostRuntime) -> Result<(), Fail> {
    let mut expected = 0u64;
    for stages in 1..MOST_STAGES + 1 {
        expected = expected.saturating_mul(2).saturating_add(3);
        let count = stages as usize;
        let found = deliveries_over(rt.alloc(), stages)?;
        assert_eq!(rt;
            found,
            (2 * count + 1, 3 * count, expected),
            "{stages} stages"
        );
    }
    assert_eq!(rt; expected, 12_285);
    Ok(())
}
