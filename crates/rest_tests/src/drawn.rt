// Tests of drawn schedules: the sum falls with each delivery, by the right definition of it alone.
ghost use Rattle.std.specs.Prelude.{◌≡◌, OnOk};
ghost use Rattle.node_core.specs.MachineOf.{machine_of, net_of};
ghost use Rattle.node_core.specs.Running.{AreUpTo, IsRunning};
ghost use Rattle.path_vector.specs.Node.{path_vector};
ghost use Rattle.path_vector.specs.Nodes.{state_of};
ghost use Rattle.path_vector.specs.Updates.{pure_update};

use crate::draws::Draws;
use crate::measure::{DEFINITIONS, Definition, Measure};
use crate::networks::{changed_net, drawn_lines};
use crate::tables::{Table, drawn_table, expression_of};
use crate::tracked::{Tracked, briefs_of};
use alg_model::{Algebra, TreeAlgebra};
use meta_base::ArcId;
use net_graph::{Net, RouteRow};
use node_core::{Config, NodeCore};
use path_vector::PvNode;
use std::alloc::Global;
use std::test::Fail;
use testkit_nodes::{carried_from, make_delivery, new_nodes, rows_now};
use testkit_readers::network;

const NETWORKS: u32 = 1000;

const MOST_DELIVERIES: u64 = 2000;

// How many deliveries there were, and how many of them didn't lower the sum, by each definition.
#[derive(Drop)]
struct Tally {
    made: u64,
    kept: Vec<u64>,
}

impl Tally {
    // Counts a delivery with the sums before and after it.
    fn note(&mut self, before: &[u128], after: &[u128]) {
        self.made = self.made.saturating_add(1);
        for ((kept, old), new) in self.kept.iter_mut().zip(before.iter()).zip(after.iter()) {
            if *new >= *old {
                *kept = kept.saturating_add(1);
            }
        }
    }
}

// A phase as it is measured: what waits now, and by each definition the sum.
#[derive(Drop)]
struct Measured {
    tracked: Tracked,
    measures: Vec<Measure>,
    sums: Vec<u128>,
}

impl Measured {
    fn at_start(
        alloc: Global,
        net: &Net,
        table: &Table,
        tracked: Tracked,
    ) -> Result<Measured, Fail> {
        let mut measures = Vec::new(alloc);
        let mut sums = Vec::new(alloc);
        for definition in DEFINITIONS {
            let measure = Measure::at_start(alloc, *definition, net, table, &tracked)?;
            sums.push(measure.left(alloc, table, &tracked)?)?;
            measures.push(measure)?;
        }
        Ok(Measured {
            tracked,
            measures,
            sums,
        })
    }

    // The start of new nodes with these rows.
    fn of_new(
        alloc: Global,
        net: &Net,
        table: &Table,
        rows: &[RouteRow],
    ) -> Result<Measured, Fail> {
        let tracked = Tracked::of_new(alloc, net, briefs_of(alloc, rows)?)?;
        Measured::at_start(alloc, net, table, tracked)
    }

    // The start of the phase's nodes, carried to a network, with these rows.
    fn carried(
        &self,
        alloc: Global,
        net: &Net,
        table: &Table,
        rows: &[RouteRow],
    ) -> Result<Measured, Fail> {
        let tracked = self.tracked.carried(alloc, net, briefs_of(alloc, rows)?)?;
        Measured::at_start(alloc, net, table, tracked)
    }

    // The listener of the arc takes the update in front, and the nodes' rows become these.
    fn take(
        &mut self,
        alloc: Global,
        table: &Table,
        arc: ArcId,
        rows: &[RouteRow],
        tally: &mut Tally,
    ) -> Result<(), Fail> {
        let briefs = briefs_of(alloc, rows)?;
        self.tracked.take(alloc, arc.0 as usize, briefs)?;
        let mut sums = Vec::new(alloc);
        for measure in &self.measures {
            sums.push(measure.left(alloc, table, &self.tracked)?)?;
        }
        tally.note(&self.sums, &sums);
        self.sums = sums;
        Ok(())
    }
}

// An arc on which something waits: a drawn one, or the last.
fn drawn_arc(
    alloc: Global,
    tracked: &Tracked,
    is_drawn: bool,
    draws: &mut Draws,
) -> Result<Option<ArcId>, Fail> {
    let arcs = tracked.waiting(alloc)?;
    if arcs.is_empty() {
        return Ok(None);
    }
    let place = if is_drawn {
        draws.below(arcs.len())
    } else {
        arcs.len() - 1
    };
    Ok(Some(arcs[place]))
}

// Whether as much waits on each arc of the machine as is tracked.
fn waits_so<N: NodeCore>(config: &Config<'_, N>, tracked: &Tracked) -> bool {
    for id in 0..config.net().arc_count() {
        let count = config.waiting(ArcId(id as u32));
        if id >= tracked.links.len() || tracked.links[id].waits.len() != count {
            return false;
        }
    }
    tracked.links.len() == config.net().arc_count()
}

// Makes deliveries by a drawn schedule until nothing waits, and counts those that don't lower the sum.
fn follow<A: Algebra>(
    alloc: Global,
    config: &mut Config<'_, PvNode<'_, A>>,
    table: &Table,
    measured: &mut Measured,
    draws: &mut Draws,
    tally: &mut Tally,
) -> Result<(), Fail>
    requires running { IsRunning path_vector (net_of config.old) (machine_of state_of pure_update config.old) }
    requires begun { AreUpTo path_vector (machine_of state_of pure_update config.old) 0 }
    ensures net { OnOk result (net_of config.new ≡ net_of config.old) }
    ensures running { OnOk result
        (IsRunning path_vector (net_of config.new) (machine_of state_of pure_update config.new)) }
{
    let is_drawn = draws.happens(7);
    for made in 0..MOST_DELIVERIES {
        if !waits_so(config, &measured.tracked) {
            return Err("other messages wait than are tracked".into());
        }
        let Some(arc) = drawn_arc(alloc, &measured.tracked, is_drawn, draws)? else {
            return Ok(());
        };
        if make_delivery(config, arc, made)?.is_none() {
            return Err("nothing waits on the arc".into());
        }
        let rows = rows_now(alloc, config)?;
        measured.take(alloc, table, arc, rows.as_slice(), tally)?;
    }
    Err("the run doesn't end".into())
}

// Runs the new nodes of the network, and then carries them to the next one, which differs in its arcs alone.
fn follow_both<A: Algebra>(
    alloc: Global,
    algebra: &A,
    net: &Net,
    next: &Net,
    table: &Table,
    draws: &mut Draws,
    tally: &mut Tally,
) -> Result<(), Fail>
    requires algebra { A.expression algebra.now ≡ net.now.alg.expression }
    requires next { next.now ≡ record net.now { arcs = next.now.arcs } }
{
    let nodes = new_nodes(alloc, algebra, net)?;
    let mut config = Config::start(alloc, net, nodes)?;
    let rows = rows_now(alloc, &config)?;
    let mut measured = Measured::of_new(alloc, net, table, rows.as_slice())?;
    follow(alloc, &mut config, table, &mut measured, draws, tally)?;
    let nodes = carried_from(alloc, config, next)?;
    let mut config = Config::start(alloc, next, nodes)?;
    let rows = rows_now(alloc, &config)?;
    let mut measured = measured.carried(alloc, next, table, rows.as_slice())?;
    follow(alloc, &mut config, table, &mut measured, draws, tally)
}

// The same for a network over the table, and a drawn change of it.
fn follow_net(
    alloc: Global,
    net: &Net,
    table: &Table,
    draws: &mut Draws,
    tally: &mut Tally,
) -> Result<(), Fail> {
    let algebra = TreeAlgebra::new(net.alg());
    let next = changed_net(alloc, net, draws)?;
    let end = follow_both(alloc, &algebra, net, &next, table, draws, tally);
    drop(next);
    end
}

fn follow_drawn(alloc: Global, draws: &mut Draws, tally: &mut Tally) -> Result<(), Fail> {
    let table = drawn_table(alloc, draws)?;
    let expression = expression_of(alloc, &table)?;
    let lines = drawn_lines(alloc, draws, &table)?;
    let net = network(alloc, expression.as_str(), lines.as_bytes())?;
    let end = follow_net(alloc, &net, &table, draws, tally);
    drop(net);
    end
}

#[test]
fn the_sum_falls_with_each_delivery(rt: HostRuntime) -> Result<(), Fail> {
    let mut draws = Draws::new();
    let mut kept = Vec::new(rt.alloc());
    for _definition in DEFINITIONS {
        kept.push(0)?;
    }
    let mut tally = Tally { made: 0, kept };
    for _network in 0..NETWORKS {
        follow_drawn(rt.alloc(), &mut draws, &mut tally)?;
    }
    assert!(rt; tally.made > 10_000, "{} deliveries", tally.made);
    for (definition, kept) in DEFINITIONS.iter().zip(tally.kept.iter()) {
        let falls = *kept == 0;
        assert_eq!(rt;
            falls,
            *definition == Definition::Right,
            "{definition:?}: {kept} of {}",
            tally.made
        );
    }
    Ok(())
}

// The sums of the new nodes of a network, by each definition.
fn sums_with<A: Algebra>(
    alloc: Global,
    algebra: &A,
    net: &Net,
    table: &Table,
) -> Result<Vec<u128>, Fail>
    requires { A.expression algebra.now ≡ net.now.alg.expression }
{
    let nodes = new_nodes(alloc, algebra, net)?;
    let config = Config::start(alloc, net, nodes)?;
    let rows = rows_now(alloc, &config)?;
    Ok(Measured::of_new(alloc, net, table, rows.as_slice())?.sums)
}

fn sums_on(alloc: Global, net: &Net, table: &Table) -> Result<Vec<u128>, Fail> {
    sums_with(alloc, &TreeAlgebra::new(net.alg()), net, table)
}

// The same over the network of these lines, by the table of two values whose one label makes the second of each.
fn sums_over(alloc: Global, lines: &[u8]) -> Result<Vec<u128>, Fail> {
    let ranks = Vec::from_slice(alloc, &[0usize, 1])?;
    let mut labels = Vec::new(alloc);
    labels.push(Vec::from_slice(alloc, &[Some(1usize), Some(1)])?)?;
    let table = Table { ranks, labels };
    let expression = expression_of(alloc, &table)?;
    let net = network(alloc, expression.as_str(), lines)?;
    let sums = sums_on(alloc, &net, &table);
    drop(net);
    sums
}

// The lines of a network, and by hand its sums at the start, by each definition. With n nodes the level of none is 2n,
// by lengths alone n, and the one update that waits has that budget.
const SUMS: &[(&[u8], [u128; 4])] = &[
    // The listener speaks to nobody.
    (
        b"node n0 n1\nlink n1 n0 : l0\norigin x at n0 : v0\n",
        [1, 1, 1, 0],
    ),
    // Both speak to each other: a budget of 4 is 5 deliveries, and one of 2 is 3.
    (
        b"node n0 n1\nlink n1 n0 : l0\nlink n0 n1 : l0\norigin x at n0 : v0\n",
        [5, 3, 5, 1],
    ),
    // The listener speaks to one that speaks to nobody.
    (
        b"node n0 n1 n2\nlink n1 n0 : l0\nlink n2 n1 : l0\norigin x at n0 : v0\n",
        [2, 2, 2, 0],
    ),
];

#[test]
fn sums_are_those_by_hand(rt: HostRuntime) -> Result<(), Fail> {
    for (lines, sums) in SUMS {
        let found = sums_over(rt.alloc(), *lines)?;
        assert_eq!(rt; found.as_slice(), sums.as_slice());
    }
    Ok(())
}
