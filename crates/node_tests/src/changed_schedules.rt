// Tests of drawn schedules over change scripts: after each change the carried nodes come to rest in a stable table of the
// network as it is then, which is one table where all labels are monotone.
ghost use Rattle.std.specs.Prelude.{map};
ghost use Rattle.node_core.specs.Machine.{AreUnbegun};
ghost use Rattle.path_vector.specs.Node.{path_vector};
ghost use Rattle.path_vector.specs.Nodes.{state_of};
ghost use Rattle.vector_runs.specs.Runs.{AreLater};

use crate::schedules::{Draws, SEEDS, comes_to_rest, is_at_rest};
use alg_model::{Algebra, TreeAlgebra};
use meta_base::List;
use net_graph::{Net, RouteRow};
use node_core::Config;
use path_vector::PvNode;
use std::alloc::Global;
use std::test::Fail;
use testkit_nodes::{are_rows, carried_from, change_script, networks_after, new_nodes, rows_now};

// Has the nodes come to rest on the network, and then on each of the later ones, which they are carried to, as long as
// they do. Adds the rows of each rest.
fn rests_from<'a, A: Algebra>(
    alloc: Global,
    nodes: List<PvNode<'a, A>>,
    net: &'a Net,
    later: &'a [Net],
    draws: &mut Draws,
    rests: &mut Vec<List<RouteRow>>,
) -> Result<(), Fail>
    requires nodes { AreUnbegun path_vector net.now 0 (map state_of nodes) }
    requires later { AreLater net.now later.now }
{
    let mut config = Config::start(alloc, net, nodes)?;
    if !comes_to_rest(alloc, &mut config, draws)? {
        return Ok(());
    }
    rests.push(rows_now(alloc, &config)?)?;
    match later {
        [] => Ok(()),
        [next, rest @ ..] => {
            let nodes = carried_from(alloc, config, next)?;
            rests_from(alloc, nodes, next, rest, draws, rests)
        }
    }
}

// The rows of each rest by the schedule of a seed, from the new nodes of the first network on.
fn rests_by(alloc: Global, net: &Net, later: &[Net], seed: u64) -> Result<Vec<List<RouteRow>>, Fail>
    requires { AreLater net.now later.now }
{
    let algebra = TreeAlgebra::new(net.alg());
    let nodes = new_nodes(alloc, &algebra, net)?;
    let mut draws = Draws::of_seed(seed);
    let mut rests = Vec::new(alloc);
    rests_from(alloc, nodes, net, later, &mut draws, &mut rests)?;
    Ok(rests)
}

// Whether the rows are those of one of the tables, and are stable.
fn is_one_of(
    alloc: Global,
    net: &Net,
    rows: List<RouteRow>,
    tables: &[&str],
) -> Result<bool, Fail> {
    let mut is_there = false;
    for table in tables {
        is_there = is_there || are_rows(alloc, net, rows.as_slice(), *table)?;
    }
    Ok(is_there && is_at_rest(alloc, net, rows)?)
}

// Whether each rest is in one of the tables of its network, which is stable.
fn are_rests(
    alloc: Global,
    net: &Net,
    later: &[Net],
    rests: Vec<List<RouteRow>>,
    tables: &[&[&str]],
) -> Result<bool, Fail> {
    let mut phase = 0;
    for rows in rests {
        if phase >= tables.len() || phase > later.len() {
            return Ok(false);
        }
        let now = if phase == 0 { net } else { &later[phase - 1] };
        if !is_one_of(alloc, now, rows, tables[phase])? {
            return Ok(false);
        }
        phase += 1;
    }
    Ok(true)
}

// How many seeds have the nodes come to rest on all networks. It fails where a rest is in another table.
fn whole_rests(alloc: Global, net: &Net, later: &[Net], tables: &[&[&str]]) -> Result<u64, Fail>
    requires { AreLater net.now later.now }
{
    let mut whole = 0u64;
    for seed in 0..SEEDS {
        let rests = rests_by(alloc, net, later, seed)?;
        if rests.len() == tables.len() {
            whole = whole.saturating_add(1);
        }
        if !are_rests(alloc, net, later, rests, tables)? {
            return Err("a table is another one, or isn't stable".into());
        }
    }
    Ok(whole)
}

fn whole_rests_over(
    alloc: Global,
    expression: &str,
    lines: &[u8],
    tables: &[&[&str]],
) -> Result<u64, Fail> {
    let file = change_script(alloc, expression, lines)?;
    let later = networks_after(alloc, &file.net, file.changes.as_slice())?;
    let whole = whole_rests(alloc, &file.net, &later, tables);
    drop(later);
    drop(file);
    whole
}

// Two ways from a to d. b's gets longer, c's is lost, and c gets one by b.
const DIAMOND: &[u8] = b"node a b c d
link a b : 1
link a c : 1
link b d : 1
link c d : 1
origin x at d : 0
then link b d : 3
then drop c d
then link c b : 1
";

// a's way gets wider, b takes the way by c, and then d is out of reach.
const WIDE: &[u8] = b"node a b c d
link b d : (10,7)
link c d : (6,1)
link b c : (6,1)
link a b : (5,1)
origin x at d : (100,0)
then link a b : (8,1)
then drop b d
then drop c d
";

const DISAGREEMENT: &str = "table { o < a < d; D: o -> d; N: d -> a }";

// p likes the way by q best. q hears of p, which routes by q itself, and then p routes by q no more.
const TURNED: &[u8] = b"node z p q
link p z : D
link q z : D
link p q : N
origin x at z : o
then link q p : N
then drop p q
";

// An expression, the lines of a change script, and the tables that nodes may come to rest in, on one network after
// another.
type Script = (
    &'static str,
    &'static [u8],
    &'static [&'static [&'static str]],
);

const SCRIPTS: &[Script] = &[
    (
        "add(1..9)",
        DIAMOND,
        &[
            &["2 a b d / 1 b d / 1 c d / 0 d"],
            &["2 a c d / 3 b d / 1 c d / 0 d"],
            &["4 a b d / 3 b d / none / 0 d"],
            &["4 a b d / 3 b d / 4 c b d / 0 d"],
        ],
    ),
    (
        "lex(width(100; 0..100), add(1..10))",
        WIDE,
        &[
            &["(5,8) a b d / (10,7) b d / (6,1) c d / (100,0) d"],
            &["(8,8) a b d / (10,7) b d / (6,1) c d / (100,0) d"],
            &["(6,3) a b c d / (6,2) b c d / (6,1) c d / (100,0) d"],
            &["none / none / none / (100,0) d"],
        ],
    ),
    (
        DISAGREEMENT,
        TURNED,
        &[
            &["o z / a p q z / d q z"],
            &["o z / a p q z / d q z"],
            &["o z / d p z / a q p z"],
        ],
    ),
];

#[test]
fn changed_schedules_come_to_one_table(rt: HostRuntime) -> Result<(), Fail> {
    for (expression, lines, tables) in SCRIPTS {
        let whole = whole_rests_over(rt.alloc(), *expression, *lines, *tables)?;
        assert_eq!(rt; whole, SEEDS);
    }
    Ok(())
}

// p and q like the way by each other better than the direct one, until p routes by q no more.
const DISAGREE: &[u8] = b"node z p q
link p z : D
link q z : D
link p q : N
link q p : N
origin x at z : o
then drop p q
";

// Some schedules never come to rest before the change; all others come to one table after it.
#[test]
fn changed_schedules_end_a_disagreement(rt: HostRuntime) -> Result<(), Fail> {
    let tables: &[&[&str]] = &[
        &["o z / a p q z / d q z", "o z / d p z / a q p z"],
        &["o z / d p z / a q p z"],
    ];
    let whole = whole_rests_over(rt.alloc(), DISAGREEMENT, DISAGREE, tables)?;
    assert!(rt; whole > 0);
    assert!(rt; whole < SEEDS);
    Ok(())
}
