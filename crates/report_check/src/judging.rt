ghost use Rattle.std.specs.Prelude.{◌≡◌, ◌+◌, ◌<◌, ◌&&◌, ℕ, List, cond, true, length, map, option_map, IfOk};
ghost use Rattle.meta_base.specs.NodePaths.{numbers};
ghost use Rattle.net_graph.specs.Nets.{IsNet};
ghost use Rattle.net_graph.specs.Tables.{OnTablesFrom, PureRow, Relaxed, TableOf};
ghost use Rattle.net_graph.specs.Views.{pure_route, rows_of};
ghost use Rattle.arc_labels.specs.Neighbours.{AreSpeakerLabels};
ghost use Rattle.report_check.specs.Findings.{OptimalBefore, OptimalUpTo, StableBefore, StableUpTo, beaten_or_not, is_stable, is_unbeaten, unstable_or_not};
ghost use Rattle.report_check.specs.Judged.{Judged, JudgedOptimal, stable, table_at, unbeaten};
ghost use Rattle.report_check.specs.Views.{AreOfDests, pure_judgement, pure_optimal, pure_stable};
ghost use Rattle.stable_check.specs.Checks.{AreOwnValues};

use crate::compiled::Compiled;
use crate::found::{OfferFindings, Wanted};
use crate::look::cleared;
use crate::rows::judge_row;
use crate::{Judgement, OptimalFinding, StableFinding};
use alg_classes::Property;
use alg_model::Algebra;
use arc_labels::{NeighbourLabels, label_forms, speaker_labels};
use meta_base::{DestId, List, NoMemory, NodeId};
use net_facts::first_missing;
use net_graph::{DestTable, Net};
use stable_check::{OwnValues, has_walk};
use std::alloc::Global;

/// What the tables of all destinations of the network, in order, are judged to be: whether no walk beats a row, and
/// whether each row is its node's choice from what the table says, each with the first row that shows that it isn't
/// (Griffin and Sobrinho 2005; Sobrinho 2005). Which walk or offer of several is named isn't said.
///
/// The algebra is the network's. In its own form each arc's label is applied once for each destination; a table that
/// this doesn't clear is looked at once more, and its walks are weighed. No number of an instance is above
/// [`alg_model::MAX_INSTANCE_NUMBER`]. It is refused for want of memory alone.
pub fn judge<A: Algebra>(
    alloc: Global,
    algebra: &A,
    net: &Net,
    tables: &[DestTable],
) -> Result<Judgement, NoMemory>
    requires algebra { A.expression algebra.now ≡ net.now.alg.expression }
    requires tables { OnTablesFrom (TableOf net.now) 0 (map rows_of tables.now) }
    requires dests { AreOfDests 0 tables.now }
    requires count { length tables.now ≡ length net.now.dests }
    ensures { IfOk result (λ judgement. Judged net.now (map rows_of tables.now) (pure_judgement judgement)) }
{
    let forms = label_forms(alloc, algebra, net)?;
    let labels = speaker_labels(alloc, algebra, net, &forms)?;
    let mut found = Judgement {
        optimal: OptimalFinding::Yes,
        stable: StableFinding::Yes,
    };
    for table in tables {
        found = judge_more(alloc, algebra, net, &labels, table, found)?;
    }
    if !found.optimal.is_yes() {
        return Ok(found);
    }
    Ok(Judgement {
        optimal: settle(alloc, net)?,
        stable: found.stable,
    })
}

// What is found of tables of which neither an origin nor an arc improves a row, by whether all labels are isotone.
fn settle(alloc: Global, net: &Net) -> Result<OptimalFinding, NoMemory>
    ensures { (tables : List (List PureRow)) → OnTablesFrom (Relaxed net.now) 0 tables →
        IfOk result (λ found. JudgedOptimal net.now tables (pure_optimal found)) }
{
    match first_missing(alloc, net, &[Property::Isotone])? {
        None => Ok(OptimalFinding::Yes),
        Some(missing) => Ok(OptimalFinding::Unsettled {
            arc: missing.arc,
            instance: missing.instance,
        }),
    }
}

// What is found with one table more. What an earlier table settled is not looked for.
fn judge_more<A: Algebra>(
    alloc: Global,
    algebra: &A,
    net: &Net,
    labels: &NeighbourLabels<'_, A::Lab>,
    table: &DestTable,
    before: Judgement,
) -> Result<Judgement, NoMemory>
    requires algebra { A.expression algebra.now ≡ net.now.alg.expression }
    requires labels { AreSpeakerLabels (A.stands_for algebra.now) net.now labels.now }
    requires dest { table.now.dest.0 < length net.now.dests }
    requires table { TableOf net.now table.now.dest.0 (rows_of table.now) }
    ensures optimal { (tables : List (List PureRow)) → table_at tables table.now.dest.0 ≡ rows_of table.now →
        OptimalBefore net.now tables table.now.dest.0 (pure_optimal before.optimal) →
        IfOk result (λ found. OptimalBefore net.now tables (table.now.dest.0 + 1) (pure_optimal found.optimal)) }
    ensures stable { (tables : List (List PureRow)) → table_at tables table.now.dest.0 ≡ rows_of table.now →
        StableBefore net.now tables table.now.dest.0 (pure_stable before.stable) →
        IfOk result (λ found. StableBefore net.now tables (table.now.dest.0 + 1) (pure_stable found.stable)) }
{
    let wanted = Wanted {
        optimal: before.optimal.is_yes(),
        stable: before.stable.is_yes(),
    };
    if !wanted.optimal && !wanted.stable {
        return Ok(before);
    }
    let found = judge_table(alloc, algebra, net, labels, table, wanted)?;
    Ok(Judgement {
        optimal: before.optimal.or(found.optimal),
        stable: before.stable.or(found.stable),
    })
}

// What is found of the table alone, of what is wanted: nothing where a look at it in the algebra's form clears it.
fn judge_table<A: Algebra>(
    alloc: Global,
    algebra: &A,
    net: &Net,
    labels: &NeighbourLabels<'_, A::Lab>,
    table: &DestTable,
    wanted: Wanted,
) -> Result<Judgement, NoMemory>
    requires algebra { A.expression algebra.now ≡ net.now.alg.expression }
    requires labels { AreSpeakerLabels (A.stands_for algebra.now) net.now labels.now }
    requires dest { table.now.dest.0 < length net.now.dests }
    requires table { TableOf net.now table.now.dest.0 (rows_of table.now) }
    ensures optimal { wanted.optimal ≡ true → IfOk result (λ found. OptimalUpTo net.now table.now.dest.0
        (rows_of table.now) (length net.now.nodes) (length net.now.nodes) (pure_optimal found.optimal)) }
    ensures stable { wanted.stable ≡ true → IfOk result (λ found. StableUpTo net.now table.now.dest.0
        (rows_of table.now) (length net.now.nodes) (pure_stable found.stable)) }
{
    let form = Compiled::of(alloc, algebra, net, labels, table)?;
    let clear = cleared(alloc, &form)?;
    let left = wanted.without(clear);
    if !left.optimal && !left.stable {
        return Ok(Judgement {
            optimal: OptimalFinding::Yes,
            stable: StableFinding::Yes,
        });
    }
    Ok(only(judge_rows(alloc, net, table, left)?, left))
}

// What is found of what was asked, and nothing of what wasn't.
fn only(found: Judgement, asked: Wanted) -> Judgement
    ensures optimal { pure_optimal result.optimal ≡ cond asked.optimal (pure_optimal found.optimal) unbeaten }
    ensures stable { pure_stable result.stable ≡ cond asked.stable (pure_stable found.stable) stable }
{
    let Judgement { optimal, stable } = found;
    Judgement {
        optimal: if asked.optimal {
            optimal
        } else {
            OptimalFinding::Yes
        },
        stable: if asked.stable {
            stable
        } else {
            StableFinding::Yes
        },
    }
}

// What is found of the table row by row, of what is wanted.
fn judge_rows(
    alloc: Global,
    net: &Net,
    table: &DestTable,
    wanted: Wanted,
) -> Result<Judgement, NoMemory>
    requires dest { table.now.dest.0 < length net.now.dests }
    requires table { TableOf net.now table.now.dest.0 (rows_of table.now) }
    ensures optimal { wanted.optimal ≡ true → IfOk result (λ found. OptimalUpTo net.now table.now.dest.0
        (rows_of table.now) (length net.now.nodes) (length net.now.nodes) (pure_optimal found.optimal)) }
    ensures stable { wanted.stable ≡ true → IfOk result (λ found. StableUpTo net.now table.now.dest.0
        (rows_of table.now) (length net.now.nodes) (pure_stable found.stable)) }
{
    let own = OwnValues::of(alloc, net, table.dest)?;
    let mut found = Judgement {
        optimal: OptimalFinding::Yes,
        stable: StableFinding::Yes,
    };
    for node in 0..net.node_count() {
        found = judge_node(alloc, net, table, &own, NodeId(node as u32), wanted, found)?;
    }
    Ok(found)
}

// What is found of the table with the row of one node more.
fn judge_node(
    alloc: Global,
    net: &Net,
    table: &DestTable,
    own: &OwnValues<'_>,
    node: NodeId,
    wanted: Wanted,
    before: Judgement,
) -> Result<Judgement, NoMemory>
    requires net { IsNet net.now }
    requires table { TableOf net.now table.now.dest.0 (rows_of table.now) }
    requires own { AreOwnValues net.now table.now.dest.0 own.now.values.items }
    requires node { node.0 < length net.now.nodes }
    ensures optimal { wanted.optimal ≡ true →
        OptimalUpTo net.now table.now.dest.0 (rows_of table.now) node.0 node.0 (pure_optimal before.optimal) →
        IfOk result (λ found. OptimalUpTo net.now table.now.dest.0 (rows_of table.now)
        (node.0 + 1) (node.0 + 1) (pure_optimal found.optimal)) }
    ensures stable { wanted.stable ≡ true →
        StableUpTo net.now table.now.dest.0 (rows_of table.now) node.0 (pure_stable before.stable) →
        IfOk result (λ found. StableUpTo net.now table.now.dest.0 (rows_of table.now)
        (node.0 + 1) (pure_stable found.stable)) }
{
    let optimal = weigh_walk(alloc, net, table, own, node, wanted, before.optimal)?;
    let asked = still_wanted(wanted, &optimal, &before.stable);
    if !asked.optimal && !asked.stable {
        return Ok(Judgement {
            optimal,
            stable: before.stable,
        });
    }
    let row = judge_row(alloc, net, table, own, node, asked)?;
    Ok(Judgement {
        optimal: optimal.or(beaten_by(node, table.dest, row.beating)),
        stable: before.stable.or(unstable_by(node, table.dest, row.offers)),
    })
}

// What is wanted and isn't found yet.
fn still_wanted(wanted: Wanted, optimal: &OptimalFinding, stable: &StableFinding) -> Wanted
    ensures optimal { result.optimal ≡ (wanted.optimal && is_unbeaten (pure_optimal optimal.now)) }
    ensures stable { result.stable ≡ (wanted.stable && is_stable (pure_stable stable.now)) }
{
    Wanted {
        optimal: wanted.optimal && optimal.is_yes(),
        stable: wanted.stable && stable.is_yes(),
    }
}

// What is found of the table once the walk of the node's row is weighed. After the first row that has none no other
// walk is.
fn weigh_walk(
    alloc: Global,
    net: &Net,
    table: &DestTable,
    own: &OwnValues<'_>,
    node: NodeId,
    wanted: Wanted,
    before: OptimalFinding,
) -> Result<OptimalFinding, NoMemory>
    requires net { IsNet net.now }
    requires table { TableOf net.now table.now.dest.0 (rows_of table.now) }
    requires own { AreOwnValues net.now table.now.dest.0 own.now.values.items }
    ensures { wanted.optimal ≡ true →
        OptimalUpTo net.now table.now.dest.0 (rows_of table.now) node.0 node.0 (pure_optimal before) →
        IfOk result (λ found. OptimalUpTo net.now table.now.dest.0 (rows_of table.now)
        (node.0 + 1) node.0 (pure_optimal found)) }
{
    if !wanted.optimal || before.is_no_walk() {
        return Ok(before);
    }
    if has_walk(alloc, net, table, own, node)? {
        return Ok(before);
    }
    Ok(OptimalFinding::NoWalk {
        node,
        dest: table.dest,
    })
}

// What a walk that beats the row of the node, if there is one, makes of its table.
fn beaten_by(node: NodeId, dest: DestId, beating: Option<List<NodeId>>) -> OptimalFinding
    ensures { pure_optimal result ≡ beaten_or_not node.0 dest.0 (option_map numbers beating) }
{
    match beating {
        Some(walk) => OptimalFinding::Beaten { node, dest, walk },
        None => OptimalFinding::Yes,
    }
}

// What the offers to the node make of its table.
fn unstable_by(node: NodeId, dest: DestId, offers: OfferFindings) -> StableFinding
    ensures { pure_stable result ≡ unstable_or_not node.0 dest.0 offers.is_made (option_map pure_route offers.better) }
{
    if !offers.is_made {
        return StableFinding::NotOffered { node, dest };
    }
    match offers.better {
        Some(offer) => StableFinding::Better { node, dest, offer },
        None => StableFinding::Yes,
    }
}
