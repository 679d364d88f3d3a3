// What is found of one row of a table, by its node's origin and arcs.
ghost use Rattle.std.specs.Prelude.{◌≡◌, ◌<◌, true, length, IfOk, MatchOption};
ghost use Rattle.std.specs.Bool.{Decides};
ghost use Rattle.meta_base.specs.NodePaths.{numbers};
ghost use Rattle.alg_model.specs.Carriers.{IsPreferred};
ghost use Rattle.net_graph.specs.Nets.{IsNet, origin_value};
ghost use Rattle.net_graph.specs.Tables.{TableOf, carrier, route_at, value_at};
ghost use Rattle.net_graph.specs.Views.{pure_route, rows_of};
ghost use Rattle.report_check.specs.Findings.{IsMadeAlone};
ghost use Rattle.report_check.specs.Judged.{IsBeaten, IsBeatenBy, IsBetterOffer};
ghost use Rattle.stable_check.specs.Checks.{own_offer, AreOwnValues, IsMade, IsOutdone, Outdoes};

use crate::arcs::judge_arc;
use crate::found::{OfferFindings, RowFindings, Wanted, weighed};
use meta_base::{List, NoMemory, NodeId};
use net_graph::{DestTable, Net};
use stable_check::{OwnValues, is_preferred, own_offer, path_from, route_at};
use std::alloc::Global;

// The walk of the node alone, if that is wanted and its own origin beats its row.
fn walk_of_origin(
    alloc: Global,
    net: &Net,
    table: &DestTable,
    own: &OwnValues<'_>,
    node: NodeId,
    wanted: Wanted,
) -> Result<Option<List<NodeId>>, NoMemory>
    requires net { IsNet net.now }
    requires table { TableOf net.now table.now.dest.0 (rows_of table.now) }
    requires own { AreOwnValues net.now table.now.dest.0 own.now.values.items }
    ensures { wanted.optimal ≡ true → IfOk result (λ beating. MatchOption beating
        (¬ IsPreferred (carrier net.now) (origin_value net.now table.now.dest.0 node.0)
        (value_at (rows_of table.now) node.0))
        (λ walk. IsBeatenBy net.now table.now.dest.0 (rows_of table.now) node.0 (numbers walk))) }
{
    if !wanted.optimal || !is_preferred(net, own.at(node), route_at(table, node)) {
        return Ok(None);
    }
    Ok(Some(path_from(alloc, node, &[])?))
}

// What the node's own origin shows of its row by what it offers, if that is wanted.
fn offer_of_origin(
    alloc: Global,
    net: &Net,
    table: &DestTable,
    own: &OwnValues<'_>,
    node: NodeId,
    wanted: Wanted,
) -> Result<OfferFindings, NoMemory>
    requires net { IsNet net.now }
    requires table { TableOf net.now table.now.dest.0 (rows_of table.now) }
    requires own { AreOwnValues net.now table.now.dest.0 own.now.values.items }
    ensures made { wanted.stable ≡ true → IfOk result (λ found. Decides found.is_made
        (IsMadeAlone net.now table.now.dest.0 (route_at (rows_of table.now)) node.0)) }
    ensures better { wanted.stable ≡ true → IfOk result (λ found. MatchOption found.better
        (¬ Outdoes (carrier net.now) (own_offer net.now table.now.dest.0 node.0) (route_at (rows_of table.now) node.0))
        (λ s. IsBetterOffer net.now table.now.dest.0 (rows_of table.now) node.0 (pure_route s))) }
{
    if !wanted.stable {
        return Ok(OfferFindings {
            is_made: false,
            better: None,
        });
    }
    let row = route_at(table, node);
    let offer = own_offer(alloc, own, node)?;
    let found = weighed(net, offer, row);
    Ok(OfferFindings {
        is_made: row.is_none() || found.is_made,
        better: found.better,
    })
}

// What the node's own origin shows of its row.
fn judge_origin(
    alloc: Global,
    net: &Net,
    table: &DestTable,
    own: &OwnValues<'_>,
    node: NodeId,
    wanted: Wanted,
) -> Result<RowFindings, NoMemory>
    requires net { IsNet net.now }
    requires table { TableOf net.now table.now.dest.0 (rows_of table.now) }
    requires own { AreOwnValues net.now table.now.dest.0 own.now.values.items }
    ensures beating { wanted.optimal ≡ true → IfOk result (λ found. MatchOption found.beating
        (¬ IsPreferred (carrier net.now) (origin_value net.now table.now.dest.0 node.0)
        (value_at (rows_of table.now) node.0))
        (λ walk. IsBeatenBy net.now table.now.dest.0 (rows_of table.now) node.0 (numbers walk))) }
    ensures made { wanted.stable ≡ true → IfOk result (λ found. Decides found.offers.is_made
        (IsMadeAlone net.now table.now.dest.0 (route_at (rows_of table.now)) node.0)) }
    ensures better { wanted.stable ≡ true → IfOk result (λ found. MatchOption found.offers.better
        (¬ Outdoes (carrier net.now) (own_offer net.now table.now.dest.0 node.0) (route_at (rows_of table.now) node.0))
        (λ s. IsBetterOffer net.now table.now.dest.0 (rows_of table.now) node.0 (pure_route s))) }
{
    Ok(RowFindings {
        beating: walk_of_origin(alloc, net, table, own, node, wanted)?,
        offers: offer_of_origin(alloc, net, table, own, node, wanted)?,
    })
}

/// What is found of the row of the node: its origin is looked at, and each of its arcs once.
pub fn judge_row(
    alloc: Global,
    net: &Net,
    table: &DestTable,
    own: &OwnValues<'_>,
    node: NodeId,
    wanted: Wanted,
) -> Result<RowFindings, NoMemory>
    requires net { IsNet net.now }
    requires table { TableOf net.now table.now.dest.0 (rows_of table.now) }
    requires own { AreOwnValues net.now table.now.dest.0 own.now.values.items }
    requires node { node.0 < length net.now.nodes }
    ensures beating { wanted.optimal ≡ true → IfOk result (λ found. MatchOption found.beating
        (¬ IsBeaten net.now table.now.dest.0 (rows_of table.now) node.0)
        (λ walk. IsBeatenBy net.now table.now.dest.0 (rows_of table.now) node.0 (numbers walk))) }
    ensures made { wanted.stable ≡ true → IfOk result (λ found. Decides found.offers.is_made
        (IsMade net.now table.now.dest.0 (route_at (rows_of table.now)) node.0)) }
    ensures better { wanted.stable ≡ true → IfOk result (λ found. MatchOption found.offers.better
        (¬ IsOutdone net.now table.now.dest.0 (route_at (rows_of table.now)) node.0)
        (λ s. IsBetterOffer net.now table.now.dest.0 (rows_of table.now) node.0 (pure_route s))) }
{
    let mut found = judge_origin(alloc, net, table, own, node, wanted)?;
    let arcs = net.out_arcs(node);
    for place in 0..arcs.count() {
        let of_arc = judge_arc(alloc, net, table, &arcs.get(place), wanted)?;
        found = found.or(of_arc);
    }
    Ok(found)
}
