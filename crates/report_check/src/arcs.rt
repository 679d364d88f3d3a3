// What an arc shows of the row of its tail.
ghost use Rattle.std.specs.Prelude.{◌≡◌, Some, true, false, option_map, IfOk, IfSome, IsSomeAnd, MatchOption};
ghost use Rattle.std.specs.Bool.{Decides};
ghost use Rattle.std.specs.declared.cmp.Ordering.TheVariants.{Greater};
ghost use Rattle.meta_base.specs.NodePaths.{numbers};
ghost use Rattle.alg_model.specs.Carriers.{In, Order};
ghost use Rattle.alg_model.specs.Views.{pure_label, pure_value};
ghost use Rattle.net_graph.specs.Nets.{IsNet, label_between};
ghost use Rattle.net_graph.specs.Tables.{TableOf, carrier, is_among, route_at, value_at};
ghost use Rattle.net_graph.specs.Views.{pure_route, rows_of};
ghost use Rattle.net_graph.specs.Walks.{along};
ghost use Rattle.report_check.specs.Judged.{IsBeatenBy, IsBetterOffer};
ghost use Rattle.stable_check.specs.Checks.{ImprovedBy, MadeBy, OutdoneBy};

use crate::found::{OfferFindings, RowFindings, Wanted, weighed};
use alg_model::{Value, order};
use meta_base::{List, NoMemory, NodeId};
use net_graph::{Arc, DestTable, Net, Route};
use stable_check::{arc_value, is_preferred, passes, path_from, route_at};
use std::alloc::Global;
use std::cmp::Ordering;

// The walk along the arc and the path of its head's row, if that is wanted and beats its tail's row: this value is what
// the arc makes of that of its head.
fn walk_of_arc(
    alloc: Global,
    net: &Net,
    table: &DestTable,
    arc: &Arc<'_>,
    next: &Route,
    value: &Value,
    wanted: Wanted,
) -> Result<Option<List<NodeId>>, NoMemory>
    requires table { TableOf net.now table.now.dest.0 (rows_of table.now) }
    requires next { route_at (rows_of table.now) arc.now.head.0 ≡ Some (pure_route next.now) }
    requires value { along net.now arc.now.tail.0 arc.now.head.0 (value_at (rows_of table.now) arc.now.head.0) ≡
        Some (pure_value value.now) }
    requires value_in { In (carrier net.now) (pure_value value.now) }
    ensures { wanted.optimal ≡ true → IfOk result (λ beating. MatchOption beating
        (¬ ImprovedBy net.now (rows_of table.now) arc.now.tail.0 arc.now.head.0)
        (λ walk. IsBeatenBy net.now table.now.dest.0 (rows_of table.now) arc.now.tail.0 (numbers walk))) }
{
    if !wanted.optimal || !is_preferred(net, Some(value), route_at(table, arc.tail)) {
        return Ok(None);
    }
    Ok(Some(path_from(alloc, arc.tail, next.path.as_slice())?))
}

// Whether the row has a route, and the value is worse than that of the route.
fn is_worse(net: &Net, value: &Value, row: Option<&Route>) -> bool
    requires value { In (carrier net.now) (pure_value value.now) }
    requires row { IfSome (option_map (λ r. pure_route r.now) row) (λ r. In (carrier net.now) r.value) }
    ensures { Decides result (IsSomeAnd (option_map (λ r. pure_route r.now) row.entry)
        (λ r. Order (carrier net.now) (pure_value value.now) r.value ≡ Greater)) }
{
    match row {
        Some(route) => order(net.alg(), value, &route.value) == Ordering::Greater,
        None => false,
    }
}

// Whether what the arc offers may be its tail's route or better: the path of its head's route doesn't pass the tail,
// and this value, which it makes of that of its head, is no worse than the tail's.
fn may_matter(net: &Net, table: &DestTable, arc: &Arc<'_>, next: &Route, value: &Value) -> bool
    requires table { TableOf net.now table.now.dest.0 (rows_of table.now) }
    requires next { route_at (rows_of table.now) arc.now.head.0 ≡ Some (pure_route next.now) }
    requires value { along net.now arc.now.tail.0 arc.now.head.0 (value_at (rows_of table.now) arc.now.head.0) ≡
        Some (pure_value value.now) }
    requires value_in { In (carrier net.now) (pure_value value.now) }
    ensures loopless { result ≡ true → is_among (pure_route next.now).path arc.now.tail.0 ≡ false }
    ensures not_made { let reported = route_at (rows_of table.now) in
        result ≡ false → ¬ MadeBy net.now reported arc.now.tail.0 arc.now.head.0 }
    ensures not_outdone { let reported = route_at (rows_of table.now) in
        result ≡ false → ¬ OutdoneBy net.now reported arc.now.tail.0 arc.now.head.0 }
{
    !passes(next, arc.tail) && !is_worse(net, value, route_at(table, arc.tail))
}

// What the arc shows of its tail's row by what it offers, if that is wanted: this value is what it makes of that of its
// head. The path is copied only where the value is no worse than the row's.
fn offer_of_arc(
    alloc: Global,
    net: &Net,
    table: &DestTable,
    arc: &Arc<'_>,
    next: &Route,
    value: Value,
    wanted: Wanted,
) -> Result<OfferFindings, NoMemory>
    requires table { TableOf net.now table.now.dest.0 (rows_of table.now) }
    requires next { route_at (rows_of table.now) arc.now.head.0 ≡ Some (pure_route next.now) }
    requires value { along net.now arc.now.tail.0 arc.now.head.0 (value_at (rows_of table.now) arc.now.head.0) ≡
        Some (pure_value value) }
    requires value_in { In (carrier net.now) (pure_value value) }
    ensures made { let reported = route_at (rows_of table.now) in
        wanted.stable ≡ true → IfOk result (λ found. Decides found.is_made
        (MadeBy net.now reported arc.now.tail.0 arc.now.head.0)) }
    ensures better { let reported = route_at (rows_of table.now) in
        wanted.stable ≡ true → IfOk result (λ found. MatchOption found.better
        (¬ OutdoneBy net.now reported arc.now.tail.0 arc.now.head.0)
        (λ s. IsBetterOffer net.now table.now.dest.0 (rows_of table.now) arc.now.tail.0 (pure_route s))) }
{
    if !wanted.stable || !may_matter(net, table, arc, next, &value) {
        return Ok(OfferFindings {
            is_made: false,
            better: None,
        });
    }
    let path = path_from(alloc, arc.tail, next.path.as_slice())?;
    Ok(weighed(net, Some(Route { value, path }), route_at(table, arc.tail)))
}

/// What the arc shows of its tail's row. Its label is applied once.
pub fn judge_arc(
    alloc: Global,
    net: &Net,
    table: &DestTable,
    arc: &Arc<'_>,
    wanted: Wanted,
) -> Result<RowFindings, NoMemory>
    requires net { IsNet net.now }
    requires table { TableOf net.now table.now.dest.0 (rows_of table.now) }
    requires arc { label_between net.now arc.now.tail.0 arc.now.head.0 ≡ Some (pure_label arc.now.label.now) }
    ensures beating { wanted.optimal ≡ true → IfOk result (λ found. MatchOption found.beating
        (¬ ImprovedBy net.now (rows_of table.now) arc.now.tail.0 arc.now.head.0)
        (λ walk. IsBeatenBy net.now table.now.dest.0 (rows_of table.now) arc.now.tail.0 (numbers walk))) }
    ensures made { let reported = route_at (rows_of table.now) in
        wanted.stable ≡ true → IfOk result (λ found. Decides found.offers.is_made
        (MadeBy net.now reported arc.now.tail.0 arc.now.head.0)) }
    ensures better { let reported = route_at (rows_of table.now) in
        wanted.stable ≡ true → IfOk result (λ found. MatchOption found.offers.better
        (¬ OutdoneBy net.now reported arc.now.tail.0 arc.now.head.0)
        (λ s. IsBetterOffer net.now table.now.dest.0 (rows_of table.now) arc.now.tail.0 (pure_route s))) }
{
    let Some(next) = route_at(table, arc.head) else {
        return Ok(RowFindings::nothing());
    };
    let Some(value) = arc_value(alloc, net, table, arc)? else {
        return Ok(RowFindings::nothing());
    };
    Ok(RowFindings {
        beating: walk_of_arc(alloc, net, table, arc, next, &value, wanted)?,
        offers: offer_of_arc(alloc, net, table, arc, next, value, wanted)?,
    })
}
