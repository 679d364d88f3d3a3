// Equal rows.
ghost use Rattle.std.specs.Prelude.{◌≡◌, map, option_map};
ghost use Rattle.std.specs.Bool.{Decides};
ghost use Rattle.net_graph.specs.Views.{pure_route, pure_row};

use net_graph::{Route, RouteRow};
use stable_check::is_same_route;

// Whether both are one route, or neither is any.
pub(crate) fn are_same_routes(first: Option<&Route>, second: Option<&Route>) -> bool
    ensures { Decides result (option_map (λ r. pure_route r.now) first.entry ≡
        option_map (λ r. pure_route r.now) second.entry) }
{
    match (first, second) {
        (Some(first), Some(second)) => is_same_route(first, second),
        (None, None) => true,
        _ => false,
    }
}

fn is_same_row(first: &RouteRow, second: &RouteRow) -> bool
    ensures { Decides result (pure_row first.now ≡ pure_row second.now) }
{
    first.node == second.node
        && first.dest == second.dest
        && are_same_routes(first.route.as_ref(), second.route.as_ref())
}

/// Whether the rows are the same, in the same order.
pub fn are_same_rows(first: &[RouteRow], second: &[RouteRow]) -> bool
    ensures { Decides result (map pure_row first.now ≡ map pure_row second.now) }
{
    if first.len() != second.len() {
        return false;
    }
    for place in 0..first.len() {
        if !is_same_row(&first[place], &second[place]) {
            return false;
        }
    }
    true
}
