ghost use Rattle.std.specs.Prelude.{◌≡◌};
ghost use Rattle.std.specs.Bool.{Decides};
ghost use Rattle.net_graph.specs.Views.{pure_route};

use alg_model::same_value;
use net_graph::Route;
use path_store::compare;
use std::cmp::Ordering;

/// Whether the routes have one value and one path. It takes no memory.
pub fn is_same_route(r: &Route, s: &Route) -> bool
    ensures { Decides result (pure_route r.now ≡ pure_route s.now) }
{
    match compare(r.path.as_slice(), s.path.as_slice()) {
        Ordering::Equal => same_value(&r.value, &s.value),
        Ordering::Less | Ordering::Greater => false,
    }
}
