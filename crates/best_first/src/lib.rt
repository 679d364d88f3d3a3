//! Link state: the table of routes to a destination that generalised Dijkstra makes, best first, over any
//! algebra, and the laws of such tables: that there is one at most, and that no walk beats it where
//! labels are monotone and isotone. It stands on `net_graph`, `alg_model` and `arc_labels`; `path_store` keeps
//! the paths, and `frontier` tells which open one is the best.
#![tactic(auto)]

mod fixed;
mod laws;
mod open;
mod route;
mod search;
mod solution;

pub use fixed::{Fixed, FixedRoute};
pub use laws::{best_first_is_optimal, best_first_is_unique, best_first_rows_are_the_networks};
pub use solution::{fixed_between, solve, solve_with, table_of_fixed};
