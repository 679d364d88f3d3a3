//! Checks of a finished table of routes: what a walk weighs, whether two routes are one, and whether a table is
//! relaxed or stable, each exactly, and the law that ties relaxed tables to optimal ones; and the parts of these
//! checks, row by row and arc by arc, for whoever says where a table fails. It makes no table. It stands on
//! `net_graph` and `alg_model`, and on `path_store` for the order of paths.
#![tactic(auto)]

mod equality;
mod laws;
mod lookup;
mod offers;
mod own;
mod relaxed;
mod stable;
mod table;
mod weight;

pub use equality::is_same_route;
pub use laws::relaxed_is_optimal;
pub use lookup::route_at;
pub use offers::{arc_value, makes, outdoes, own_offer, passes, path_from};
pub use own::OwnValues;
pub use relaxed::{has_walk, is_preferred, is_relaxed};
pub use stable::is_stable;
pub use table::is_table_of;
pub use weight::{MAX_WALK_NODES, numbers_are_specified, weight_of};
