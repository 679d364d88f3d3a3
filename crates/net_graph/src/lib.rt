//! Networks, routes and tables: the graph that routes are found on, and what makes a table of routes
//! optimal, relaxed, stable or best first. It stands on `alg_model` and knows no file format.
#![tactic(auto)]

mod arcs;
mod change;
mod draft;
mod filed;
mod groups;
mod joins;
mod label_marks;
mod label_numbers;
mod laws;
mod limits;
mod names;
mod net;
mod out_arcs;
mod pairs;
mod parts;
mod route;
mod spots;

pub use arcs::Arc;
pub use change::Change;
pub use draft::NetDraft;
pub use label_marks::LabelMarks;
pub use label_numbers::LabelNumbers;
pub use laws::{changed_networks_are_networks, networks_after_changes_are_networks};
pub use limits::{
    MAX_ARCS, MOST_DESTS, MOST_NODES, editions_are_alike, max_changes, max_dests, max_nodes,
    numbers_are_specified,
};
pub use net::Net;
pub use out_arcs::OutArcs;
pub use parts::Origin;
pub use route::{DestTable, MAX_ROW_NUMBER, Route, RouteRow};
