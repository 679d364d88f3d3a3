//! Distance vector on a network: its new distance-vector nodes on several workers, until nothing is on its way or all
//! turns are used up, and the rows with next hops that they have then, as the command `distance` gives them. It stands on
//! `distance_node`, `weave` and `node_runs`; it reads no words and prints nothing.
#![tactic(auto)]

mod laws;
mod run;

pub use distance_node::HopRow;
pub use laws::{
    distance_rows_are_the_networks, quiet_hops_lead_along_best_walks, quiet_values_are_link_states,
};
pub use run::{DistanceRun, run_distance};
pub use weave::{Budget, Journal};
