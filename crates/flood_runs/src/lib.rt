//! Floods: new flooding nodes of a network on several workers, until nothing is on its way or all turns are used up, and
//! the rows that they compute then, as the command `flood` gives them. It stands on `flood_node` and `node_runs`; it
//! reads no words and prints nothing.
#![tactic(auto)]

mod finder;
mod laws;
mod run;

pub use laws::{
    flood_rows_are_the_networks, floods_are_spent_exactly, quiet_floods_are_link_states,
};
pub use node_runs::{Budget, Journal};
pub use run::{FloodRun, new_nodes, run_flood};
