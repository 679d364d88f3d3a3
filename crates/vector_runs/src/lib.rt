//! Runs of path-vector nodes through the networks of a file, phase by phase, on several workers, over any algebra. One
//! worker on a network that doesn't change keeps all nodes in one store. It stands on `path_vector`, `vector_block`,
//! `node_runs` and `vector_rest`; it reads no words and prints nothing.
#![tactic(auto)]

mod finder;
mod laws;
mod nodes;
mod one_worker;
mod run;

pub use laws::{
    enough_turns_are_quiet, phases_are_of_networks, quiet_phases_are_stable, runs_are_short,
    two_quiet_runs_end_alike,
};
pub use node_runs::{Budget, Journal};
pub use nodes::carried_nodes;
pub use run::{Phase, PhasedRun, run_phases};
