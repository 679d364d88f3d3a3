//! The nodes of a generated network come to rest within the turns of `demo`, in whatever order deliveries are made. It
//! stands on `rest_laws`, `vector_runs` and `net_gen`; it runs no node.
#![tactic(auto)]

mod laws;

pub use laws::{generated_nets_are_nets, generated_runs_are_quiet, generated_runs_are_short};
