//! Link state on several workers: the routes of all destinations of a network, made best first, with values in the
//! algebra's own form or in tables. The workers share the destinations, and the routes are the same for any number of
//! them. It stands on `best_first`, which finds the routes of one destination.
#![tactic(auto)]

mod laws;
mod tables;

pub use laws::tables_are_unique;
pub use tables::{MAX_WORKERS, all_fixed, all_tables, numbers_are_specified};
