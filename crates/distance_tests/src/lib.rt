//! The tests of distance-vector nodes and of the rows with next hops that they have, by single calls. It stands on
//! `distance_node` and on what tests read.
#![tactic(auto)]

#[cfg(test)]
mod vectors;
