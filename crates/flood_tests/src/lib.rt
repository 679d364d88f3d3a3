//! The tests of flooding nodes and of the rows that they compute, by single calls. It stands on `flood_node` and on what
//! tests read.
#![tactic(auto)]

#[cfg(test)]
mod floods;
