//! The tests of what the search for routes keeps: keys (`frontier`) and paths (`path_store`), a file for each. They show
//! what no clause says: that calls succeed. It stands on both.
#![tactic(auto)]

#[cfg(test)]
mod frontiers;
#[cfg(test)]
mod paths;
