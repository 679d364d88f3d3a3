//! The tests of the machine that nodes run on, of path-vector nodes, of the checks of finished tables and of the judge of
//! given ones, by single calls: `node_core`, `path_vector`, `stable_check` and `report_check`. They show what no clause
//! says: that calls succeed, and that what they answer is what the rules of routing say of rows that are worked out by
//! hand; and that what tells such rows, `testkit_nodes`, says no to others. It stands on every library that it tests.
#![tactic(auto)]

#[cfg(test)]
mod changed_schedules;
#[cfg(test)]
mod judged;
#[cfg(test)]
mod machines;
#[cfg(test)]
mod nodes;
#[cfg(test)]
mod schedules;
#[cfg(test)]
mod tables;
#[cfg(test)]
mod texts;
