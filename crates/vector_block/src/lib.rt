//! Path vector on one worker: all nodes of a network in one store, which keeps what a node reports once for all who listen
//! to it. Its deliveries are the steps of `path_vector`'s kind of node, whose definitions its contracts are in, and it is
//! run by `woven_laws`' trait. It stands on `path_store`, `arc_labels`, `path_vector`, `journal_merge` and `woven_laws`,
//! and on the models of algebras, networks and nodes; it reads no words and prints nothing.
#![tactic(auto)]

mod block;
mod change;
mod choose;
mod ending;
mod look;
mod offer;
mod report;
mod start;
mod store;

pub use block::VectorBlock;
