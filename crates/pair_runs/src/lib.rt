//! Why nothing less than monotone labels makes runs end: where a label makes a value better, the nodes of the pair can
//! make any number of deliveries. It stands on `vector_rest` and `settled_laws`; it runs no node.
#![tactic(auto)]

mod laws;

pub use laws::{improving_pair_never_rests, runs_are_bounded_exactly_where_labels_are_monotone};
