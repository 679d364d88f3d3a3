//! What holds of the labels on a network's arcs: which properties a network has, and the first arc that doesn't have
//! one. It stands on `property_infer`, which decides on one label, and on `net_graph`.
#![tactic(auto)]

mod laws;
mod missing;

pub use laws::{first_misses_are_small, first_misses_refute, first_missing_is_unique};
pub use missing::{Missing, first_missing};
