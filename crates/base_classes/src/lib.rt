//! Exact facts of the labels of base algebras other than tables: a table of rules, each with values that
//! show where a fact fails. It knows no operator, and stands on `alg_model` and `alg_classes`.
#![tactic(auto)]

mod class;
mod examples;
mod list;
mod profile;

pub use class::{base_class, base_example};
pub use list::{BASE_CANDIDATES, base_class_list};
pub use profile::{base_candidate, base_profile, base_tree_profile};
