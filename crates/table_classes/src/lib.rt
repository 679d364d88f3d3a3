//! Exact facts of the rows of a table algebra. A table has few values, so each fact of a row is tried on
//! every value or every pair of values. It knows no other algebra, and stands on `alg_model` and
//! `alg_classes`.
#![tactic(auto)]

mod class;
mod fact;
mod found;
mod list;
mod row;
mod search;

pub use class::{table_class, table_example, table_profile, table_tree_profile};
pub use list::{table_class_list, table_row_count};
