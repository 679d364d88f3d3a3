//! Classes of labels of lexical products: the exact facts of a pair of labels, and the classes of a
//! product from lists that cover its two algebras. It stands on `alg_classes`, where the rule of pairs
//! stands, and on `alg_model`.
#![tactic(auto)]

mod class;
mod list;

pub use class::{lex_class, lex_profile};
pub use list::lex_class_list;
