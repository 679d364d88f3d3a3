//! Reads expression files and prints them. It knows their grammar: which trees of words there are, what
//! they mean, and which fault stands at which token. What an algebra does is `alg_model`'s. It stands on
//! `raml_lex`, `alg_model` and `meta_base`.
#![tactic(auto)]

mod base;
mod definitions;
mod expect;
mod expression;
mod faults;
mod file;
mod forest;
mod heads;
mod laws;
mod maps;
mod nodes;
mod print;
mod table;
mod values;

pub use faults::{AlgError, ExprFault, ExprKind};
pub use file::read_alg;
pub use laws::{
    no_fault_beside_an_algebra, one_text_one_algebra, one_text_one_fault,
    printed_text_means_the_algebra, texts_mean_algebras,
};
pub use print::print_alg;
