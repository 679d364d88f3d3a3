//! Lines, and in them the printed texts of values whose words stand in a row. It stands on `code_gen`, which says what
//! words stand for, and makes no value.
#![tactic(auto)]

mod form;
mod line;
mod text;

pub use form::ValueForm;
pub use line::{Line, PathName};
