//! The machine of label code: labels as lists of operations that turn a row of words into another, and orders as
//! lists of operations that compare two rows. It knows no algebra, and stands on `meta_base` alone.
#![tactic(auto)]

mod fixed;
mod held;
mod in_place;
mod machine;
mod operations;
mod orders;
mod output;
mod pieces;
mod words;

pub use fixed::FixedRow;
pub use held::HeldRow;
pub use machine::{execute, run};
pub use operations::{LabelCode, Op, OrdOp, OrderCode, Row, Run, Word};
pub use orders::{compare, compare_words};
pub use output::Output;
pub use words::{HERE, Words};
