//! The tables of a network with values as words of code and all paths in one store, as the search has them, so that a
//! route takes no memory of its own. It stands on `best_first`, which finds the routes, on `path_store`, which lends
//! their paths, and on `label_code` and `code_gen`, which say what words stand for. It prints nothing.
#![tactic(auto)]

mod found;
mod lent;
mod rows;
mod table;

pub use found::FoundTable;
pub use lent::{LentRoute, LentRow};
pub use rows::WordRows;
pub use table::{TableRow, WordTable};
