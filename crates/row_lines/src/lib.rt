//! The lines of the rows of a network, written one after another in the same room: of rows, and of rows that a table
//! with values as words lends. It stands on `sig_text` and `word_text`, which print values, and on `word_tables`, whose
//! rows these are. It prepares the names of nodes and destinations for these lines and others, and writes to no sink.
#![tactic(auto)]

mod names;
mod row_lines;

pub use names::Names;
pub use row_lines::RowLines;
