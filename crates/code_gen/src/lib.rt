//! The compiler of labels and orders to label code, values as words, and the algebra that runs compiled code.
#![tactic(auto)]

mod algebra;
mod codes;
mod compile;
mod decoding;
mod laws;
mod listing;
mod order;
mod pieces;
mod width;
mod words;

pub use algebra::CodeAlgebra;
pub use codes::LabelCodes;
pub use compile::compile_label;
pub use decoding::decode;
pub use laws::{code_means_application, code_means_order, rows_have_their_width};
pub use listing::Listing;
pub use order::compile_order;
pub use width::row_width;
pub use words::{encode, write_value};
