//! The lines of the deliveries of a run, written one after another in the same room. It stands on `word_text`, whose lines
//! these are, on `row_lines`, which prepares the names of nodes, and on `report_text`, which says what the text of an arc
//! is. It writes to no sink.
#![tactic(auto)]

mod delivery_lines;

pub use delivery_lines::DeliveryLines;
