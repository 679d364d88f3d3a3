//! The wedge of a label that isn't monotone: a network file of two nodes, in which such a label leaves a memory. It
//! finds a label and a value whose wedge a text can hold, and writes that text. It stands on `property_infer`, which
//! decides whether all labels are monotone, on `report_text` for the line of the verdict, on `settled_laws` for what
//! a wedge is, and on `topology_file` to prove what the text means.
#![tactic(auto)]

mod instance;
mod laws;
mod lines;
mod small;

pub use instance::gadget;
pub use laws::{gadget_texts_are_networks, wedges_are_never_refused};
pub use lines::gadget_lines;
