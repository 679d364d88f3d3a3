//! Reads network files: the nodes, arcs, origins and changes that a text gives to an algebra, or the
//! first line that breaks a rule; and the lines and words of any text that is cut as they are. It stands on
//! `net_graph`, `sig_text`, `alg_model` and `meta_base`.
#![tactic(auto)]

mod draft;
mod errors;
mod faults;
mod forms;
mod known;
mod laws;
mod lines;
mod names;
mod network;
mod quick_forms;
mod text_spots;
mod texts;
mod word;

pub use faults::{NetError, NetFault, NetKind, What};
pub use laws::{changes_of_texts_may_be_made, networks_keep_their_algebra, one_text_one_network};
pub use network::{MAX_LINE_BYTES, NetFile, numbers_are_specified, read_net};
pub use texts::{split_line, split_word, without_return};
