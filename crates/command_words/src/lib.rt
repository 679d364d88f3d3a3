//! What the words of a command line ask for: the commands with their arguments and flags, and what is wrong
//! with words that ask for none of them. It reads no file and carries nothing out.
#![tactic(auto)]

mod command;
mod list;
mod number;
mod parts;
mod reading;
mod usage;

pub use command::{Command, Required, WordsFault};
pub use reading::read_words;
