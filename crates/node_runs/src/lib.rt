//! One phase of nodes of any kind on several workers, and what its nodes come to, as the kind's finder finds it. It
//! stands on `node_core` and `weave`; it names no kind of node, reads no words and prints nothing.
#![tactic(auto)]

mod finder;
mod run;

pub use finder::Finder;
pub use run::{Ran, run_once};
pub use weave::{Budget, Journal};
