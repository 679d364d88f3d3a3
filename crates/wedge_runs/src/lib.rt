//! Path-vector nodes have a memory: on a network to which two changes lead back, they come to other routes than before.
//! It stands on `vector_runs`; it runs no node.
#![tactic(auto)]

mod laws;

pub use laws::wedge_has_a_memory;
