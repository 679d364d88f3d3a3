//! Networks that a seed and a count of nodes settle, written as network files. It reads none; it stands on
//! `topology_file`, and on what that stands on, to prove that each is the text of a network.
#![tactic(auto)]

mod draws;
mod laws;
mod lines;
mod links;
mod network;

pub use laws::{
    generated_texts_are_networks, generated_texts_are_never_refused, generated_texts_are_short,
};
pub use network::{MAX_DEMO_NODES, MIN_DEMO_NODES, network_text, numbers_are_specified};
