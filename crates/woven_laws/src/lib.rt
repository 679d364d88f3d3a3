//! What holds of nodes that took messages each by itself, whatever the order of all: a journal that merges what they
//! took replays to where they are, and as many messages wait as were sent and not taken. It stands on `node_core` and
//! on `journal_merge`. It runs no node: what runs all nodes of a network by one worker has a trait of it.
#![tactic(auto)]

mod all_nodes;
mod laws;

pub use all_nodes::AllNodes;
pub use laws::{deliveries_count, histories_count, histories_replay, replays_count};
