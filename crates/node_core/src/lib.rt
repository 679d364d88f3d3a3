//! Nodes that exchange messages over the arcs of a network: what a kind of node is, and the machine of one
//! thread that starts given nodes and makes deliveries one by one. It stands on `net_graph`; it knows no
//! route, and no thread.
#![tactic(auto)]

mod config;
mod laws;
mod links;
mod node;
mod stepping;

pub use config::{Config, Delivered, Replayed};
pub use laws::{least_first_is_in_order, replays_run};
pub use node::{MAX_BEGUN, MAX_CLOCK, NodeCore, Outgoing, numbers_are_specified};
