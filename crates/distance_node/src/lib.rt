//! Distance vector (Bellman-Ford, as the RIP of RFC 2453 runs it) over any algebra: nodes that tell their values without
//! paths, the rows with next hops that they choose, and what holds of every machine of such nodes. It stands on
//! `node_core`, whose machines run the nodes, on `arc_labels`, which lends the labels, on `best_first` and
//! `settled_laws`, with whose laws the values of quiet machines are compared, and on `net_graph`; nothing in it knows of
//! paths that are sent, or of threads.
#![tactic(auto)]

mod answering;
mod beginning;
mod choosing;
mod chosen;
mod fresh;
mod laws;
mod mark;
mod node;
mod own;
mod rows;
mod settling;
mod site;
mod telling;
mod vector;

pub use fresh::new_nodes;
pub use laws::{
    drained_rows_are_choices, next_hops_lead_along_best_walks, quiet_values_are_link_states,
    quiet_values_are_optimal, runs_are_coherent,
};
pub use mark::Mark;
pub use node::DvNode;
pub use rows::{HopRow, hop_rows};
pub use vector::Vector;
