//! Path vector: nodes that tell each other their rows, over any algebra, and what holds of every machine of
//! such nodes. It stands on `node_core`, `path_store`, `arc_labels`, `net_graph` and `alg_model`.
#![tactic(auto)]

mod beginning;
mod choosing;
mod fitting;
mod heard;
mod hearing;
mod keeping;
mod known;
mod labels;
mod laws;
mod marks;
mod neighbour;
mod neighbours;
mod node;
mod node_path;
mod offer;
mod own;
mod paths;
mod rechoosing;
mod reporting;
mod rows;
mod same_arcs;
mod shared;
mod site;
mod update;

pub use laws::{
    carried_nodes_may_begin, drained_machines_are_stable, new_nodes_may_begin,
    quiet_runs_are_stable, runs_are_coherent,
};
pub use node::PvNode;
pub use node_path::NodePath;
pub use rows::rows_of;
pub use shared::Shared;
pub use update::{SharedRoute, Update};
