//! Link state as routers run it (OSPF, RFC 2328): nodes that flood cards, each of which holds one node's own arcs and
//! origins, the rows that each node then computes on the network of its cards, and what holds of every machine of such
//! nodes. The command `flood` runs them, by `flood_runs`. It stands on `node_core`, whose machines run the nodes, on
//! `best_first`, which solves, on `number_sets`, on `rest_laws`, whose budgets bound the runs, and on `net_graph`;
//! nothing in it knows of path-vector nodes or of threads.
#![tactic(auto)]

mod card;
mod laws;
mod node;
mod own_card;
mod reported;
mod rows;
mod telling;

pub use card::{Card, CardArc, CardOrigin, Flooded};
pub use laws::{
    cards_are_true, deliveries_are_counted, drained_nodes_hold_what_they_reach, floods_end,
    machines_hold_true_cards, quiet_rows_are_link_states, reaching_is_tested,
    replayed_nodes_are_ready,
};
pub use node::FloodNode;
pub use rows::flood_rows;
