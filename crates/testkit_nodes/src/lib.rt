//! What the tests of nodes and of their machines have in common: the new nodes of a network, the networks of a change
//! script and the nodes that are carried from one to the next, single deliveries on the machine of one thread, and rows
//! that are given by texts. What reads texts promises no more than tests need, so that no test's proof sees heavy
//! contracts. It stands on `vector_runs`, on `stable_check` for equal routes, and on the readers of tests. Tests alone
//! stand on it.
#![tactic(auto)]

mod deliveries;
mod equality;
mod nodes;
mod scripts;
mod texts;

pub use deliveries::make_delivery;
pub use equality::are_same_rows;
pub use nodes::{new_nodes, rows_now};
pub use scripts::{carried_from, change_script, networks_after};
pub use texts::{
    NOTHING, are_rows, dest_of, is_route, is_value, node_of, path_of, route_of, table_of,
};
