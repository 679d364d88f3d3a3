//! What monotone labels give: a table that is made best first is stable, and no other table is. And that nothing less
//! does: over an algebra with a label that isn't monotone, some network of two nodes has two stable tables. It stands
//! on `net_graph`; no code makes a table here.
#![tactic(auto)]

mod laws;

pub use laws::{
    best_first_is_stable, improving_pair_has_two_tables, monotone_verdict_decides_uniqueness,
    pair_is_net, stable_is_unique, stable_rows_are_settled, strict_is_monotone,
    tables_are_unique_exactly_where_labels_are_monotone,
};
