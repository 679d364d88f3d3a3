// Rows as a command found them.
use meta_base::List;
use net_graph::RouteRow;
use word_tables::WordRows;

/// Rows of routes, for each destination in order, each node in order.
#[derive(Debug, Drop)]
pub enum Rows {
    /// Each with a value and a path of its own.
    Listed(List<RouteRow>),
    /// By tables whose values are words of code.
    Words(WordRows),
}
