//! What a search looks at next, by an order that its user gives and whose comparisons are counted: keys in a binary
//! heap, of which the least is taken first, or slots in a tournament, of which the first is known. It knows no algebra
//! and no network.
#![tactic(auto)]

mod heap;
mod order;
mod sifting;
mod steps;
mod tournament;

pub use heap::Frontier;
pub use order::Order;
pub use steps::Steps;
pub use tournament::Tournament;
