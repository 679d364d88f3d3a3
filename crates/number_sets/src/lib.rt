//! Sets of numbers, a bit for each number: [`NumberSet`]. It stands on `meta_base`, and knows no network.
#![tactic(auto)]

mod number_set;

pub use number_set::NumberSet;
