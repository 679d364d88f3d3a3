//! The book in which workers count the updates that they send and take. The exact numbers are those
//! of the workers' shares, which [`Book::gather`] adds up once the workers have ended. The running
//! totals, which all workers see, only let a worker end its part early.
#![tactic(auto)]

mod book;
mod totals;

pub use book::{Book, MAX_BASE, MAX_SHARE, MAX_WORKERS, Share, numbers_are_specified};
pub use totals::{Sight, Totals};
