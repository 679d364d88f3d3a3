//! One journal of the deliveries that the nodes of a network took, from logs that they kept each by itself or from one log
//! of all: by clock, and where clocks are equal by node. A [`Journal`] has the deliveries as they were logged, and orders
//! them where they are asked for. It keeps those of each node in their order, and no receipt stands before its sending. It
//! knows no network.
#![tactic(auto)]

mod entry;
mod gathering;
mod journal;
mod laws;
mod log;
mod merging;
mod placing;

pub use entry::NodeDelivery;
pub use journal::Journal;
pub use laws::{keeps_each_log, logs_have_one_journal, receipts_follow_sendings};
pub use log::NodeLog;
