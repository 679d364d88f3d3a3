//! Phases of runs: nodes of any kind that are begun on a network, and deliveries that one worker makes in turn, or several
//! make at once, each among the nodes of its block, until nothing is on its way or turns are used up. It stands on
//! `node_core`, on `net_graph` and its `alg_model`, and on `woven_laws`, `journal_merge`, `link_queues` and
//! `quiet_ledger`; it knows no route and prints nothing.
#![tactic(auto)]

mod at_once;
mod between;
mod block;
mod dealing;
mod gathering;
mod in_turn;
mod lane;
mod links;
mod order;
mod part;
mod phase;
mod queued;
mod replacing;
mod rounds;
mod seat;
mod seating;
mod sending;
mod started;
mod worker;

pub use in_turn::run_in_turn;
pub use journal_merge::Journal;
pub use phase::{Budget, WeaveEnd, weave};
