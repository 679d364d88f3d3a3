//! The top call: what words mean, what a run comes to, and what is written of it. All that the program
//! does happens here; `main` only makes the real outside. It stands on every crate below.
#![tactic(auto)]

mod after;
mod checking;
mod coding;
mod ended;
mod exchanging;
mod flooding;
mod generating;
mod hopping;
mod judging;
mod laws;
mod lending;
mod outcome;
mod phases;
mod putting;
mod reading;
mod routing;
mod rows;
mod running;
mod summing;
mod tabling;
mod task;
mod top;
mod wedging;
mod writing;

pub use command_words::{Command, Required, WordsFault, read_words};
pub use ended::{Answer, Ended, status};
pub use laws::{
    nothing_is_given_up, quiet_exchanges_are_as_good_as_route, quiet_floods_have_the_rows_of_route,
    quiet_runs_end_alike, quiet_runs_have_the_stable_rows, summaries_are_determined,
};
pub use rows::Rows;
pub use top::run_meta;
pub use vector_runs::Phase;
