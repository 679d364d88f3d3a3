//! The printed texts of what the program decides: the lines of verdicts, of rows, of refusals, of runs and of
//! compiled code. It decides nothing, writes nothing out and knows no command. It may stand on each crate whose
//! values or faults it prints.
#![tactic(auto)]

mod code;
mod hop_rows;
mod judged;
mod refusals;
mod rows;
mod runs;
mod summary;
mod tables;
mod verdicts;

pub use code::{Operation, arc_line, code_lines, operation_line, order_line};
pub use hop_rows::push_hop_row_line;
pub use judged::{hops_line, judgement_lines, push_hops_line};
pub use refusals::{Refusal, misses_line, refusal_line};
pub use rows::{push_row_line, row_line};
pub use runs::{end_line, phase_line};
pub use summary::{
    MAX_SUMMED, numbers_are_specified, reach_line, size_line, summary_end_line, summary_lines,
};
pub use tables::{stable_line, table_line};
pub use verdicts::{required_line, verdict_line, verdict_lines};
