//! Judges tables of routes that anybody made: reads a report of them over a network, and says whether no walk beats
//! their routes and whether they are stable; and for a table lists all next hops that are equally good. It makes no
//! table and knows no command. It stands on `stable_check`, `net_facts`, `arc_labels`, `topology_file` for
//! lines and words, `sig_text`, and what these stand on.
#![tactic(auto)]

mod arcs;
mod compiled;
mod draft;
mod faults;
mod found;
mod hops;
mod judgement;
mod judging;
mod laws;
mod lines;
mod look;
mod report;
mod rows;

pub use faults::{ReportError, ReportFault, ReportKind};
pub use hops::{ManyHops, best_hops};
pub use judgement::{Judgement, OptimalFinding, StableFinding};
pub use judging::judge;
pub use report::{MAX_REPORT_BYTES, numbers_are_specified, read_report};
