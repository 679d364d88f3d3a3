//! The codes of the labels on a network's arcs, each made once, however many arcs have the label: [`arc_codes`]. It stands
//! on `code_gen`, which compiles a label, and on `net_graph`, and prints nothing.
#![tactic(auto)]

mod codes;

pub use codes::arc_codes;
