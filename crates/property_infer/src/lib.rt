//! The exact verdicts on an algebra, on one of its labels, or on some of them: each of the five properties holds,
//! or an instance shows that it fails. The facts of a label are made from those of its parts, by induction over the
//! tree, and so is the example against one that fails: of the parts, only those examples are made that show it. It
//! stands on `alg_classes`, the crates of classes, and `profile_labels`.
#![tactic(auto)]

mod action;
mod decided;
mod example;
mod labels;
mod laws;
mod pairs;
mod parts;
mod reported;
mod sides;
mod verdict;

pub use decided::{label_verdicts, verdicts};
pub use labels::{add_label, label_profile};
pub use laws::{verdicts_of_covered_labels_are_exact, verdicts_of_covering_labels_are_exact};
pub use reported::{instance_against, verdicts_of};
pub use verdict::{Verdict, Verdicts};
