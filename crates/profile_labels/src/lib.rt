//! Labels of an algebra, with their profiles and with no examples: one for each profile that a label has, or only those
//! that decide which properties all labels have. They are outlined by those of its parts, by induction over the tree.
//! It stands on `alg_classes` and the crates of classes, whose rules of profiles it goes by.
#![tactic(auto)]

mod covering;
mod deciding;
mod extreme;
mod joint;
mod labelled;
mod leaves;
mod outline;
mod outlined;
mod part;
mod parts;
mod step;

pub use covering::covering_labels;
pub use deciding::deciding_labels;
pub use labelled::Labelled;
