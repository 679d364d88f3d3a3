//! The labels on a network's arcs in an algebra's own form, by the nodes at the arcs' ends, each made once for all arcs
//! that have it; and what a label makes of a value. It stands on `alg_model` and `net_graph`, and looks for no route.
#![tactic(auto)]

mod forms;
mod image;
mod neighbours;

pub use forms::{LabelForms, label_forms};
pub use image::image_into;
pub use neighbours::{Neighbour, NeighbourLabels, listener_labels, speaker_labels};
