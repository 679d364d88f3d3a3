//! The paths of routes. A [`Trails`] keeps each path as its first node and the number of the path that goes on from
//! there, and lends it node by node as a [`Trail`]; a [`PathId`] stands for it elsewhere. [`compare`] and [`before`]
//! put paths that are slices in order, and [`Trails::compare`] those of a store: the shorter first, then by the numbers
//! of the nodes. It knows no network and no route.
#![tactic(auto)]

mod order;
mod trails;

pub use order::{before, compare};
pub use trails::{PathId, Trail, Trails};
