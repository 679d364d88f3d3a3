//! Classes of labels of scoped products: the exact facts of a label that acts on the first part and sets
//! the second, and of one that keeps the first part and acts on the second; and the classes of a product
//! from lists that cover its two algebras. It stands on `alg_classes`, where the rule of pairs and the
//! facts of the set and the kept parts stand, and on `alg_model`.
#![tactic(auto)]

mod class;
mod list;

pub use class::{inner_class, inner_profile, outer_class, outer_profile};
pub use list::scoped_class_list;
