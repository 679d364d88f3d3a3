//! Routing algebras: what their values and labels are, which value is preferred, and what a label
//! makes of a value. Here also stand the formation rules, the properties of labels, what violates one,
//! what makes verdicts exact, and the printed texts of values and labels, since everything above cites
//! them. It knows no network and reads no text, and stands on `meta_base` alone.
#![tactic(auto)]

mod alg;
mod algebra;
mod application;
mod carrier;
mod comparing;
mod copying;
mod edition;
mod form;
mod formation;
mod laws;
mod membership;
mod names;
mod placing;
mod preference;
mod tree;

pub use alg::{
    Alg, MAX_INSTANCE_NUMBER, MAX_MARKS, MAX_SIMPLE_SYMBOLS, MAX_TABLE_NAMES, MAX_TREE_NODES,
    MAX_VALUE_NUMBER, Shape, numbers_are_specified,
};
pub use algebra::{Algebra, TreeAlgebra};
pub use application::apply;
pub use carrier::{carrier_of, have_same_carrier, same_carrier, tree_carrier};
pub use comparing::{is_at_most, same_value};
pub use edition::{
    Edition, EditionLimits, MAX_LABEL_NUMBER, editions_are_alike, labels_are_bounded,
};
pub use form::{Form, LabelForm, Shaped};
pub use laws::{
    carriers_are_carriers, images_are_bounded, images_are_values, preference_is_total_preorder,
    scoped_is_a_union_of_lexical_products, violations_refute,
};
pub use membership::{label_in, value_in};
pub use names::{Named, place_of};
pub use placing::apply_into;
pub use preference::{order, rank_at};
pub use tree::{Amount, Carrier, Label, TableRow, TableSpec, Tree, Value};
