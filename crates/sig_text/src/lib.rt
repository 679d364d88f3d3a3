//! The texts of values and labels of an algebra: what spells one, which fault refuses it, and how one is
//! printed. It knows the shapes of literals and no file, line or network, and stands on `meta_base` and
//! `alg_model`.
#![tactic(auto)]

mod bytes;
mod faults;
mod label;
mod laws;
mod parts;
mod print;
mod read;
mod value;

pub use bytes::{MAX_LITERAL_NUMBER, numbers_are_specified};
pub use faults::{LitError, LitFault};
pub use laws::{
    labels_are_reported, labels_are_spelled_or_refused, labels_are_unique,
    one_text_one_label_fault, one_text_one_value_fault, printed_labels_are_read_back,
    printed_values_are_read_back, printed_values_are_read_back_to, spelled_labels_are_labels,
    spelled_labels_are_not_refused, spelled_values_are_not_refused, spelled_values_are_values,
    texts_have_one_spelling, values_are_reported, values_are_spelled_or_refused, values_are_unique,
};
pub use print::{print_label, print_value, push_label, push_value};
pub use read::{read_label, read_value, read_value_to};
