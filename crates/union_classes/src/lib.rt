//! Exact facts of the labels of unions, sums and pluses, from those of their parts, and of the labels of left
//! and right products, from the carrier of the part. A union's or a sum's label does one thing to the values
//! of the first side and another to those of the second; what holds of that is proved once, and a union's
//! label is one that denies the other side. It stands on `alg_classes`, where the facts of constant labels
//! stand, and on `alg_model`.
#![tactic(auto)]

mod copying;
mod examples;
mod labels;
mod lefts;
mod pluses;
mod profiles;
mod rights;
mod sums;
mod unions;

pub use lefts::{const_class, const_profile, left_class_list};
pub use pluses::{plus_class_list, plus_first_class, plus_second_class};
pub use profiles::{sum_profile, union_first_profile, union_second_profile};
pub use rights::{keep_class, keep_profile, right_class_list};
pub use sums::{sum_class, sum_class_list};
pub use unions::{union_class_list, union_first_class, union_second_class};
