//! Classes of labels: the exact facts of a label, an example for each fact that fails, and lists of such
//! classes, one for each profile that a label of an algebra has. Here stand the definitions that the
//! rules of each operator are proved against, and the laws that these proofs share; and the facts of three
//! actions that labels of several operators have: to send every value to one, to keep every value, and to
//! send every value to none. It stands on `alg_model`.
#![tactic(auto)]

mod class;
mod constants;
mod example;
mod fact;
mod flat;
mod laws;
mod list;
mod pairs;
mod profile;
mod property;
mod worse;

pub use class::{Class, Examples};
pub use constants::{
    constant_examples, constant_profile, denied_profile, kept_examples, kept_profile,
};
pub use example::Example;
pub use fact::Fact;
pub use flat::{flat_carriers_are_found, has_worse, is_flat, worse_values_are_found};
pub use laws::{classes_have_their_profiles, examples_refute};
pub use list::{ClassList, Profiled, has_profile};
pub use pairs::{pair_examples, pair_profile};
pub use profile::Profile;
pub use property::{Instance, Property};
pub use worse::{apart, best, worse_than, worst};
