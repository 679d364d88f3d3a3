//! The tests of algebras, of their labels' classes and of their properties: `alg_model`, the crates from `alg_classes`
//! to `property_infer`, and `net_facts`, a file for each subject. They show what no clause says: that calls succeed,
//! and that plain programs and outside tables agree with them. It stands on every library that it tests.
#![tactic(auto)]

#[cfg(test)]
mod algebras;
#[cfg(test)]
mod classes;
#[cfg(test)]
mod facts;
#[cfg(test)]
mod pairs;
#[cfg(test)]
mod properties;
