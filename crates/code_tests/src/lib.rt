//! The tests of compiled code: `label_code` and `code_gen`, a file for each subject. They show what no clause says:
//! that calls succeed, and that codes, words and what comes of them are those of tables worked out by hand. It stands
//! on every library that it tests.
#![tactic(auto)]

#[cfg(test)]
mod algebras;
#[cfg(test)]
mod codes;
#[cfg(test)]
mod orders;
#[cfg(test)]
mod rows;
#[cfg(test)]
mod texts;
