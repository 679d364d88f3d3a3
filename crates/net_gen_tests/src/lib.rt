//! The tests of the texts of generated networks: that `net_gen` writes those worked out by hand. They show what no
//! clause says: that the call succeeds. It stands on the library that it tests.
#![tactic(auto)]

#[cfg(test)]
mod generated;
