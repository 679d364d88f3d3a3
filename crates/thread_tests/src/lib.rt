//! The tests of what runs on several threads: of links between threads, of the workers' book, of the journal of what
//! they logged, and of runs on several workers. They show what no clause says: that calls succeed, that threads really
//! run at once and pass things on, and what a look at the book shows. It stands on every library that it tests.
#![tactic(auto)]

#[cfg(test)]
mod audits;
#[cfg(test)]
mod book;
#[cfg(test)]
mod draws;
#[cfg(test)]
mod gate;
#[cfg(test)]
mod links;
#[cfg(test)]
mod merge;
#[cfg(test)]
mod phase_audits;
#[cfg(test)]
mod phases;
#[cfg(test)]
mod replays;
#[cfg(test)]
mod runs;
