//! The tests of how runs end: drawn networks whose labels are monotone, new and changed, under drawn schedules, with
//! the sum of the deliveries that are left computed at each delivery by a plain program of its definition; wrong
//! definitions, whose sums don't fall; and networks on which the deliveries double with each stage. It stands on every
//! library that it tests.
#![tactic(auto)]

#[cfg(test)]
mod drawn;
#[cfg(test)]
mod draws;
#[cfg(test)]
mod family;
#[cfg(test)]
mod measure;
#[cfg(test)]
mod networks;
#[cfg(test)]
mod tables;
#[cfg(test)]
mod tracked;
