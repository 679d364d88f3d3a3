//! The tests of the whole program, from words and files to what is printed, of the workers that find its
//! routes, and of the adapters to the system. They stand apart from those of the layers, so that all are proved
//! at once. It stands on `metacli`, `link_state` and `host_io`.
#![tactic(auto)]

#[cfg(test)]
mod codes;
#[cfg(test)]
mod demos;
#[cfg(test)]
mod distance;
#[cfg(test)]
mod faults;
#[cfg(test)]
mod floods;
#[cfg(test)]
mod gadgets;
#[cfg(test)]
mod gates;
#[cfg(test)]
mod host;
#[cfg(test)]
mod judged;
#[cfg(test)]
mod program;
#[cfg(test)]
mod required;
#[cfg(test)]
mod routes;
#[cfg(test)]
mod runs;
#[cfg(test)]
mod settled;
#[cfg(test)]
mod stable;
#[cfg(test)]
mod tables;
