//! A link that carries items from one thread to another, first in, first out, and loses none: a ring
//! of fixed size, and before it an outbox without a bound. [`link`] makes its two ends, each of which
//! may move to a thread of its own where the items may; [`OutEnd::unsent`] says how many items the ring
//! had no room for yet; [`settle_pair`] brings the ends together again and gives what still waits.
//! [`Local`] is the plain queue in place of a link where both ends stay with one worker. No call takes a
//! lock or waits. It stands on the crate `rtrb`'s ring.
#![tactic(auto)]

mod in_end;
mod local;
mod out_end;
mod pair;

pub use in_end::InEnd;
pub use local::Local;
pub use out_end::OutEnd;
pub use pair::{link, settle_pair};
