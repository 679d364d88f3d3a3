//! The system's files as a [`meta_base::Shelf`], and standard output as a [`meta_base::Sink`]. What
//! they hold is trusted to the system, so these tell nothing of bytes, and keep their counts. It
//! stands on the traits of `meta_base`, and knows nothing of what is read or written.
#![tactic(auto)]

mod files;
mod output;

pub use files::FileShelf;
pub use output::OutSink;
