//! What every crate stands on: lists and texts that contracts see as lists, the ids of a network's
//! parts, and the outside, which is read through a [`Shelf`], written through a [`Sink`] and reported
//! deliveries through a [`Gate`]. It knows no algebra and no format. Beside std it stands
//! on `thiserror` for its errors and on `itoa` for its numbers.
#![tactic(auto)]

pub mod bytes;
mod calls;
mod errors;
mod gate;
mod ids;
mod limits;
mod list;
mod mem_shelf;
mod mem_sink;
mod print;
mod shelf;
mod sink;
mod text;
mod whole;

pub use errors::{Failed, NoMemory, TakeError};
pub use gate::{Gate, OpenGate};
pub use ids::{ArcId, Delivery, DestId, NodeId, Place, Which};
pub use limits::{MAX_FILE_BYTES, MAX_NUMBER, numbers_are_specified};
pub use list::List;
pub use mem_shelf::{MemFile, MemShelf};
pub use mem_sink::MemSink;
pub use print::push_number;
pub use shelf::Shelf;
pub use sink::Sink;
pub use text::Text;
pub use whole::{put_all, take_all};
