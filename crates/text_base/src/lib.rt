//! What every crate stands on: bytes, names, places, comments, causes of refusal, limits, and the outside, which is a shelf of
//! named files and a sink of text; the definitions of lines, cards, kept text, pieces, plain trees, values, operations and evaluation.
#![tactic(auto)]

mod bytes;
pub mod chars;
mod disk;
mod format;
pub mod limits;
mod memory_shelf;
mod memory_sink;
mod name;
mod operation;
mod refusal;
mod remarks;
mod shelf;
mod sink;
mod stop_code;

pub use bytes::Bytes;
pub use disk::{DiskShelf, StdSink};
pub use format::{FormatEdit, FormatItem, FormatItems};
pub use memory_shelf::MemoryShelf;
pub use memory_sink::MemorySink;
pub use name::Name;
pub use operation::{Op, RunFault, Value};
pub use refusal::{Cause, Place, Refusal, Refusals, not_built};
pub use remarks::Remarks;
pub use shelf::{Shelf, ShelfRead, ShelfWrite};
pub use sink::{Sink, SinkError};
pub use stop_code::StopCode;
