//! The outside of the program: shelves, from which files are read, and sinks, which take bytes. The
//! real ones adapt the file system and the standard streams; those in memory tell what they hold
//! and fail as planned.
#![tactic(auto)]

mod file_shelf;
mod memory_shelf;
mod memory_sink;
mod pieces;
mod plan;
mod shelf;
mod sink;
mod streams;

pub use file_shelf::FileShelf;
pub use memory_shelf::MemoryShelf;
pub use memory_sink::MemorySink;
pub use pieces::put_text;
pub use plan::FailPlan;
pub use shelf::{Shelf, ShelfFault};
pub use sink::{Sink, SinkFault};
pub use streams::{NoteSink, OutSink};
