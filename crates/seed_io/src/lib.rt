//! The outside as the program sees it: shelves of named byte strings, and sinks that take bytes.
#![tactic(auto)]

pub mod folder_shelf;
pub mod lines;
pub mod mem_shelf;
pub mod mem_sink;
mod open_file;
mod read_ahead;
pub mod shelf;
pub mod sink;
pub mod std_sink;
mod streams;
pub mod sure;
pub mod whole;

pub use folder_shelf::FolderShelf;
pub use lines::{LONGEST_LINE, Line, LineError, Lines};
pub use mem_shelf::MemShelf;
pub use mem_sink::MemSink;
pub use shelf::{Shelf, ShelfError};
pub use sink::{Sink, SinkError};
pub use std_sink::StdSink;
pub use sure::{SureShelf, SureSink};
pub use whole::{ReadError, read_all};
