//! Texts of comma-separated rows, read and written row by row.
#![tactic(auto)]

pub mod facts;
mod plain;
pub mod reader;
pub mod writer;

pub use facts::{round_trip, row_facts};
pub use reader::RowReader;
pub use writer::RowWriter;
