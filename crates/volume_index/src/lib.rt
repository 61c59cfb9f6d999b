//! What a volume holds, in memory: its files and their chunks by name, how often each chunk is used, and where it stands.
#![tactic(auto)]

mod chunk_table;
mod file_table;
pub mod holding;
pub mod index;
pub mod laws;

pub use holding::Holding;
pub use index::{Extent, Index, Limit};
