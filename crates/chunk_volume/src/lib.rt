//! Volumes: files and their chunks, kept by a log, and never more in memory than where each chunk stands.
#![tactic(auto)]

pub mod errors;
pub mod examples;
mod framing;
pub mod laws;
mod opening;
mod reading;
mod recipe;
mod records;
pub mod volume;
mod volume_log;

pub use errors::VolError;
pub use examples::small_volume_examples;
pub use laws::volume_laws;
pub use volume::Volume;
pub use volume_index::Holding;
