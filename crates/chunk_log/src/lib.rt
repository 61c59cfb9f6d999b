//! Gated logs: one record more or none, whatever a crash leaves.
#![tactic(auto)]

pub mod errors;
pub mod example;
pub mod forces;
pub mod frame;
pub mod gated_log;
mod gates;
pub mod half_writer;
pub mod laws;
mod opening;
pub mod place;
pub mod retiring;
pub mod switching;
mod writing;

pub use errors::{AppendError, LogError};
pub use example::three_appends;
pub use forces::{in_force, open_place, open_place_by};
pub use frame::Frame;
pub use gated_log::Log;
pub use half_writer::HalfWriter;
pub use laws::place_laws;
pub use place::Place;
pub use retiring::retire;
pub use site_forms::LONGEST_BODY;
pub use switching::switch_halves;
