//! Undoing a migration: the files that were moving, or have moved, go back to A, and end where the migration began.
#![tactic(auto)]

pub mod laws;
pub mod undoing;

pub use laws::undo_laws;
pub use undoing::{begin_undo, undo_step};
