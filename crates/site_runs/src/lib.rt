//! Sites that stand for a disk, and runs of appends on them: what a crash at any moment leaves.
#![tactic(auto)]

pub mod laws;

pub use laws::run_laws;
