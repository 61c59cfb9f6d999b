//! The commands that draw a recipe, or choose a set of files greedily, with what a certificate shows beside it.
#![tactic(auto)]

pub mod drawing;
mod drawing_text;
pub mod gap;
mod gap_text;
pub mod greedy;
mod greedy_text;
pub mod laws;
mod seeking;

pub use laws::trial_laws;
