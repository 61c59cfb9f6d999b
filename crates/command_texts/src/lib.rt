//! What commands print and answer: lines, refusals, reports, and how a command ended.
#![tactic(auto)]

pub mod lines;
pub mod refusal;
pub mod report;
pub mod status;

pub use refusal::Refusal;
pub use report::{Halt, Report, or_halt, refused};
pub use status::Status;
