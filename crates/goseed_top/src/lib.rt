//! The commands of `goseed`: from words to what is printed, answered and left.
#![tactic(auto)]

pub mod command;
mod groups;
pub mod laws;
mod reports;

pub use command::run;
pub use command_texts::Status;
pub use laws::ending_laws;
