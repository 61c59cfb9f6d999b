//! A set in range found greedily: file by file, then by better flips. It is no best set, but quickly found; beside a
//! certificate it bounds the least replicated bytes from above.
#![tactic(auto)]

mod choice;
pub mod laws;
mod seeding;
mod sharing;
mod tally;
pub mod tried;
mod uses;

pub use laws::greedy_laws;
pub use seeding::greedy;
pub use tried::Tried;
