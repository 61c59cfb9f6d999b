//! The search for a plan that replicates least, with a certificate of what it found: the waiting node of least value is
//! branched, until no waiting node can hold a better plan or a budget of branchings is spent.
#![tactic(auto)]

mod candidate;
mod ending;
mod entries;
mod entry;
mod found;
mod kept;
mod lines;
pub mod outcome;
pub mod plan;
pub mod searching;
mod state;
mod visits;
mod waiting;
mod writing;

pub use outcome::{Outcome, PlanError};
pub use plan::plan_to;
pub use searching::search;
