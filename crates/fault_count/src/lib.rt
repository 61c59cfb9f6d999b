//! Counts of faults: how shelves, sinks and racks count the calls that failed.
#![tactic(auto)]

pub mod plan;
pub mod tally;

pub use plan::FaultPlan;
pub use tally::FaultTally;
