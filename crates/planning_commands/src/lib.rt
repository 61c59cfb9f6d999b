//! The commands on plans: what each reads, tries and prints.
#![tactic(auto)]

mod answer_text;
pub mod best;
pub mod best_text;
pub mod check;
pub mod checked_text;
pub mod laws;
pub mod merged_table;
mod node_words;
pub mod plan;
mod plan_text;
pub mod ranges;
pub mod reading;
pub mod relax;
mod relax_text;
pub mod weigh;
mod weigh_text;

pub use laws::planning_laws;
