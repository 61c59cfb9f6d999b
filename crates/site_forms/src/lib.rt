//! The forms of a site: its logs and halves, its records, and what they fold to. Definitions that every crate of the
//! moving half cites; their laws are the contracts of functions that do nothing.
#![tactic(auto)]

pub mod examples;
pub mod gates;
pub mod laws;
pub mod names;
pub mod phase;

pub use examples::{short_log_examples, small_log_examples, small_site_example};
pub use gates::{Gate, LONGEST_BODY, gate_of};
pub use laws::{fold_laws, half_laws, log_laws, record_laws, state_laws};
pub use names::Names;
pub use phase::Phase;
