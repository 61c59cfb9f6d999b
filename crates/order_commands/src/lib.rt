//! The commands on the order of a recipe's files: one sorts a recipe, one carries a plan to a recipe in another order.
#![tactic(auto)]

pub mod carry;
pub mod laws;
pub mod sort;

pub use laws::order_command_laws;
