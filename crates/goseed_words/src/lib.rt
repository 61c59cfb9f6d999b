//! The words of a command line, and the order that they mean.
#![tactic(auto)]

pub mod amount;
pub mod laws;
mod operands;
pub mod order;

pub use amount::Amount;
pub use laws::word_laws;
pub use order::{Order, WordError, order_of};
