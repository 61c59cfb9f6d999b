//! The order of a recipe's files: recipes sorted by shared bytes, and sets of files carried from one order to another.
#![tactic(auto)]

pub mod laws;
pub mod matching;
mod name_table;
pub mod order;
pub mod pins;
pub mod sorting;

pub use laws::{likeness_laws, one_order_laws, order_laws};
pub use matching::{carried, matches};
pub use order::order_of;
pub use pins::{pins_laws, pins_of};
pub use sorting::sorted;
