//! A list of numbers of 32 bits in blocks: a number is put in or taken out at a place by moving those of one block, and
//! one number for each block behind it.
#![tactic(auto)]

mod block;
pub mod list;
mod shifts;

pub use list::TieredList;
