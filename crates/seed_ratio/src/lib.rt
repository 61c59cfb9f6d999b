//! Fractions of whole numbers: how they compare, their ceilings, their lowest terms, and weighted means.
#![tactic(auto)]

pub mod fractions;
pub mod means;

pub use fractions::{ceiling, compare, lowest};
pub use means::mix_le;
