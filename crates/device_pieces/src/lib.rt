//! Pieces of devices: what stands in one is read without a call of the rack.
#![tactic(auto)]

pub mod piece;

pub use piece::{LONGEST_PIECE, Piece};
