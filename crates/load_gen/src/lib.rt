//! Large recipes from a number: the same number of files and the same number give the same recipe.
#![tactic(auto)]

mod drawing;

pub use drawing::generate;
