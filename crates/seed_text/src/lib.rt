//! Texts of sets of files, one spelling for each set.
#![tactic(auto)]

ghost use Rattle.seed_text.specs.SetTexts.{OneSpelling};

pub mod read;
pub mod set_word;
pub mod write;

pub use read::{fill_set, read_set};
pub use set_word::{is_set_word, set_word_laws};
pub use write::write_set;

/// No two sets of as many files have one text.
pub fn set_text_laws()
    ensures one_spelling { OneSpelling }
{}
