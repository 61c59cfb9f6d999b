//! The judge of certificates: it reads a text line by line, keeps no line, and says the first judgement that fails.
#![tactic(auto)]

pub mod checking;
pub mod documents;
pub mod judge;
pub mod judged;
mod kept;
mod leaf_sums;
mod path;

pub use checking::{CheckError, LONGEST_TEXT, check_text};
pub use documents::check;
pub use judge::Judge;
pub use judged::{Checked, Judged, Verdict};
