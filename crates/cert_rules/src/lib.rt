//! The rules on the lines of a certificate's text: each line is judged by itself, with what the lines before it have
//! told. Nothing is stored, and no memory is taken: sets are read into rooms that the caller lends.
//!
//! An answer is `None` where a line keeps every rule on it, and else the number of the first that it breaks.
#![tactic(auto)]

ghost use Rattle.cert_rules.specs.Judged.{UnruledKeepAll};

pub mod branching;
pub mod closing;
pub mod heading;
pub mod numbers;
mod sets;
pub mod users;

pub use branching::{Branching, judge_branch};
pub use closing::{judge_high, judge_low};
pub use heading::{judge_bound, judge_pins, judge_plan};
pub use users::is_used;

/// The lines on which there is no rule: the title, the range, the answer, no plan, and the end.
pub fn unruled_laws()
    ensures { UnruledKeepAll }
{}
