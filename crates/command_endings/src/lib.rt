//! How commands end: what they find outside, what they read and create there, and what they leave.
#![tactic(auto)]

pub mod creating;
pub mod limits;

pub use creating::create_with;
pub use limits::limit_laws;
