//! Classes of chunks: all chunks with one set of users, taken together.
#![tactic(auto)]

mod classes;
pub mod laws;
mod user_list;

pub use classes::merge;
pub use laws::merge_laws;
