//! Which file uses which chunk, both ways: the users of each chunk and the chunks of each file.
#![tactic(auto)]

mod incidence;
pub mod laws;

pub use incidence::Incidence;
pub use laws::incidence_laws;
