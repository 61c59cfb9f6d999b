//! What may happen to a site: the next action of a migration, the events, and the laws that hold over every list of them.
#![tactic(auto)]

pub mod action;
pub mod cursor;
pub mod fit;
pub mod laws;
mod merged;
pub mod next;
mod search;
pub mod state;
mod step;

pub use action::Action;
pub use cursor::Cursor;
pub use fit::fits;
pub use laws::{memory_laws, site_laws};
pub use next::{next_action, next_from};
pub use state::SiteState;
