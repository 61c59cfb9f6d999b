//! A site in memory: two volumes and the journal of a migration between them, and every call that puts, moves or reads its
//! files. Whatever a crash leaves of a call is the state behind the first records of its plan.
#![tactic(auto)]

mod acting;
mod appending;
mod beginning;
mod drop_room;
mod dropping;
mod entries;
pub mod errors;
mod moving;
mod opening;
mod putting;
mod reading;
pub mod site;
mod unused;

pub use errors::SiteError;
pub use move_journal::{Names, Phase};
pub use recipe_reader::What;
pub use site::Site;
pub use site_core::{Action, SiteState};
