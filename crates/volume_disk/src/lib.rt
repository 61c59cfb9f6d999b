//! Six devices that keep their bytes past a crash: what each call does, and what a crash at any moment may leave.
#![tactic(auto)]

mod device;
mod device_file;
pub mod folder_rack;
pub mod handover;
pub mod mem_rack;
pub mod pick;
pub mod rack;
mod recorded;
mod site_folder;
mod turn;

pub use folder_rack::FolderRack;
pub use handover::hand_over;
pub use mem_rack::MemRack;
pub use pick::Pick;
pub use rack::{Rack, RackError};
