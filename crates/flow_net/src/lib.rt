//! Greatest flows in nets of pipes, and the smallest and largest source sides of the cuts that bound them.
#![tactic(auto)]

pub mod amounts;
pub mod counter;
pub mod cuts;
pub mod laws;
mod levels;
mod links;
pub mod network;
mod phases;
pub mod pipes;
mod powers;
mod problem;
mod run;
mod scratch;
mod trails;

pub use amounts::Filling;
pub use counter::Steps;
pub use cuts::{FlowCut, max_flow};
pub use laws::flow_laws;
pub use network::Net;
pub use pipes::{Pipe, Use};
