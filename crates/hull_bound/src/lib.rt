//! The relaxation at a node of a search: the least bytes that a weighted mean of two members replicates, with a mix that
//! attains it and multipliers that prove it.
#![tactic(auto)]

pub mod answer;
mod gives;
pub mod laws;
mod minima;
pub mod multipliers;
mod node_net;
pub mod relaxation;
mod search;
pub mod value;

pub use answer::NodeAnswer;
pub use bound_cert::{Give, Gives, Multipliers};
pub use laws::relaxation_laws;
pub use multipliers::multipliers_at;
pub use relaxation::solve_node;
pub use seed_model::{Mix, Node};
pub use value::value_of;
