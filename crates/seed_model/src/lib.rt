//! The planning problem: tables of classes, sets of files, their sums, and what is best among the sets in range; and
//! how numbers are spelled.
#![tactic(auto)]

pub mod best;
pub mod limits;
pub mod memory;
pub mod node;
pub mod numbers;
pub mod plan_set;
pub mod range;
pub mod sums;
pub mod table;

pub use best::try_all;
pub use limits::limit_laws;
pub use memory::NoMemory;
pub use node::{Mix, Node, node_laws, undecided};
pub use numbers::{number_laws, read_number, write_number};
pub use plan_set::{PlanSet, are_apart, first_difference, is_within};
pub use range::{Range, range_of};
pub use sums::{in_range, migrated, replicated, sum_laws, touched};
pub use table::{Class, Table, Users};
