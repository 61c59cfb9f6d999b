//! Facts about lists that several crates stand on: first appearance, numbers of items, and lists by key.
#![tactic(auto)]

pub mod counts;
pub mod grouping;
pub mod keyed;
pub mod slots;
pub mod turning;

pub use counts::KeyCounts;
pub use grouping::group;
pub use keyed::KeyedLists;
pub use slots::KeyedSlots;
pub use turning::transpose;
