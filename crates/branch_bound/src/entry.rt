// The nodes of a search as they are kept.
use seed_model::{Mix, PlanSet};

/// How a node was made: of which node, and on which side a file of it was put.
#[derive(Clone, Copy, Drop)]
pub(crate) struct Origin {
    pub parent: u32,
    pub file: u32,
    pub inside: bool,
}

/// The relaxation at a node: its mix, the slope `p / q` of its multipliers, and the bytes that the mix replicates, times
/// its weight. The multipliers are made anew where they are written.
#[derive(Drop)]
pub(crate) struct Relaxation {
    pub mix: Mix,
    pub p: u64,
    pub q: u64,
    pub worth: u128,
}

/// What was found at a node.
#[derive(Drop)]
pub(crate) enum Finding {
    Low,
    High,
    Valued(Relaxation),
}

/// A node: how it was made, what was found, the file on which it is branched, if it is, and the number of the node behind
/// it in preorder.
#[derive(Drop)]
pub(crate) struct Entry {
    pub origin: Option<Origin>,
    pub finding: Finding,
    pub file: Option<u32>,
    pub next: Option<u32>,
}

/// A plan: a set in range, with its sums.
#[derive(Drop)]
pub(crate) struct Kept {
    pub set: PlanSet,
    pub migrated: u64,
    pub replicated: u64,
}
