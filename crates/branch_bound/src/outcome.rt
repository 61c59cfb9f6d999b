// What is told of a search whose certificate was written.
use bound_cert::Answer;
use seed_model::PlanSet;

/// What a certificate says: its answer, the plan with the bytes that it migrates and replicates, the bytes that every
/// plan replicates at least, and the number of its branchings. Without a plan the two sums are 0.
#[derive(Drop)]
pub struct Outcome {
    pub answer: Answer,
    pub plan: Option<PlanSet>,
    pub migrated: u64,
    pub replicated: u64,
    pub bound: Option<u64>,
    pub branchings: u32,
}

/// Why a search left no whole certificate.
#[derive(Clone, Copy, Debug, PartialEq, Eq)]
pub enum PlanError {
    /// A call of the shelf failed.
    Fault,
    /// Memory ran out.
    Memory,
}
