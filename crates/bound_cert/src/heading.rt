// What a certificate claims.
use crate::set_text::SetText;
use seed_model::Range;

/// What a certificate shows: a best plan, that there is none, or a bound that holds for each plan.
#[derive(Clone, Copy, Debug, PartialEq, Eq)]
pub enum Answer {
    Optimal,
    Infeasible,
    Open,
}

/// The files that must go and those that must stay.
#[derive(Drop)]
pub struct Pins {
    pub go: SetText,
    pub stay: SetText,
}

/// A plan with the bytes that it migrates and replicates.
#[derive(Drop)]
pub struct Claimed {
    pub set: SetText,
    pub migrated: u64,
    pub replicated: u64,
}

/// The claim of a certificate: the range of migrated bytes, the pins if it is of version 2, the answer, a plan, and the
/// bytes that every plan replicates at least.
#[derive(Drop)]
pub struct Heading {
    pub range: Range,
    pub pins: Option<Pins>,
    pub answer: Answer,
    pub plan: Option<Claimed>,
    pub bound: Option<u64>,
}
