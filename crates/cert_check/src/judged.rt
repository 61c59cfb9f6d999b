// What a judge says, and what a judged text gives.
ghost use Rattle.std.specs.Prelude.{◌≡◌};
ghost use Rattle.cert_check.specs.Judging.{none_checked as nothing_checked};

use bound_cert::Answer;
use seed_model::{Node, PlanSet, Range};

/// What a judge says behind a line, or behind the end of the text.
#[derive(Clone, Copy, Debug, PartialEq, Eq)]
pub enum Judged {
    /// No judgement has failed, and the text has not ended.
    More,
    /// The first judgement that failed, by its line, counted from 1, and the number of its rule.
    Failed { line: u64, rule: u8 },
    /// The text has ended, and no judgement has failed.
    Valid,
}

/// Whether a text is a valid certificate for a table; if not, the first judgement that fails.
#[derive(Clone, Copy, Debug, PartialEq, Eq)]
pub enum Verdict {
    Yes,
    No { line: u64, rule: u8 },
}

/// A verdict on a text, and what a valid text says: its range, the node of its pins if it is of version 2, its answer, the
/// set of its plan with the bytes that it migrates and replicates, its bound, and how many branchings its tree has. Where
/// the verdict is `No`, the range is 0 to 0, the answer `Infeasible`, and the rest is none or 0; without a plan both sums
/// are 0.
#[derive(Drop)]
pub struct Checked {
    pub verdict: Verdict,
    pub range: Range,
    pub pins: Option<Node>,
    pub answer: Answer,
    pub plan: Option<PlanSet>,
    pub migrated: u64,
    pub replicated: u64,
    pub bound: Option<u64>,
    pub branchings: u64,
}

/// What a text that is not valid gives, with the first judgement that fails.
pub(crate) fn none_checked(line: u64, rule: u8) -> Checked
    ensures { result ≡ nothing_checked line rule }
{
    Checked {
        verdict: Verdict::No { line, rule },
        range: Range { low: 0, high: 0 },
        pins: None,
        answer: Answer::Infeasible,
        plan: None,
        migrated: 0,
        replicated: 0,
        bound: None,
        branchings: 0,
    }
}
