// The lines of a certificate's text.
use crate::heading::Answer;

/// What a line says, with its sets where they stand in the text.
#[derive(Clone, Copy, Debug)]
pub enum TextLine<'a> {
    Title {
        version: u8,
    },
    Span {
        low: u64,
        high: u64,
    },
    Pinned {
        go: &'a [u8],
        stay: &'a [u8],
    },
    Answered(Answer),
    Planned {
        set: &'a [u8],
        migrated: u64,
        replicated: u64,
    },
    NoPlan,
    Bounded {
        bound: u64,
    },
    NoBound,
    Branch {
        file: u32,
        first: &'a [u8],
        second: &'a [u8],
        alpha: u64,
        beta: u64,
    },
    Low,
    High,
    Leaf {
        p: u64,
        q: u64,
        gives: u32,
    },
    Give {
        class: u32,
        file: u32,
        charge: u128,
        reward: u128,
    },
    End,
}
