// Which file a turn adds, and which file a round flips.
ghost use Rattle.std.specs.Prelude.{◌≡◌, ◌<◌, ℕ, length, IfSome, IfNone};
ghost use Rattle.seed_model.specs.Nodes.{IsNode};
ghost use Rattle.greedy_seed.specs.Greedy.{MayAdd, AddsNext, MayFlip, FlipsNext};
ghost use Rattle.greedy_seed.specs.Inside.{IsTally, IsAddition, IsFlip, is_better, better, lighter};

use crate::tally::Tally;
use seed_model::{Node, Range, Table};

/// A file, and the sums of the set with the file flipped.
#[derive(Clone, Copy)]
pub struct Candidate {
    pub file: u32,
    pub migrated: u64,
    pub replicated: u64,
}

/// The file that the next turn adds; None where it may add none.
pub fn next_added(tally: &Tally, table: &Table, range: &Range, pins: &Node) -> Option<u32>
    requires tally { IsTally table.now tally.now }
    requires pins { IsNode table.now.files pins.now }
    ensures found { IfSome result (AddsNext table.now range.now pins.now tally.now.set) }
    ensures none { IfNone result ((file : ℕ) → ¬ MayAdd table.now range.now pins.now tally.now.set file) }
{
    let mut best = None;
    for file in 0..table.files() {
        let next = addition(tally, table, range, pins, file);
        best = better(best, next);
    }
    match best {
        Some(candidate) => Some(candidate.file),
        None => None,
    }
}

/// The file as a candidate of a turn, where it may be added.
fn addition(
    tally: &Tally,
    table: &Table,
    range: &Range,
    pins: &Node,
    file: u32,
) -> Option<Candidate>
    requires tally { IsTally table.now tally.now }
    requires pins { IsNode table.now.files pins.now }
    requires file { file < table.now.files }
    ensures may { IfSome result (λ c. (c.file ≡ file) × IsAddition table.now range.now pins.now tally.now.set c) }
    ensures none { IfNone result (¬ MayAdd table.now range.now pins.now tally.now.set file) }
{
    if tally.set.contains(file) || pins.outside.contains(file) {
        return None;
    }
    let sums = tally.sums_flipped(table, file);
    if sums.migrated > range.high {
        return None;
    }
    Some(Candidate {
        file,
        migrated: sums.migrated,
        replicated: sums.replicated,
    })
}

/// The better of two candidates of a turn; the one kept so far where neither is.
fn better(kept: Option<Candidate>, next: Option<Candidate>) -> Option<Candidate>
    ensures { result ≡ better kept next }
{
    let Some(best) = kept else {
        return next;
    };
    match next {
        Some(candidate) if is_better(candidate, best) => next,
        _ => kept,
    }
}

/// Whether a candidate leaves less replicated than another, or as much and more migrated.
fn is_better(next: Candidate, kept: Candidate) -> bool
    ensures { result ≡ is_better next kept }
{
    next.replicated < kept.replicated
        || (next.replicated == kept.replicated && kept.migrated < next.migrated)
}

/// The file that the next round flips; None where it may flip none.
pub fn next_flipped(tally: &Tally, table: &Table, range: &Range, pins: &Node) -> Option<u32>
    requires tally { IsTally table.now tally.now }
    requires pins { IsNode table.now.files pins.now }
    ensures found { IfSome result (FlipsNext table.now range.now pins.now tally.now.set) }
    ensures none { IfNone result ((file : ℕ) → ¬ MayFlip table.now range.now pins.now tally.now.set file) }
{
    let mut best = None;
    for file in 0..table.files() {
        let next = change(tally, table, range, pins, file);
        best = lighter(best, next);
    }
    match best {
        Some(candidate) => Some(candidate.file),
        None => None,
    }
}

/// The file as a candidate of a round, where it may be flipped.
fn change(tally: &Tally, table: &Table, range: &Range, pins: &Node, file: u32) -> Option<Candidate>
    requires tally { IsTally table.now tally.now }
    requires pins { IsNode table.now.files pins.now }
    requires file { file < table.now.files }
    ensures may { IfSome result (λ c. (c.file ≡ file) × IsFlip table.now range.now pins.now tally.now.set c) }
    ensures none { IfNone result (¬ MayFlip table.now range.now pins.now tally.now.set file) }
{
    if pins.inside.contains(file) || pins.outside.contains(file) {
        return None;
    }
    let sums = tally.sums_flipped(table, file);
    if sums.migrated < range.low || sums.migrated > range.high {
        return None;
    }
    if sums.replicated >= tally.sums.replicated {
        return None;
    }
    Some(Candidate {
        file,
        migrated: sums.migrated,
        replicated: sums.replicated,
    })
}

/// The candidate that leaves less replicated; the one kept so far where both leave the same.
fn lighter(kept: Option<Candidate>, next: Option<Candidate>) -> Option<Candidate>
    ensures { result ≡ lighter kept next }
{
    let Some(best) = kept else {
        return next;
    };
    match next {
        Some(candidate) if candidate.replicated < best.replicated => next,
        _ => kept,
    }
}
