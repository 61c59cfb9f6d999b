// The rules on a branching.
ghost use Rattle.std.specs.Prelude.{◌≡◌, ◌+◌, ◌*◌, ◌<◌, ◌≤◌, ◌^◌, ◌↔◌, length, true, IfSome, IfNone, IsTrue};
ghost use Rattle.seed_model.specs.Differences.{IsFirstDifference};
ghost use Rattle.seed_model.specs.Nodes.{IsMix, ReplicatesUpTo, is_free, mixed_migrated, weight_of};
ghost use Rattle.seed_model.specs.Ranges.{IsRange};
ghost use Rattle.bound_cert.specs.Judgements.{Told, node_of};
ghost use Rattle.bound_cert.specs.Lines.{Branch};
ghost use Rattle.bound_cert.specs.Sets.{IsSetOf, mix_named};
ghost use Rattle.cert_rules.specs.Judged.{Judges};

use crate::numbers::{DIFFERENCE, MIXING, WIDTH};
use crate::sets::{fill_named, is_member};
use seed_model::{Mix, Node, PlanSet, Range, Table, first_difference, migrated, replicated};
use seed_ratio::mix_le;

/// What the line of a branching says: its file, and two sets with their weights. The sets stand as their texts.
#[derive(Clone, Copy, Debug)]
pub struct Branching<'a> {
    pub file: u32,
    pub first: &'a [u8],
    pub second: &'a [u8],
    pub alpha: u64,
    pub beta: u64,
}

/// Judges the line of a branching by the rules 2, 6 and 7, with the range, the bound if there is one, and the node in
/// work. Its sets and weights are read into a mix that is lent.
pub fn judge_branch(
    table: &Table,
    range: &Range,
    bound: Option<u64>,
    node: &Node,
    line: &Branching<'_>,
    mix: &mut Mix,
) -> Option<u8>
    requires range { IsRange range.now }
    requires bound { IfSome bound (λ z. z < 2 ^ 51) }
    requires inside { length node.now.inside ≡ table.now.files }
    requires outside { length node.now.outside ≡ table.now.files }
    requires alpha { line.now.alpha < 2 ^ 51 }
    requires beta { line.now.beta < 2 ^ 51 }
    requires first { length mix.old.first ≡ table.now.files }
    requires second { length mix.old.second ≡ table.now.files }
    ensures judged { (told : Told) → told.range ≡ range.now → told.bound ≡ bound → node_of table.now.files told ≡ node.now → Judges table.now told (Branch line.now.file line.now.first.now line.now.second.now line.now.alpha line.now.beta) result }
    ensures first_stays { length mix.new.first ≡ table.now.files }
    ensures second_stays { length mix.new.second ≡ table.now.files }
{
    if !name_mix(line, mix) {
        return Some(WIDTH);
    }
    if !is_difference(node, &mix.first, &mix.second, line.file) {
        return Some(DIFFERENCE);
    }
    if !is_mixed(table, range, bound, node, mix) {
        return Some(MIXING);
    }
    None
}

// Reads the sets and weights of a branching into a mix. False where a word names no set of as many files.
fn name_mix(line: &Branching<'_>, mix: &mut Mix) -> bool
    requires { length mix.old.first ≡ length mix.old.second }
    ensures named { IsTrue result ↔ (IsSetOf (length mix.old.first) line.now.first.now × IsSetOf (length mix.old.first) line.now.second.now) }
    ensures mix { result ≡ true → mix.new ≡ mix_named (length mix.old.first) line.now.first.now line.now.second.now line.now.alpha line.now.beta }
    ensures first_stays { length mix.new.first ≡ length mix.old.first }
    ensures second_stays { length mix.new.second ≡ length mix.old.first }
{
    mix.alpha = line.alpha;
    mix.beta = line.beta;
    fill_named(line.first, &mut mix.first) && fill_named(line.second, &mut mix.second)
}

// Whether a file is free at a node, and the first in which two sets differ.
fn is_difference(node: &Node, one: &PlanSet, other: &PlanSet, file: u32) -> bool
    requires same { length one.now ≡ length other.now }
    requires inside { length node.now.inside ≡ length one.now }
    requires outside { length node.now.outside ≡ length one.now }
    ensures { IsTrue result ↔ ((is_free node.now file ≡ true) × IsFirstDifference one.now other.now file) }
{
    match first_difference(one, other) {
        Some(first) => first == file && !node.inside.contains(file) && !node.outside.contains(file),
        None => false,
    }
}

// Whether two sets with their weights are a mix of a node that replicates no more than the bound, if there is one.
fn is_mixed(table: &Table, range: &Range, bound: Option<u64>, node: &Node, mix: &Mix) -> bool
    requires range { IsRange range.now }
    requires bound { IfSome bound (λ z. z < 2 ^ 51) }
    requires inside { length node.now.inside ≡ table.now.files }
    requires outside { length node.now.outside ≡ table.now.files }
    requires alpha { mix.now.alpha < 2 ^ 51 }
    requires beta { mix.now.beta < 2 ^ 51 }
    requires first { length mix.now.first ≡ table.now.files }
    requires second { length mix.now.second ≡ table.now.files }
    ensures { IsTrue result ↔ (IsMix table.now range.now node.now mix.now × IfSome bound (ReplicatesUpTo table.now mix.now)) }
{
    is_mix(table, range, node, mix) && replicates_up_to(table, mix, bound)
}

// Whether two sets with their weights are a mix of a node.
fn is_mix(table: &Table, range: &Range, node: &Node, mix: &Mix) -> bool
    requires range { IsRange range.now }
    requires inside { length node.now.inside ≡ table.now.files }
    requires outside { length node.now.outside ≡ table.now.files }
    requires alpha { mix.now.alpha < 2 ^ 51 }
    requires beta { mix.now.beta < 2 ^ 51 }
    requires first { length mix.now.first ≡ table.now.files }
    requires second { length mix.now.second ≡ table.now.files }
    ensures { IsTrue result ↔ IsMix table.now range.now node.now mix.now }
{
    is_member(node, &mix.first) && is_member(node, &mix.second) && has_mean(table, range, mix)
}

// Whether there is some weight, and the mean of the migrated bytes is in the range.
fn has_mean(table: &Table, range: &Range, mix: &Mix) -> bool
    requires range { IsRange range.now }
    requires alpha { mix.now.alpha < 2 ^ 51 }
    requires beta { mix.now.beta < 2 ^ 51 }
    requires first { length mix.now.first ≡ table.now.files }
    requires second { length mix.now.second ≡ table.now.files }
    ensures { IsTrue result ↔ ((0 < weight_of mix.now) × (range.now.low * weight_of mix.now ≤ mixed_migrated table.now mix.now) × (mixed_migrated table.now mix.now ≤ range.now.high * weight_of mix.now)) }
{
    let first = migrated(table, &mix.first);
    let second = migrated(table, &mix.second);
    mix.alpha + mix.beta > 0
        && mix_ge(mix.alpha, first, mix.beta, second, range.low)
        && mix_le(mix.alpha, first, mix.beta, second, range.high)
}

// Whether the mean of `a` and `b`, weighted by `alpha` and `beta`, is at least `limit`.
fn mix_ge(alpha: u64, a: u64, beta: u64, b: u64, limit: u64) -> bool
    requires alpha { alpha < 2 ^ 51 }
    requires first { a < 2 ^ 51 }
    requires beta { beta < 2 ^ 51 }
    requires second { b < 2 ^ 51 }
    requires limit { limit < 2 ^ 51 }
    ensures { IsTrue result ↔ (limit * (alpha + beta) ≤ alpha * a + beta * b) }
{
    let mixed = alpha as u128 * a as u128 + beta as u128 * b as u128;
    let weighed = limit as u128 * (alpha as u128 + beta as u128);
    weighed <= mixed
}

// Whether the mean of the replicated bytes is at most the bound, if there is a bound.
fn replicates_up_to(table: &Table, mix: &Mix, bound: Option<u64>) -> bool
    requires bound { IfSome bound (λ z. z < 2 ^ 51) }
    requires alpha { mix.now.alpha < 2 ^ 51 }
    requires beta { mix.now.beta < 2 ^ 51 }
    requires first { length mix.now.first ≡ table.now.files }
    requires second { length mix.now.second ≡ table.now.files }
    ensures { IsTrue result ↔ IfSome bound (ReplicatesUpTo table.now mix.now) }
{
    let Some(bound) = bound else {
        return true;
    };
    let first = replicated(table, &mix.first);
    let second = replicated(table, &mix.second);
    mix_le(mix.alpha, first, mix.beta, second, bound)
}
