// The rules on the pins, the plan and the bound.
ghost use Rattle.std.specs.Prelude.{◌≡◌, length, Option, Some, IfNone, IsTrue, ◌↔◌, option_map};
ghost use Rattle.seed_model.specs.Files.{holds};
ghost use Rattle.seed_model.specs.Nodes.{IsNode, IsMember};
ghost use Rattle.seed_model.specs.Ranges.{IsRange};
ghost use Rattle.seed_model.specs.Sums.{migrated_of, replicated_of};
ghost use Rattle.seed_model.specs.Tables.{TableValue};
ghost use Rattle.bound_cert.specs.declared.heading.Claimed.{Claimed};
ghost use Rattle.bound_cert.specs.Documents.{bound_entry};
ghost use Rattle.bound_cert.specs.Judgements.{Told};
ghost use Rattle.bound_cert.specs.Lines.{Pinned, Planned};
ghost use Rattle.bound_cert.specs.Sets.{root_of, set_named};
ghost use Rattle.bound_cert.specs.Valid.{Agrees};
ghost use Rattle.cert_rules.specs.Judged.{Judges};

use crate::numbers::{ANSWERING, APART, IN_REACH, PINNING, SUMS, WIDTH};
use crate::sets::{fill_named, is_member};
use bound_cert::Answer;
use seed_model::{Node, PlanSet, Range, Table, are_apart, in_range, migrated, replicated};

/// Judges the line of the pins by the rules 2 and 13, and reads them into a node that is lent: behind `None` it is the
/// root of the tree, with the files that go inside and those that stay outside.
pub fn judge_pins(table: &Table, go: &[u8], stay: &[u8], root: &mut Node) -> Option<u8>
    requires inside { length root.old.inside ≡ table.now.files }
    requires outside { length root.old.outside ≡ table.now.files }
    ensures judged { (told : Told) → Judges table.now told (Pinned go.now stay.now) result }
    ensures root { IfNone result (root.new ≡ root_of table.now.files (Some (record { go = go.now; stay = stay.now }))) }
    ensures node { IfNone result (IsNode table.now.files root.new) }
    ensures inside_stays { length root.new.inside ≡ table.now.files }
    ensures outside_stays { length root.new.outside ≡ table.now.files }
{
    if !fill_named(go, &mut root.inside) {
        return Some(WIDTH);
    }
    if !fill_named(stay, &mut root.outside) {
        return Some(WIDTH);
    }
    if !are_apart(&root.inside, &root.outside) {
        return Some(APART);
    }
    None
}

/// Judges the line of a plan by the rules 2, 4, 5 and 14, with the range and the root of the tree. The plan is read into
/// a set that is lent, and behind `None` it is there.
pub fn judge_plan(
    table: &Table,
    range: &Range,
    root: &Node,
    word: &[u8],
    migrates: u64,
    replicates: u64,
    plan: &mut PlanSet,
) -> Option<u8>
    requires range { IsRange range.now }
    requires inside { length root.now.inside ≡ table.now.files }
    requires outside { length root.now.outside ≡ table.now.files }
    requires plan { length plan.old ≡ table.now.files }
    ensures judged { (told : Told) → told.range ≡ range.now → root_of table.now.files told.pins ≡ root.now → Judges table.now told (Planned word.now migrates replicates) result }
    ensures plan { IfNone result (plan.new ≡ set_named table.now.files word.now) }
    ensures stays { length plan.new ≡ table.now.files }
{
    if !fill_named(word, plan) {
        return Some(WIDTH);
    }
    if !has_sums(table, plan, migrates, replicates) {
        return Some(SUMS);
    }
    if !in_range(table, plan, range) {
        return Some(IN_REACH);
    }
    if !is_member(root, plan) {
        return Some(PINNING);
    }
    None
}

// Whether a set migrates and replicates so many bytes.
fn has_sums(table: &Table, set: &PlanSet, migrates: u64, replicates: u64) -> bool
    requires { length set.now ≡ table.now.files }
    ensures { IsTrue result ↔ ((migrates ≡ migrated_of (holds set.now) table.now) × (replicates ≡ replicated_of (holds set.now) table.now)) }
{
    migrates == migrated(table, set) && replicates == replicated(table, set)
}

/// Judges the line of the bound, or of none, by rule 3: with the answer, and with the bytes that the plan is said to
/// replicate, if there is a plan.
pub fn judge_bound(answer: Answer, plan: Option<u64>, bound: Option<u64>) -> Option<u8>
    ensures judged { (table : TableValue) (told : Told) → told.answer ≡ answer → option_map (λ (c : Claimed). c.replicated) told.plan ≡ plan → Judges table told (bound_entry bound) result }
{
    if go_together(answer, plan, bound) {
        None
    } else {
        Some(ANSWERING)
    }
}

// Whether a bound goes with an answer and a plan.
fn go_together(answer: Answer, plan: Option<u64>, bound: Option<u64>) -> bool
    ensures { (claimed : Option Claimed) → option_map (λ (c : Claimed). c.replicated) claimed ≡ plan → IsTrue result ↔ Agrees answer claimed bound }
{
    match (answer, plan, bound) {
        (Answer::Optimal, Some(replicates), Some(bound)) => bound == replicates,
        (Answer::Infeasible, None, None) => true,
        (Answer::Open, None, Some(_)) => true,
        (Answer::Open, Some(replicates), Some(bound)) => bound < replicates,
        _ => false,
    }
}
