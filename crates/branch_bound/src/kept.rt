// The plan that is kept.
ghost use Rattle.std.specs.Prelude.{◌≡◌, ◌<◌, ◌↔◌, IfSome, IsTrue, OnOk, length};
ghost use Rattle.seed_model.specs.declared.node.Node.{Node};
ghost use Rattle.seed_model.specs.Files.{holds};
ghost use Rattle.seed_model.specs.Nodes.{IsMember};
ghost use Rattle.seed_model.specs.Ranges.{IsRange};
ghost use Rattle.seed_model.specs.Sums.{replicated_of};
ghost use Rattle.branch_bound.specs.States.{IsKept, IsOffered, IsReached, KeepsBetter};

use crate::entry::Kept;
use seed_model::{NoMemory, PlanSet, Range, Table, in_range, migrated};

/// Whether a plan is kept that replicates at most so many bytes.
pub(crate) fn is_reached(bytes: u128, kept: &Option<Kept>) -> bool
    ensures { IsTrue result ↔ IsReached bytes kept.now }
{
    match kept {
        Some(plan) => plan.replicated as u128 <= bytes,
        None => false,
    }
}

/// Keeps a set as the plan where it is in range and replicates less than the one that is kept.
pub(crate) fn offer(
    table: &Table,
    range: &Range,
    set: &PlanSet,
    bytes: u64,
    kept: &mut Option<Kept>,
) -> Result<(), NoMemory>
    requires files { length set.now ≡ table.now.files }
    requires range { IsRange range.now }
    requires bytes { bytes ≡ replicated_of (holds set.now) table.now }
    ensures offered { OnOk result (IsOffered table.now range.now kept.new set.now) }
    ensures better { OnOk result (KeepsBetter kept.old kept.new) }
    ensures plan { (root : Node) → OnOk result (IsMember table.now.files root (holds set.now) → IfSome kept.old (IsKept table.now range.now root) → IfSome kept.new (IsKept table.now range.now root)) }
{
    if !in_range(table, set, range) {
        return Ok(());
    }
    if is_reached(bytes as u128, kept) {
        return Ok(());
    }
    let copy = set.copy()?;
    *kept = Some(Kept {
        migrated: migrated(table, set),
        replicated: bytes,
        set: copy,
    });
    Ok(())
}
