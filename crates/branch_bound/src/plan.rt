// The certificate of a search under a name of a shelf.
ghost use Rattle.std.specs.Prelude.{◌≡◌, ◌≤◌, true, IfSome, IfOk, IsErr, length, option_map};
ghost use Rattle.fault_count.specs.Counts.{HandsOn};
ghost use Rattle.seed_io.specs.Shelf.{OthersStay};
ghost use Rattle.seed_model.specs.Nodes.{IsNode};
ghost use Rattle.seed_model.specs.Ranges.{IsRange};
ghost use Rattle.branch_bound.specs.Pinned.{pinned_node};
ghost use Rattle.branch_bound.specs.States.{claim_of};
ghost use Rattle.branch_bound.specs.Streams.{IsPlanned, IsSaid, LeavesFront, SaysPlan};
ghost use Rattle.branch_bound.specs.declared.entry.Kept.{Kept};
ghost use Rattle.branch_bound.specs.declared.outcome.PlanError.TheVariants.{Fault};

use crate::found::Found;
use crate::outcome::{Outcome, PlanError};
use crate::searching::explore;
use crate::state::State;
use crate::writing::write_found;
use bound_cert::heading_text;
use seed_io::Shelf;
use seed_model::{Node, Range, Table};
use std::alloc::Global;

/// What the certificate of a search says, which has so many branchings.
fn outcome_of(found: Found, branchings: u32) -> Outcome
    ensures answer { result.answer ≡ found.heading.answer }
    ensures plan { SaysPlan result (option_map claim_of found.state.kept) }
    ensures set { result.plan ≡ option_map (λ (k : Kept). k.set) found.state.kept }
    ensures bound { result.bound ≡ found.heading.bound }
    ensures branchings { result.branchings ≡ branchings }
{
    let Found { state, heading, .. } = found;
    let State { kept, .. } = state;
    let (plan, migrated, replicated) = match kept {
        None => (None, 0, 0),
        Some(kept) => (Some(kept.set), kept.migrated, kept.replicated),
    };
    Outcome {
        answer: heading.answer,
        plan,
        migrated,
        replicated,
        bound: heading.bound,
        branchings,
    }
}

/// Searches as `search` does and writes the certificate under a name of the shelf, in place of what it had: one append
/// for the heading, one for each node and one for the last line. The answer is what the certificate says. The search is
/// done before the name is touched; what a leaf's multipliers and the text of a node need is taken node by node.
///
/// # Errors
///
/// `Fault` where a call of the shelf failed, and `Memory` where memory ran out; the name is then as before or holds a
/// front of a certificate.
pub fn plan_to<F: Shelf>(
    alloc: Global,
    table: &Table,
    range: &Range,
    pins: Option<&Node>,
    nodes: u32,
    shelf: &mut F,
    name: &str,
) -> Result<Outcome, PlanError>
    requires range { IsRange range.now }
    requires pins { IfSome (pinned_node pins) (IsNode table.now.files) }
    requires budget { nodes ≤ 65535 }
    ensures said { IfOk result (IsSaid table.now range.now (pinned_node pins.entry) nodes) }
    ensures width { IfOk result (λ outcome. IfSome outcome.plan (λ plan. length plan ≡ table.now.files)) }
    ensures done { F.tells shelf.old ≡ true → IfOk result (IsPlanned table.now range.now (pinned_node pins.entry) nodes (F.map shelf.new name.now)) }
    ensures front { F.tells shelf.old ≡ true → IsErr result → LeavesFront table.now range.now (pinned_node pins.entry) nodes (F.map shelf.old name.now) (F.map shelf.new name.now) }
    ensures others { F.tells shelf.old ≡ true → OthersStay (F.map shelf.old) (F.map shelf.new) name.now }
    ensures cause { HandsOn Fault (F.faults shelf.old) (F.faults shelf.new) result }
    ensures tells { F.tells shelf.new ≡ F.tells shelf.old }
{
    let _files = table.files();
    let found = explore(alloc, table, range, pins, nodes)?;
    let mut text = Vec::new(alloc);
    heading_text(&found.heading, &mut text)?;
    let branchings = write_found(alloc, table, &found, &mut text, shelf, name)?;
    Ok(outcome_of(found, branchings))
}
