// The lines that `plan` and `pinned` print.
ghost use Rattle.std.specs.Prelude.{◌≡◌, ◌++◌, length, IfOk, IfSome};
ghost use Rattle.branch_bound.specs.Pinned.{pinned_node};
ghost use Rattle.planning_commands.specs.Check.{node_lines};
ghost use Rattle.planning_commands.specs.Texts.{answer_lines};

use crate::answer_text::{Findings, add_answer};
use crate::checked_text::add_pins;
use branch_bound::Outcome;
use recipe_reader::Recipe;
use seed_model::{NoMemory, Node};
use std::alloc::Global;

/// The lines of an outcome, behind those of the pins.
pub(crate) fn text_of_outcome(
    alloc: Global,
    recipe: &Recipe,
    pins: Option<&Node>,
    outcome: &Outcome,
) -> Result<Vec<u8>, NoMemory>
    requires { IfSome outcome.now.plan (λ plan. length plan ≡ length recipe.now.files) }
    ensures { IfOk result (λ text. text.items ≡ node_lines (pinned_node pins.entry) ++ answer_lines recipe.now.files outcome.now.answer outcome.now.plan outcome.now.migrated outcome.now.replicated outcome.now.bound outcome.now.branchings) }
{
    let findings = Findings {
        answer: outcome.answer,
        plan: outcome.plan.as_ref(),
        migrated: outcome.migrated,
        replicated: outcome.replicated,
        bound: outcome.bound,
        branchings: u64::from(outcome.branchings),
    };
    let mut text = Vec::new(alloc);
    add_pins(alloc, &mut text, pins)?;
    add_answer(alloc, &mut text, recipe, &findings)?;
    Ok(text)
}
