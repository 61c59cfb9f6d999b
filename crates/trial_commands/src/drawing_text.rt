// The lines that `gen` prints.
ghost use Rattle.std.specs.Prelude.{◌≡◌, ◌++◌, IfOk, OnOk};
ghost use Rattle.planning_commands.specs.Check.{failure_text, judged_table};
ghost use Rattle.trial_commands.specs.Gen.{judged_lines};
ghost use Rattle.trial_commands.specs.Texts.{drawn_lines, gen_text, yes_line};

use cert_check::Verdict;
use command_texts::lines::{add, add_number};
use planning_commands::checked_text::text_of_failure;
use recipe_reader::Recipe;
use seed_model::{NoMemory, Table};
use std::alloc::Global;

/// What `gen` prints of a recipe: how much there is of it, the lines of the search, and what judging its certificate gave.
pub(crate) fn text_of_gen(
    alloc: Global,
    recipe: &Recipe,
    table: &Table,
    searched: &[u8],
    verdict: Verdict,
) -> Result<Vec<u8>, NoMemory>
    requires { table.now ≡ judged_table recipe.now }
    ensures { IfOk result (λ text. text.items ≡ gen_text recipe.now searched.now (judged_lines verdict)) }
{
    let judged = text_of_verdict(alloc, verdict)?;
    let mut text = Vec::new(alloc);
    add_drawn(&mut text, recipe, table)?;
    add(&mut text, searched)?;
    add(&mut text, &judged)?;
    Ok(text)
}

/// Puts the lines behind a text that say how much there is of a recipe.
fn add_drawn(text: &mut Vec<u8>, recipe: &Recipe, table: &Table) -> Result<(), NoMemory>
    requires { table.now ≡ judged_table recipe.now }
    ensures { OnOk result (text.new.items ≡ text.old.items ++ drawn_lines recipe.now) }
{
    add_number(text, b"files", recipe.files() as u64)?;
    add_number(text, b"chunks", recipe.chunks() as u64)?;
    add_number(text, b"pairs", recipe.pairs().len() as u64)?;
    add_number(text, b"classes", table.classes() as u64)?;
    add_number(text, b"total", recipe.total())
}

/// The line of a verdict.
fn text_of_verdict(alloc: Global, verdict: Verdict) -> Result<Vec<u8>, NoMemory>
    ensures { IfOk result (λ text. text.items ≡ judged_lines verdict) }
{
    match verdict {
        Verdict::Yes => Ok(Vec::from_slice(alloc, b"check yes\n".as_slice())?),
        Verdict::No { line, rule } => text_of_failure(alloc, line, rule),
    }
}
