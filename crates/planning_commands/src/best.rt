// The command `best`.
ghost use Rattle.std.specs.Prelude.{◌≡◌, ◌≤◌, length, IfOk};
ghost use Rattle.seed_model.specs.Ranges.{IsRange};
ghost use Rattle.fault_count.specs.Counts.{HasCause};
ghost use Rattle.recipe_reader.specs.Lawful.{IsRecipe};
ghost use Rattle.goseed_words.specs.Amounts.{IsAmount};
ghost use Rattle.planning_commands.specs.Best.{BestEnds, BestOf, TriesAll};
ghost use Rattle.command_endings.specs.Worlds.{Over};

use crate::best_text::{text_of_best, text_of_none};
use crate::merged_table::merged_table;
use crate::ranges::range_within;
use crate::reading::recipe_named;
use command_texts::{Halt, Refusal, Report, Status, or_halt, refused};
use goseed_words::Amount;
use recipe_reader::Recipe;
use seed_io::Shelf;
use seed_model::limits::MOST_TRIED_FILES;
use seed_model::{NoMemory, Range, try_all};
use std::alloc::Global;

/// Reads a recipe by its name, and finds the best set of its files.
pub fn best<F: Shelf>(
    alloc: Global,
    shelf: &mut F,
    name: &str,
    target: Amount,
    slack: Amount,
) -> Result<Report, Halt>
    requires target { IsAmount target }
    requires slack { IsAmount slack }
    ensures report { IfOk result (λ report. Over (F.tells shelf.old) (F.map shelf.old) (λ given. BestEnds name.now target slack given report.status report.text.items)) }
    ensures cause { HasCause Halt.Outside (F.faults shelf.old) (F.faults shelf.new) result }
    ensures tells { F.tells shelf.new ≡ F.tells shelf.old }
    ensures same { F.map shelf.new ≡ F.map shelf.old }
{
    match recipe_named(alloc, shelf, name)? {
        Ok(recipe) => or_halt(best_of(alloc, &recipe, target, slack)),
        Err(report) => Ok(report),
    }
}

/// Finds the best set of a recipe's files.
fn best_of(
    alloc: Global,
    recipe: &Recipe,
    target: Amount,
    slack: Amount,
) -> Result<Report, NoMemory>
    requires target { IsAmount target }
    requires slack { IsAmount slack }
    ensures { IfOk result (λ report. BestOf target slack report.status report.text.items recipe.now) }
{
    let files = recipe.files();
    if files > MOST_TRIED_FILES {
        return refused(alloc, &Refusal::TooManyFiles { files });
    }
    let range = range_within(recipe.total(), target, slack);
    best_in_range(alloc, recipe, &range)
}

/// Finds the best set of a recipe's files in a range.
fn best_in_range(alloc: Global, recipe: &Recipe, range: &Range) -> Result<Report, NoMemory>
    requires recipe { IsRecipe recipe.now }
    requires few { length recipe.now.files ≤ MOST_TRIED_FILES }
    requires range { IsRange range.now }
    ensures { IfOk result (λ report. TriesAll recipe.now range.now report.status report.text.items) }
{
    let table = merged_table(alloc, recipe)?;
    match try_all(alloc, &table, range)? {
        Some(plan) => Ok(Report {
            status: Status::Done,
            text: text_of_best(alloc, recipe, &table, &plan)?,
        }),
        None => Ok(Report {
            status: Status::No,
            text: text_of_none(alloc)?,
        }),
    }
}
