// The command `greedy`.
ghost use Rattle.std.specs.Prelude.{◌≡◌, length, IfOk};
ghost use Rattle.fault_count.specs.Counts.{HasCause};
ghost use Rattle.seed_model.specs.Nodes.{undecided_node};
ghost use Rattle.recipe_reader.specs.Recipes.{table_of};
ghost use Rattle.goseed_words.specs.Amounts.{IsAmount};
ghost use Rattle.command_endings.specs.Worlds.{Over};
ghost use Rattle.planning_commands.specs.Tables.{HasSumsOf};
ghost use Rattle.trial_commands.specs.Greedy.{GreedyEnds, GreedyOf, PrintsGreedy, TriesSet};

use crate::greedy_text::{text_of_found, text_of_stuck};
use crate::seeking::seek;
use command_texts::{Halt, Report, Status, or_halt};
use goseed_words::Amount;
use greedy_seed::Tried;
use planning_commands::merged_table::merged_table;
use planning_commands::ranges::range_within;
use planning_commands::reading::recipe_named;
use recipe_reader::Recipe;
use seed_io::Shelf;
use seed_model::{NoMemory, Range, Table};
use std::alloc::Global;

/// Reads a recipe by its name, and seeks a set of its files in a range greedily. It is no best set, but quickly found.
pub fn greedy<F: Shelf>(
    alloc: Global,
    shelf: &mut F,
    name: &str,
    target: Amount,
    slack: Amount,
) -> Result<Report, Halt>
    requires target { IsAmount target }
    requires slack { IsAmount slack }
    ensures report { IfOk result (λ report. Over (F.tells shelf.old) (F.map shelf.old) (λ given. GreedyEnds name.now target slack given report.status report.text.items)) }
    ensures cause { HasCause Halt.Outside (F.faults shelf.old) (F.faults shelf.new) result }
    ensures tells { F.tells shelf.new ≡ F.tells shelf.old }
    ensures same { F.map shelf.new ≡ F.map shelf.old }
{
    match recipe_named(alloc, shelf, name)? {
        Ok(recipe) => or_halt(greedy_of(alloc, &recipe, target, slack)),
        Err(report) => Ok(report),
    }
}

/// Seeks a set of a recipe's files.
fn greedy_of(
    alloc: Global,
    recipe: &Recipe,
    target: Amount,
    slack: Amount,
) -> Result<Report, NoMemory>
    requires target { IsAmount target }
    requires slack { IsAmount slack }
    ensures { IfOk result (λ report. GreedyOf target slack report.status report.text.items recipe.now) }
{
    let range = range_within(recipe.total(), target, slack);
    let table = merged_table(alloc, recipe)?;
    let tried = seek(alloc, recipe, &table, &range, None)?;
    report_on(alloc, recipe, &table, &range, &tried)
}

/// The report on what was tried.
fn report_on(
    alloc: Global,
    recipe: &Recipe,
    table: &Table,
    range: &Range,
    tried: &Tried,
) -> Result<Report, NoMemory>
    requires files { table.now.files ≡ length recipe.now.files }
    requires sums { HasSumsOf (table_of recipe.now) table.now }
    requires tried { TriesSet recipe.now range.now (undecided_node (length recipe.now.files)) tried.now }
    ensures { IfOk result (λ report. PrintsGreedy recipe.now range.now report.status report.text.items) }
{
    match &tried.set {
        Some(set) => Ok(Report {
            status: Status::Done,
            text: text_of_found(alloc, recipe, table, set, tried.turns, tried.rounds)?,
        }),
        None => Ok(Report {
            status: Status::No,
            text: text_of_stuck(alloc, tried.turns)?,
        }),
    }
}
