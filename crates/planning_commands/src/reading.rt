// Reading the recipe that a command names.
ghost use Rattle.std.specs.Prelude.{◌≡◌, IfOk, IfErr, IsErr};
ghost use Rattle.csv_rows.specs.Rows.{rows_of};
ghost use Rattle.fault_count.specs.Counts.{HasCause};
ghost use Rattle.recipe_reader.specs.Reading.{Leads};
ghost use Rattle.recipe_reader.specs.Recipes.{empty_recipe};
ghost use Rattle.command_endings.specs.Worlds.{Over};
ghost use Rattle.planning_commands.specs.Reading.{HoldsRecipe, LacksRecipe, RefusesText};
ghost use Rattle.command_texts.specs.Refusals.{Refuses};
ghost use Rattle.command_texts.specs.Refused.{refusal_of};

use command_endings::limits::MOST_RECIPE_BYTES;
use command_texts::{Halt, Refusal, Report, or_halt, refused};
use recipe_reader::{Recipe, RecipeError, read_recipe};
use seed_io::{ReadError, Shelf, read_all};
use seed_model::NoMemory;
use std::alloc::Global;

/// The recipe of a name; or the report of the command that is refused, since the name gives none.
pub fn recipe_named<F: Shelf>(
    alloc: Global,
    shelf: &mut F,
    name: &str,
) -> Result<Result<Recipe, Report>, Halt>
    ensures recipe { IfOk result (λ read. IfOk read (λ recipe. Over (F.tells shelf.old) (F.map shelf.old) (λ given. HoldsRecipe given name.now recipe))) }
    ensures refused { IfOk result (λ read. IfErr read (λ report. Over (F.tells shelf.old) (F.map shelf.old) (λ given. LacksRecipe given name.now report.status report.text.items))) }
    ensures cause { HasCause Halt.Outside (F.faults shelf.old) (F.faults shelf.new) result }
    ensures tells { F.tells shelf.new ≡ F.tells shelf.old }
    ensures same { F.map shelf.new ≡ F.map shelf.old }
{
    match read_all(alloc, shelf, name, MOST_RECIPE_BYTES) {
        Ok(text) => or_halt(recipe_of_text(alloc, &text)),
        Err(ReadError::NotThere) => or_halt(no_recipe(alloc, &Refusal::NotThere { name })),
        Err(ReadError::TooLong) => or_halt(no_recipe(alloc, &Refusal::TooLong { name })),
        Err(ReadError::Fault) => Err(Halt::Outside),
        Err(ReadError::Memory) => Err(Halt::Memory),
    }
}

/// The recipe of a text; or the report of the command that is refused, since the text is none.
fn recipe_of_text(alloc: Global, text: &[u8]) -> Result<Result<Recipe, Report>, NoMemory>
    ensures recipe { IfOk result (λ read. IfOk read (λ recipe. Leads empty_recipe (rows_of text.now) recipe)) }
    ensures refused { IfOk result (λ read. IfErr read (λ report. RefusesText text.now report.status report.text.items)) }
{
    match read_recipe(alloc, text) {
        Ok(recipe) => Ok(Ok(recipe)),
        Err(RecipeError::Memory) => Err(NoMemory),
        Err(error) => no_recipe(alloc, &Refusal::NoRecipe(error)),
    }
}

/// The report of a command that is refused, in place of a recipe.
fn no_recipe(alloc: Global, refusal: &Refusal) -> Result<Result<Recipe, Report>, NoMemory>
    ensures refused { IfOk result (λ read. IfErr read (λ report. Refuses (refusal_of refusal.now) report.status report.text.items)) }
    ensures none { IfOk result (λ read. IsErr read) }
{
    Ok(Err(refused(alloc, refusal)?))
}
