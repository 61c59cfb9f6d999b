// The command `weigh`.
ghost use Rattle.std.specs.Prelude.{◌≡◌, IfOk};
ghost use Rattle.fault_count.specs.Counts.{HasCause};
ghost use Rattle.recipe_reader.specs.Lawful.{IsRecipe};
ghost use Rattle.command_endings.specs.Worlds.{Over};
ghost use Rattle.planning_commands.specs.Weigh.{WeighEnds, WeighOf};

use crate::merged_table::merged_table;
use crate::reading::recipe_named;
use crate::weigh_text::text_of_weigh;
use command_texts::{Halt, Refusal, Report, Status, or_halt, refused};
use recipe_reader::Recipe;
use seed_io::Shelf;
use seed_model::NoMemory;
use seed_text::read_set;
use std::alloc::Global;

/// The place of the word that spells the set, the command being place 1.
const SET_PLACE: u32 = 3;

/// Reads a recipe by its name, and sums up what moving a set of its files moves.
pub fn weigh<F: Shelf>(alloc: Global, shelf: &mut F, name: &str, set: &str) -> Result<Report, Halt>
    ensures report { IfOk result (λ report. Over (F.tells shelf.old) (F.map shelf.old) (λ given. WeighEnds name.now set.now given report.status report.text.items)) }
    ensures cause { HasCause Halt.Outside (F.faults shelf.old) (F.faults shelf.new) result }
    ensures tells { F.tells shelf.new ≡ F.tells shelf.old }
    ensures same { F.map shelf.new ≡ F.map shelf.old }
{
    match recipe_named(alloc, shelf, name)? {
        Ok(recipe) => or_halt(weigh_of(alloc, &recipe, set.as_bytes())),
        Err(report) => Ok(report),
    }
}

/// Sums up what moving the set moves that a word spells.
fn weigh_of(alloc: Global, recipe: &Recipe, word: &[u8]) -> Result<Report, NoMemory>
    ensures { IfOk result (λ report. WeighOf word.now report.status report.text.items recipe.now) }
{
    let Some(set) = read_set(alloc, word, recipe.files())? else {
        return refused(alloc, &Refusal::BadWord { place: SET_PLACE });
    };
    let table = merged_table(alloc, recipe)?;
    Ok(Report {
        status: Status::Done,
        text: text_of_weigh(alloc, recipe, &table, &set)?,
    })
}
