// The lines that `greedy` prints.
ghost use Rattle.std.specs.Prelude.{◌≡◌, ◌++◌, length, IfOk, OnOk};
ghost use Rattle.recipe_reader.specs.Recipes.{table_of};
ghost use Rattle.planning_commands.specs.Tables.{HasSumsOf};
ghost use Rattle.trial_commands.specs.Texts.{found_lines, greedy_text, set_lines, stuck_text};

use command_texts::lines::{add, add_line, add_number};
use planning_commands::best_text::add_files;
use recipe_reader::Recipe;
use seed_model::{NoMemory, PlanSet, Table, migrated, replicated};
use seed_text::write_set;
use std::alloc::Global;

/// What `greedy` prints of a set that was found in so many turns and rounds.
pub(crate) fn text_of_found(
    alloc: Global,
    recipe: &Recipe,
    table: &Table,
    set: &PlanSet,
    turns: u32,
    rounds: u32,
) -> Result<Vec<u8>, NoMemory>
    requires files { table.now.files ≡ length recipe.now.files }
    requires sums { HasSumsOf (table_of recipe.now) table.now }
    requires width { length set.now ≡ length recipe.now.files }
    ensures { IfOk result (λ text. text.items ≡ greedy_text recipe.now set.now turns rounds) }
{
    let mut text = Vec::new(alloc);
    add_set(alloc, &mut text, recipe, table, set)?;
    add_number(&mut text, b"turns", u64::from(turns))?;
    add_number(&mut text, b"rounds", u64::from(rounds))?;
    add_files(&mut text, recipe, set)?;
    Ok(text)
}

/// Puts the lines of a set and its sums behind a text.
pub(crate) fn add_set(
    alloc: Global,
    text: &mut Vec<u8>,
    recipe: &Recipe,
    table: &Table,
    set: &PlanSet,
) -> Result<(), NoMemory>
    requires files { table.now.files ≡ length recipe.now.files }
    requires sums { HasSumsOf (table_of recipe.now) table.now }
    requires width { length set.now ≡ length recipe.now.files }
    ensures { OnOk result (text.new.items ≡ text.old.items ++ set_lines recipe.now set.now) }
{
    let _files = recipe.files();
    let word = write_set(alloc, set)?;
    add_found(text, &word, migrated(table, set), replicated(table, set))
}

/// Puts the lines of a set by its text, and of its sums, behind a text.
fn add_found(text: &mut Vec<u8>, set: &[u8], migrated: u64, replicated: u64) -> Result<(), NoMemory>
    ensures { OnOk result (text.new.items ≡ text.old.items ++ found_lines set.now migrated replicated) }
{
    add_line(text, b"greedy", set)?;
    add_number(text, b"migrated", migrated)?;
    add_number(text, b"replicated", replicated)
}

/// What it prints where none was found, after so many turns.
pub(crate) fn text_of_stuck(alloc: Global, turns: u32) -> Result<Vec<u8>, NoMemory>
    ensures { IfOk result (λ text. text.items ≡ stuck_text turns) }
{
    let mut text = Vec::new(alloc);
    add(&mut text, b"greedy none\n")?;
    add_number(&mut text, b"turns", u64::from(turns))?;
    Ok(text)
}
