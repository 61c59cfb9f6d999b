// The lines that `gap` prints.
ghost use Rattle.std.specs.Prelude.{◌≡◌, ◌++◌, ◌≤◌, length, IfOk, OnOk};
ghost use Rattle.seed_model.specs.Files.{holds};
ghost use Rattle.seed_model.specs.Sums.{replicated_of};
ghost use Rattle.recipe_reader.specs.Recipes.{table_of};
ghost use Rattle.planning_commands.specs.Tables.{HasSumsOf};
ghost use Rattle.trial_commands.specs.Texts.{gap_lines, gap_text, no_set_line};

use crate::greedy_text::add_set;
use command_texts::lines::add_number;
use recipe_reader::Recipe;
use seed_model::{NoMemory, PlanSet, Table, replicated};
use std::alloc::Global;

/// What `gap` prints of a set beside a bound.
pub(crate) fn text_of_gap(
    alloc: Global,
    recipe: &Recipe,
    table: &Table,
    set: &PlanSet,
    bound: u64,
) -> Result<Vec<u8>, NoMemory>
    requires files { table.now.files ≡ length recipe.now.files }
    requires sums { HasSumsOf (table_of recipe.now) table.now }
    requires width { length set.now ≡ length recipe.now.files }
    requires bound { bound ≤ replicated_of (holds set.now) table.now }
    ensures { IfOk result (λ text. text.items ≡ gap_text recipe.now set.now bound) }
{
    let mut text = Vec::new(alloc);
    add_set(alloc, &mut text, recipe, table, set)?;
    add_gap(&mut text, replicated(table, set), bound)?;
    Ok(text)
}

/// Puts the lines of a bound, and of how much more is replicated, behind a text.
fn add_gap(text: &mut Vec<u8>, replicated: u64, bound: u64) -> Result<(), NoMemory>
    requires { bound ≤ replicated }
    ensures { OnOk result (text.new.items ≡ text.old.items ++ gap_lines replicated bound) }
{
    add_number(text, b"bound", bound)?;
    add_number(text, b"gap", replicated - bound)
}

/// What it prints where no set was found.
pub(crate) fn text_of_no_set(alloc: Global) -> Result<Vec<u8>, NoMemory>
    ensures { IfOk result (λ text. text.items ≡ no_set_line) }
{
    Ok(Vec::from_slice(alloc, b"greedy none\n".as_slice())?)
}
