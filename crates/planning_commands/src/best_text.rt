// The lines that `best` prints.
ghost use Rattle.std.specs.Prelude.{◌≡◌, ◌++◌, ◌<◌, [], length, slice_index_or, IfOk, OnOk};
ghost use Rattle.seed_model.specs.Files.{holds};
ghost use Rattle.recipe_reader.specs.Recipes.{table_of};
ghost use Rattle.planning_commands.specs.Tables.{HasSumsOf};
ghost use Rattle.planning_commands.specs.Texts.{file_line, file_lines, plan_lines, best_text, none_text};

use command_texts::lines::{add, add_line, add_number};
use recipe_reader::Recipe;
use seed_model::{NoMemory, PlanSet, Table, migrated, replicated};
use seed_text::write_set;
use std::alloc::Global;

/// What `best` prints of a best set.
pub(crate) fn text_of_best(
    alloc: Global,
    recipe: &Recipe,
    table: &Table,
    plan: &PlanSet,
) -> Result<Vec<u8>, NoMemory>
    requires files { table.now.files ≡ length recipe.now.files }
    requires sums { HasSumsOf (table_of recipe.now) table.now }
    requires width { length plan.now ≡ length recipe.now.files }
    ensures { IfOk result (λ text. text.items ≡ best_text recipe.now plan.now) }
{
    let set = write_set(alloc, plan)?;
    let mut text = Vec::new(alloc);
    add(&mut text, b"answer optimal\n")?;
    add_plan(
        &mut text,
        &set,
        migrated(table, plan),
        replicated(table, plan),
    )?;
    add_files(&mut text, recipe, plan)?;
    Ok(text)
}

/// What `best` prints where no set is in range.
pub(crate) fn text_of_none(alloc: Global) -> Result<Vec<u8>, NoMemory>
    ensures { IfOk result (λ text. text.items ≡ none_text) }
{
    Ok(Vec::from_slice(alloc, b"answer infeasible\nplan none\n".as_slice())?)
}

/// Puts the lines of a plan behind a text.
pub(crate) fn add_plan(
    text: &mut Vec<u8>,
    set: &[u8],
    migrated: u64,
    replicated: u64,
) -> Result<(), NoMemory>
    ensures { OnOk result (text.new.items ≡ text.old.items ++ plan_lines set.now migrated replicated) }
{
    add_line(text, b"plan", set)?;
    add_number(text, b"migrated", migrated)?;
    add_number(text, b"replicated", replicated)
}

/// Puts a line for each file of a plan behind a text.
pub fn add_files(text: &mut Vec<u8>, recipe: &Recipe, plan: &PlanSet) -> Result<(), NoMemory>
    requires { length plan.now ≡ length recipe.now.files }
    ensures { OnOk result (text.new.items ≡ text.old.items ++ file_lines (holds plan.now) recipe.now.files) }
{
    for file in 0..recipe.files() {
        add_file(text, recipe, plan, file)?;
    }
    Ok(())
}

/// Puts the line of a file behind a text, where the plan has it.
fn add_file(text: &mut Vec<u8>, recipe: &Recipe, plan: &PlanSet, file: u32) -> Result<(), NoMemory>
    requires width { length plan.now ≡ length recipe.now.files }
    requires file { file < length recipe.now.files }
    ensures { OnOk result (text.new.items ≡ text.old.items ++ file_line (holds plan.now) (file, slice_index_or recipe.now.files file [])) }
{
    if plan.contains(file) {
        return add_line(text, b"file", recipe.file_name(file).as_bytes());
    }
    Ok(())
}
