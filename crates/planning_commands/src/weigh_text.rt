// The lines that `weigh` prints.
ghost use Rattle.std.specs.Prelude.{◌≡◌, ◌++◌, ◌<◌, All, length, IfOk, OnOk};
ghost use Rattle.seed_model.specs.Files.{holds};
ghost use Rattle.seed_model.specs.Keys.{class_at};
ghost use Rattle.seed_model.specs.Tables.{IsTable};
ghost use Rattle.recipe_reader.specs.Recipes.{table_of};
ghost use Rattle.chunk_merge.specs.Merged.{merged};
ghost use Rattle.planning_commands.specs.Tables.{HasSumsOf};
ghost use Rattle.planning_commands.specs.Texts.{class_line, class_lines, recipe_lines, sum_lines, users_inside, weigh_text};

use command_texts::lines::{add_number, add_numbers};
use recipe_reader::Recipe;
use seed_model::{NoMemory, PlanSet, Table, migrated, replicated, touched};
use std::alloc::Global;

/// What `weigh` prints of a set.
pub(crate) fn text_of_weigh(
    alloc: Global,
    recipe: &Recipe,
    table: &Table,
    set: &PlanSet,
) -> Result<Vec<u8>, NoMemory>
    requires table { table.now ≡ merged (table_of recipe.now) }
    requires lawful { IsTable table.now }
    requires sums { HasSumsOf (table_of recipe.now) table.now }
    requires width { length set.now ≡ length recipe.now.files }
    ensures { IfOk result (λ text. text.items ≡ weigh_text recipe.now set.now) }
{
    let mut text = Vec::new(alloc);
    add_recipe(&mut text, recipe, table)?;
    add_sums(&mut text, table, set)?;
    add_classes(&mut text, table, set)?;
    Ok(text)
}

/// Puts the lines behind a text that say how much there is of a recipe.
fn add_recipe(text: &mut Vec<u8>, recipe: &Recipe, table: &Table) -> Result<(), NoMemory>
    requires { table.now ≡ merged (table_of recipe.now) }
    ensures { OnOk result (text.new.items ≡ text.old.items ++ recipe_lines recipe.now) }
{
    add_number(text, b"files", recipe.files() as u64)?;
    add_number(text, b"chunks", recipe.chunks() as u64)?;
    add_number(text, b"classes", table.classes() as u64)?;
    add_number(text, b"total", recipe.total())
}

/// Puts the lines of a set's three sums behind a text.
fn add_sums(text: &mut Vec<u8>, table: &Table, set: &PlanSet) -> Result<(), NoMemory>
    requires { length set.now ≡ table.now.files }
    ensures { OnOk result (text.new.items ≡ text.old.items ++ sum_lines (holds set.now) table.now) }
{
    add_number(text, b"touched", touched(table, set))?;
    add_number(text, b"migrated", migrated(table, set))?;
    add_number(text, b"replicated", replicated(table, set))
}

/// Puts a line for each class with a user in a set behind a text.
fn add_classes(text: &mut Vec<u8>, table: &Table, set: &PlanSet) -> Result<(), NoMemory>
    requires lawful { IsTable table.now }
    requires width { length set.now ≡ table.now.files }
    ensures { OnOk result (text.new.items ≡ text.old.items ++ class_lines (holds set.now) table.now.classes) }
{
    for class in 0..table.classes() {
        add_class(text, table, set, class)?;
    }
    Ok(())
}

/// Puts the line of a class behind a text, where the set has a user of it.
fn add_class(text: &mut Vec<u8>, table: &Table, set: &PlanSet, class: u32) -> Result<(), NoMemory>
    requires lawful { IsTable table.now }
    requires width { length set.now ≡ table.now.files }
    requires class { class < length table.now.classes }
    ensures { OnOk result (text.new.items ≡ text.old.items ++ class_line (holds set.now) (class, class_at table.now.classes class)) }
{
    let users = table.users(class);
    let inside = count_inside(users, set);
    if inside == 0 {
        return Ok(());
    }
    let numbers = [class as u64, table.size(class), users.len() as u64, inside];
    add_numbers(text, b"class", &numbers)
}

/// How many of these files are in a set.
fn count_inside(users: &[u32], set: &PlanSet) -> u64
    requires { All (λ file. file < length set.now) users.now }
    ensures { result ≡ users_inside (holds set.now) users.now }
{
    users.iter().filter(|file| set.contains(**file)).count() as u64
}
