// The command `sort`.
ghost use Rattle.std.specs.Prelude.{◌≡◌, true, IfOk};
ghost use Rattle.fault_count.specs.Counts.{HandsOn};
ghost use Rattle.seed_io.specs.Shelf.{OthersStay};
ghost use Rattle.command_endings.specs.Creating.{LeavesOthers};
ghost use Rattle.command_endings.specs.Worlds.{Creating, ShelfEnds};
ghost use Rattle.recipe_reader.specs.Recipes.{RecipeValue};
ghost use Rattle.order_commands.specs.Sort.{HasSorted, IsMade, LeavesSorted, SortEnds, sort_text};

use command_endings::create_with;
use command_texts::lines::add_number;
use command_texts::{Halt, Report, Status};
use planning_commands::reading::recipe_named;
use recipe_order::{likeness_laws, sorted};
use recipe_reader::{Recipe, write_recipe};
use seed_io::Shelf;
use seed_model::NoMemory;
use std::alloc::Global;

/// The text of a recipe sorted, and the report on it.
#[derive(Drop)]
pub struct Made {
    pub bytes: Vec<u8>,
    pub report: Report,
}

/// Reads a recipe by its name, and writes it under another name with its files by falling shared bytes, equal ones in their
/// old order.
pub fn sort<F: Shelf>(alloc: Global, shelf: &mut F, name: &str, out: &str) -> Result<Report, Halt>
    ensures report { IfOk result (λ report. ShelfEnds (F.tells shelf.old) (F.map shelf.old) (F.map shelf.new) (Creating out.now (SortEnds name.now)) report.status report.text.items) }
    ensures left { F.tells shelf.old ≡ true → LeavesOthers (F.tells shelf.old) (F.map shelf.old) (F.map shelf.new) out.now (Creating out.now (SortEnds name.now)) }
    ensures cause { HandsOn Halt.Outside (F.faults shelf.old) (F.faults shelf.new) result }
    ensures tells { F.tells shelf.new ≡ F.tells shelf.old }
{
    match recipe_named(alloc, shelf, name)? {
        Ok(recipe) => sort_of(alloc, shelf, &recipe, out),
        Err(report) => Ok(report),
    }
}

/// Writes a recipe sorted under a name.
fn sort_of<F: Shelf>(
    alloc: Global,
    shelf: &mut F,
    recipe: &Recipe,
    out: &str,
) -> Result<Report, Halt>
    ensures report { IfOk result (λ report. HasSorted (F.tells shelf.old) recipe.now report.status report.text.items (F.map shelf.new out.now)) }
    ensures left { F.tells shelf.old ≡ true → LeavesSorted recipe.now (F.map shelf.old out.now) (F.map shelf.new out.now) }
    ensures others { F.tells shelf.old ≡ true → OthersStay (F.map shelf.old) (F.map shelf.new) out.now }
    ensures cause { HandsOn Halt.Outside (F.faults shelf.old) (F.faults shelf.new) result }
    ensures tells { F.tells shelf.new ≡ F.tells shelf.old }
{
    match make(alloc, recipe) {
        Ok(made) => put(shelf, out, made),
        Err(NoMemory) => Err(Halt::Memory),
    }
}

/// Writes what is made of a recipe under a name, and reports on it.
fn put<F: Shelf>(shelf: &mut F, out: &str, made: Made) -> Result<Report, Halt>
    ensures report { (recipe : RecipeValue) → IsMade recipe made → IfOk result (λ report. HasSorted (F.tells shelf.old) recipe report.status report.text.items (F.map shelf.new out.now)) }
    ensures left { (recipe : RecipeValue) → IsMade recipe made → F.tells shelf.old ≡ true → LeavesSorted recipe (F.map shelf.old out.now) (F.map shelf.new out.now) }
    ensures others { F.tells shelf.old ≡ true → OthersStay (F.map shelf.old) (F.map shelf.new) out.now }
    ensures cause { HandsOn Halt.Outside (F.faults shelf.old) (F.faults shelf.new) result }
    ensures tells { F.tells shelf.new ≡ F.tells shelf.old }
{
    let Made { bytes, report } = made;
    match create_with(shelf, out, &bytes) {
        Ok(()) => Ok(report),
        Err(halt) => Err(halt),
    }
}

/// Makes the text of a recipe sorted, and the report on it.
fn make(alloc: Global, recipe: &Recipe) -> Result<Made, NoMemory>
    ensures { IfOk result (IsMade recipe.now) }
{
    likeness_laws();
    let sorted = sorted(alloc, recipe)?;
    let bytes = write_recipe(alloc, &sorted)?;
    let text = text_of_sort(alloc, recipe)?;
    let report = Report {
        status: Status::Done,
        text,
    };
    Ok(Made { bytes, report })
}

/// What `sort` prints.
fn text_of_sort(alloc: Global, recipe: &Recipe) -> Result<Vec<u8>, NoMemory>
    ensures { IfOk result (λ text. text.items ≡ sort_text recipe.now) }
{
    let _files = recipe.files();
    let mut text = Vec::new(alloc);
    add_number(&mut text, b"files", u64::from(recipe.files()))?;
    add_number(&mut text, b"pairs", recipe.pairs().len() as u64)?;
    Ok(text)
}
