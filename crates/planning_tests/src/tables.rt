// Tables of recipes, sets from masks and texts, nodes of two sets, and numbers that are drawn.
ghost use Rattle.std.specs.Prelude.{◌≡◌, ◌<◌, ◌≤◌, length, IfSome};
ghost use Rattle.seed_model.specs.Nodes.{IsNode};

use chunk_merge::merge;
use incidence::Incidence;
use recipe_reader::{Recipe, read_recipe};
use seed_model::{Node, PlanSet, Table, are_apart};
use seed_text::read_set;
use std::alloc::Global;

/// The rows of a recipe of three files and five chunks.
pub(crate) const FIVE: &[u8] = b"a,01,10\na,02,20\nb,01,10\nb,03,30\nb,05,7\nc,04,5\nc,05,7\n";

/// The table of a recipe, with a class for each set of users.
pub(crate) fn table_in(alloc: Global, recipe: &Recipe) -> Option<Table> {
    match Incidence::of(alloc, recipe) {
        Ok(incidence) => merge(alloc, &incidence).ok(),
        Err(_) => None,
    }
}

/// The table of the rows of a recipe.
pub(crate) fn table_of(alloc: Global, rows: &[u8]) -> Option<Table> {
    match read_recipe(alloc, rows) {
        Ok(recipe) => table_in(alloc, &recipe),
        Err(_) => None,
    }
}

/// The table of rows that were made.
pub(crate) fn table_of_made(alloc: Global, rows: Option<Vec<u8>>) -> Option<Table> {
    match rows {
        Some(rows) => table_of(alloc, &rows),
        None => None,
    }
}

/// The node of two sets, where they have no file in common.
fn node_of(table: &Table, inside: PlanSet, outside: PlanSet) -> Option<Node>
    requires inside { length inside ≡ table.now.files }
    requires outside { length outside ≡ table.now.files }
    ensures { IfSome result (IsNode table.now.files) }
{
    if !are_apart(&inside, &outside) {
        return None;
    }
    Some(Node { inside, outside })
}

/// The node of two sets, where both are there and have no file in common.
fn node_of_both(table: &Table, inside: Option<PlanSet>, outside: Option<PlanSet>) -> Option<Node>
    requires inside { IfSome inside (λ set. length set ≡ table.now.files) }
    requires outside { IfSome outside (λ set. length set ≡ table.now.files) }
    ensures { IfSome result (IsNode table.now.files) }
{
    match (inside, outside) {
        (Some(inside), Some(outside)) => node_of(table, inside, outside),
        _ => None,
    }
}

/// The mask of one file.
pub(crate) fn bit(file: u32) -> u32 {
    1 << (file % 32)
}

/// The set of the files whose bits are in a mask.
pub(crate) fn set_of(alloc: Global, files: u32, mask: u32) -> Option<PlanSet>
    ensures { IfSome result (λ set. length set ≡ files) }
{
    let mut set = PlanSet::empty(alloc, files).ok()?;
    for file in 0..files {
        if file < 32 && mask & bit(file) != 0 {
            set.insert(file);
        }
    }
    Some(set)
}

/// The node of two masks, where they have no file in common.
pub(crate) fn node_at(alloc: Global, table: &Table, inside: u32, outside: u32) -> Option<Node>
    ensures { IfSome result (IsNode table.now.files) }
{
    let inside = set_of(alloc, table.files(), inside);
    node_of_both(table, inside, set_of(alloc, table.files(), outside))
}

/// The set of a text, if it is one.
fn set_named(alloc: Global, table: &Table, text: &[u8]) -> Option<PlanSet>
    ensures { IfSome result (λ set. length set ≡ table.now.files) }
{
    match read_set(alloc, text, table.files()) {
        Ok(set) => set,
        Err(_) => None,
    }
}

/// The node of two texts of sets, where they have no file in common.
pub(crate) fn node_named(
    alloc: Global,
    table: &Table,
    inside: &[u8],
    outside: &[u8],
) -> Option<Node>
    ensures { IfSome result (IsNode table.now.files) }
{
    let inside = set_named(alloc, table, inside);
    node_of_both(table, inside, set_named(alloc, table, outside))
}

/// The next number of a fixed sequence.
pub(crate) fn draw(state: &mut u64, below: u32) -> u32
    requires { 1 ≤ below }
    ensures { result < below }
{
    *state = state
        .wrapping_mul(6364136223846793005)
        .wrapping_add(1442695040888963407);
    ((*state >> 33) % below as u64) as u32
}
