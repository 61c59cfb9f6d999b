// Recipes from rows of text.
ghost use Rattle.std.specs.Prelude.{◌≡◌, ◌≢◌, ◌<◌, ◌≤◌, [], List, ℕ, length, slice_index_or, IfOk, IfErr, IfSome, IfNone, OnSome, OnOk};
ghost use Rattle.csv.specs.Records.{fields_of};
ghost use Rattle.csv_rows.specs.Rows.{rows_of};
ghost use Rattle.file_names.specs.FileNames.{IsFileName};
ghost use Rattle.recipe_reader.specs.Appearance.{IsGathered};
ghost use Rattle.recipe_reader.specs.Lawful.{IsChunkName, IsRecipe};
ghost use Rattle.recipe_reader.specs.Parts.{IsRowFault, fault_at, row_of};
ghost use Rattle.recipe_reader.specs.Reading.{IsFault, IsFirstFault, Leads, MayFollow, TakesRow};
ghost use Rattle.recipe_reader.specs.Recipes.{RecipeValue, IsFileOf, empty_recipe};
ghost use Rattle.recipe_reader.specs.RecipeRows.{with_row};

use crate::chunk::ChunkName;
use crate::error::{AddError, GREATEST_SIZE, RecipeError};
use crate::recipe::Recipe;
use crate::row::{field, read_chunk_name, read_size};
use csv::ByteRecord;
use csv_rows::RowReader;
use file_names::is_file_name;
use std::alloc::Global;

/// The recipe that the rows of a text lead to; or the first fault of the first row at fault. Each row is a file name, a
/// chunk name in hex and a size in bytes. Files, chunks and pairs are those that the rows name, by first appearance.
pub fn read_recipe(alloc: Global, text: &[u8]) -> Result<Recipe, RecipeError>
    ensures recipe { IfOk result (λ r. Leads empty_recipe (rows_of text.now) r) }
    ensures gathered { IfOk result (λ r. IsGathered (rows_of text.now) r) }
    ensures fault { IfErr result (λ e. e ≢ RecipeError.Memory → IsFirstFault empty_recipe (rows_of text.now) e) }
{
    let mut rows = RowReader::new(alloc, text);
    let mut row = ByteRecord::new(alloc);
    let mut recipe = Recipe::for_text(alloc, text);
    let mut name = ChunkName::new();
    for before in 0..u64::MAX {
        let Ok(found) = rows.next_row(&mut row) else {
            return Err(RecipeError::Memory);
        };
        if !found {
            return Ok(recipe);
        }
        take_row(&mut recipe, before + 1, &row, &mut name)?;
    }
    // No text has so many rows.
    unreachable!()
}

// Takes the row with this number; `room` is for the name of its chunk.
fn take_row(
    recipe: &mut Recipe,
    number: u64,
    row: &ByteRecord,
    room: &mut ChunkName,
) -> Result<(), RecipeError>
    ensures ok { OnOk result (TakesRow recipe.old (fields_of row.now) recipe.new) }
    ensures fault { IfErr result (λ e. e ≢ RecipeError.Memory → IsFault recipe.old number (fields_of row.now) e) }
{
    if row.len() != 3 {
        return Err(RecipeError::BadRow { row: number });
    }
    let text = field(row, 1);
    let name = read_chunk_name(text, room);
    let size = read_size(text, field(row, 2));
    // The file and the chunk are looked up one behind the other, so that the machine can wait for both at once.
    let Some(file) = file_in(recipe, field(row, 0)) else {
        return Err(RecipeError::BadName { row: number });
    };
    let Some(name) = name else {
        return Err(RecipeError::BadChunkName { row: number });
    };
    let Some(size) = size else {
        return Err(RecipeError::BadSize { row: number });
    };
    add_row(recipe, number, file, name, size)
}

// A file as a row names it: the bytes of its name, and the number where the recipe has the file.
#[derive(Drop)]
struct RowFile<'a> {
    name: &'a [u8],
    number: Option<u32>,
}

// The file that these bytes name, where they are a file name. The names that a recipe has are: only others are judged.
fn file_in<'a>(recipe: &Recipe, bytes: &'a [u8]) -> Option<RowFile<'a>>
    ensures same { IfSome result (λ file. (file.name.now ≡ bytes.now) × IsFileName bytes.now) }
    ensures known { IfSome result (λ file. IfSome file.number (IsFileOf recipe.now file.name.now)) }
    ensures none { IfNone result (¬ IsFileName bytes.now) }
{
    let number = match recipe.last_file_named(bytes) {
        Some(number) => Some(number),
        None => number_in(recipe, bytes)?,
    };
    Some(RowFile {
        name: bytes,
        number,
    })
}

// The number of the file that these bytes name, if the recipe has it. None where they are no file name.
fn number_in(recipe: &Recipe, bytes: &[u8]) -> Option<Option<u32>>
    ensures lawful { OnSome result (IsFileName bytes.now) }
    ensures known { IfSome result (λ number. IfSome number (IsFileOf recipe.now bytes.now)) }
    ensures none { IfNone result (¬ IsFileName bytes.now) }
{
    let Ok(name) = str::from_utf8(bytes) else {
        return None;
    };
    let number = recipe.file_named(name);
    if number.is_none() && !is_file_name(name) {
        return None;
    }
    Some(number)
}

// Adds what a row says: a file, and that it uses a chunk, if one is named.
fn add_row(
    recipe: &mut Recipe,
    number: u64,
    file: RowFile<'_>,
    name: &ChunkName,
    size: u64,
) -> Result<(), RecipeError>
    requires file { IsFileName file.name.now }
    requires known { IfSome file.number (IsFileOf recipe.old file.name.now) }
    requires name { 0 < length name.now → IsChunkName name.now }
    requires size { size ≤ GREATEST_SIZE }
    ensures ok { OnOk result (recipe.new ≡ with_row recipe.old (row_of file.entry.name.now name.now size)) }
    ensures follows { OnOk result (MayFollow recipe.old (row_of file.entry.name.now name.now size)) }
    ensures fault { IfErr result (λ e. e ≢ RecipeError.Memory → IsRowFault recipe.old number (row_of file.entry.name.now name.now size) e) }
{
    let file = match recipe.add_known(file.name, file.number) {
        Ok(file) => file,
        Err(fault) => {
            if let Some(first) = recipe.other_size(name, size) {
                return Err(RecipeError::SizeClash {
                    row: number,
                    first,
                    now: size,
                });
            }
            return Err(at_row(number, fault));
        }
    };
    if name.is_empty() {
        return Ok(());
    }
    match recipe.add_named(file, name, size) {
        Ok(()) => Ok(()),
        Err(fault) => Err(at_row(number, fault)),
    }
}

/// What rows that lead to a recipe make of it: its files, chunks and pairs are those that the rows name, by first
/// appearance, each row has its chunk's size, and the recipe is lawful. Rows lead to one recipe, or have one first fault, and never both.
pub fn recipe_laws()
    ensures gathered { (rows : List (List (List ℕ))) (recipe : RecipeValue) → Leads empty_recipe rows recipe → IsGathered rows recipe }
    ensures lawful { (rows : List (List (List ℕ))) (recipe : RecipeValue) → Leads empty_recipe rows recipe → IsRecipe recipe }
    ensures one { (rows : List (List (List ℕ))) (a b : RecipeValue) → Leads empty_recipe rows a → Leads empty_recipe rows b → a ≡ b }
    ensures one_fault { (rows : List (List (List ℕ))) (a b : RecipeError) → IsFirstFault empty_recipe rows a → IsFirstFault empty_recipe rows b → a ≡ b }
    ensures no_fault { (rows : List (List (List ℕ))) (recipe : RecipeValue) (fault : RecipeError) → Leads empty_recipe rows recipe → ¬ IsFirstFault empty_recipe rows fault }
{}

// The fault of the row with this number.
fn at_row(number: u64, fault: AddError) -> RecipeError
    ensures { result ≡ fault_at number fault }
{
    match fault {
        AddError::Clash { first, now } => RecipeError::SizeClash {
            row: number,
            first,
            now,
        },
        AddError::TooMany(what) => RecipeError::TooMany { row: number, what },
        AddError::Memory => RecipeError::Memory,
    }
}
