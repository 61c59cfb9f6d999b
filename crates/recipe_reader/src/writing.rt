// Recipes as rows of text.
ghost use Rattle.std.specs.Prelude.{◌≡◌, ◌<◌, ℕ, length, All, IfOk, OnOk};
ghost use Rattle.csv.specs.Writing.{default_writer, row_text};
ghost use Rattle.csv_rows.specs.Rows.{rows_of, rows_text};
ghost use Rattle.csv_rows.specs.Written.{with_more};
ghost use Rattle.recipe_reader.specs.Lawful.{IsRecipe};
ghost use Rattle.recipe_reader.specs.Recipes.{RecipeValue};
ghost use Rattle.recipe_reader.specs.Same.{ReadsBack};
ghost use Rattle.recipe_reader.specs.WrittenRows.{file_rows, pair_row, rows_of_recipe};

use crate::error::LONGEST_CHUNK_NAME;
use crate::recipe::Recipe;
use csv_rows::RowWriter;
use list_facts::group;
use seed_model::{NoMemory, write_number};
use std::alloc::Global;

/// The rows of a recipe as text: file by file, and within a file by first appearance of its pairs; chunk names in
/// lower-case hex. A file without chunks has one row that names none. Read again, the text gives an equal recipe: the
/// same files in order, and the same chunks, sizes and pairs by name.
pub fn write_recipe(alloc: Global, recipe: &Recipe) -> Result<Vec<u8>, NoMemory>
    ensures text { IfOk result (λ text. text.items ≡ rows_text (rows_of_recipe recipe.now)) }
    ensures reads_back { IfOk result (λ text. ReadsBack (rows_of text.items) recipe.now) }
{
    let files = recipe.files();
    let by_file = group(alloc, recipe.pairs(), files, 0)?;
    let mut writer = RowWriter::new(alloc);
    let mut digits = Vec::new(alloc);
    for file in 0..files {
        write_file(&mut writer, recipe, file, by_file.list(file), &mut digits)?;
    }
    writer.finish()
}

// Writes the rows of a file that uses these chunks; `digits` is room for a number.
fn write_file(
    writer: &mut RowWriter,
    recipe: &Recipe,
    file: u32,
    chunks: &[u32],
    digits: &mut Vec<u8>,
) -> Result<(), NoMemory>
    requires file { file < length recipe.now.files }
    requires chunks { All (λ chunk. chunk < length recipe.now.chunks) chunks.now }
    ensures { OnOk result (writer.new ≡ with_more writer.old (rows_text (file_rows recipe.now file chunks.now))) }
{
    if chunks.is_empty() {
        let name = recipe.file_name(file).as_bytes();
        return writer.row(&[name, b"".as_slice(), b"0".as_slice()]);
    }
    for chunk in chunks {
        write_pair(writer, recipe, file, *chunk, digits)?;
    }
    Ok(())
}

// Writes the row of a pair.
fn write_pair(
    writer: &mut RowWriter,
    recipe: &Recipe,
    file: u32,
    chunk: u32,
    digits: &mut Vec<u8>,
) -> Result<(), NoMemory>
    requires file { file < length recipe.now.files }
    requires chunk { chunk < length recipe.now.chunks }
    ensures { OnOk result (writer.new ≡ with_more writer.old (row_text default_writer (pair_row recipe.now file chunk))) }
{
    let name = recipe.chunk_name(chunk);
    let mut room = [0; 2 * LONGEST_CHUNK_NAME];
    let hex = &mut room[..2 * name.len()];
    hex::encode_to_slice(name, hex).unwrap();
    digits.clear();
    write_number(recipe.size(chunk) as u128, digits)?;
    writer.row(&[recipe.file_name(file).as_bytes(), hex, digits.as_slice()])
}

/// The text of a recipe has the rows of the recipe: reading skips, splits and joins none of them. And those rows lead to
/// an equal recipe.
pub fn written_laws()
    ensures rows { (recipe : RecipeValue) → IsRecipe recipe → rows_of (rows_text (rows_of_recipe recipe)) ≡ rows_of_recipe recipe }
    ensures reads_back { (recipe : RecipeValue) → IsRecipe recipe → ReadsBack (rows_of_recipe recipe) recipe }
{}
