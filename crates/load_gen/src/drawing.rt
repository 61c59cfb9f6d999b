// A recipe drawn file by file.
ghost use Rattle.std.specs.Prelude.{◌≡◌, ℕ, ◌*◌, ◌+◌, ◌<◌, ◌≤◌, IfOk, OnOk};
ghost use Rattle.std.specs.String.{string_bytes};
ghost use Rattle.recipe_reader.specs.Appearance.{Gathers};
ghost use Rattle.recipe_reader.specs.RecipeRows.{with_row};
ghost use Rattle.load_gen.specs.Draws.{next_number, file_named, row_of, rows_drawn, recipe_drawn};
ghost use Rattle.load_gen.specs.Takes.{Takes};

use recipe_reader::{AddError, Recipe};
use seed_model::NoMemory;
use seed_model::limits::MOST_FILES;
use std::alloc::Global;

/// How many chunks are drawn for each file; one that is drawn again counts once.
const DRAWS_A_FILE: u32 = 4;

/// The recipe that is drawn from a number, with so many files, 1 to `MOST_FILES`. The numbers drawn from `number`, which
/// is below 65,536, are the states of a generator: each is 75 times the one before and 74 more, modulo 65,537. Four are
/// drawn for each file. Each, modulo three times the number of files, is the number of a chunk that the file uses: its
/// name is that number in four bytes, the most significant first, and its size is from 1,000 to 9,999 bytes. A file's name
/// is `f` and the file's number, from 0.
///
/// # Errors
///
/// `NoMemory` where memory runs out.
pub fn generate(alloc: Global, number: u32, files: u32) -> Result<Recipe, NoMemory>
    requires number { number ≤ 65535 }
    requires some { 1 ≤ files }
    requires few { files ≤ MOST_FILES }
    ensures recipe { IfOk result (λ r. r ≡ recipe_drawn number files (4 * files)) }
    ensures gathered { IfOk result (λ r. Gathers (rows_drawn number files) r) }
{
    let mut recipe = Recipe::new(alloc);
    let mut state = number;
    for file in 0..files {
        let name = file_name(alloc, file)?;
        for _draw in 0..DRAWS_A_FILE {
            state = next_state(state);
            add_row(&mut recipe, &name, state % (3 * files))?;
        }
    }
    Ok(recipe)
}

/// The state that follows on a state.
fn next_state(state: u32) -> u32
    requires { state < 65537 }
    ensures next { result ≡ next_number state }
    ensures below { result < 65537 }
{
    (75 * state + 74) % 65_537
}

/// The name of a file.
fn file_name(alloc: Global, file: u32) -> Result<String, NoMemory>
    ensures { IfOk result (λ name. string_bytes name ≡ file_named file) }
{
    match format!(in alloc; "f{file}") {
        Ok(name) => Ok(name),
        Err(_) => Err(NoMemory),
    }
}

/// Adds that a file uses the chunk with this number.
fn add_row(recipe: &mut Recipe, file: &str, chunk: u32) -> Result<(), NoMemory>
    requires { Takes recipe.old file.now chunk }
    ensures { OnOk result (recipe.new ≡ with_row recipe.old (row_of file.now chunk)) }
{
    let file = match recipe.add_file(file) {
        Ok(file) => file,
        Err(error) => return Err(want_of(error)),
    };
    let size = 1000 + u64::from(377 * chunk % 9000);
    match recipe.add_pair(file, &chunk.to_be_bytes(), size) {
        Ok(()) => Ok(()),
        Err(error) => Err(want_of(error)),
    }
}

/// Want of memory, as this crate says it.
fn want_of(error: AddError) -> NoMemory
    requires { error ≡ AddError.Memory }
{
    match error {
        AddError::Memory => NoMemory,
        _ => unreachable!(),
    }
}
