// Recipes with their files in another order.
ghost use Rattle.std.specs.Prelude.{◌≡◌, ◌<◌, All, length, IfOk, OnOk};
ghost use Rattle.recipe_reader.specs.Recipes.{name_at, with_pair};
ghost use Rattle.recipe_reader.specs.Same.{UsesByName};
ghost use Rattle.recipe_reader.specs.WrittenRows.{chunks_used, file_at};
ghost use Rattle.recipe_order.specs.Parts.{IsPartOf};
ghost use Rattle.recipe_order.specs.Sorted.{IsSorted, chunk_at, in_order, with_file_of};

use crate::order::order_of;
use list_facts::group;
use recipe_reader::{AddError, Recipe};
use seed_model::NoMemory;
use std::alloc::Global;

/// The recipe with its files by falling shared bytes, equal ones in their old order; a file shares the bytes of its chunks
/// that another file uses too. Chunks are numbered by first appearance in the new order. File names, chunks with their
/// sizes and pairs by name are those of the old recipe.
///
/// # Errors
///
/// `NoMemory` where memory runs out.
pub fn sorted(alloc: Global, recipe: &Recipe) -> Result<Recipe, NoMemory>
    ensures { IfOk result (IsSorted recipe.now) }
{
    let _files = recipe.files();
    let order = order_of(alloc, recipe)?;
    let copy = copy_in_order(alloc, recipe, &order)?;
    Ok(copy)
}

/// The recipe with its files in an order.
fn copy_in_order(alloc: Global, recipe: &Recipe, order: &[u32]) -> Result<Recipe, NoMemory>
    requires { All (λ file. file < length recipe.now.files) order.now }
    ensures copied { IfOk result (λ copy. copy ≡ in_order recipe.now order.now) }
    ensures part { IfOk result (IsPartOf recipe.now) }
{
    let by_file = group(alloc, recipe.pairs(), recipe.files(), 0)?;
    let mut copy = Recipe::new(alloc);
    for file in order {
        copy_file(&mut copy, recipe, *file, by_file.list(*file))?;
    }
    Ok(copy)
}

/// Puts a file of a recipe last in a part of it, with the chunks that it uses.
fn copy_file(copy: &mut Recipe, recipe: &Recipe, file: u32, chunks: &[u32]) -> Result<(), NoMemory>
    requires file { file < length recipe.now.files }
    requires chunks { chunks.now ≡ chunks_used recipe.now.pairs file }
    requires part { IsPartOf recipe.now copy.old }
    ensures copied { OnOk result (copy.new ≡ with_file_of recipe.now copy.old file) }
    ensures part { OnOk result (IsPartOf recipe.now copy.new) }
{
    let _files = recipe.files();
    let number = match copy.add_file(recipe.file_name(file)) {
        Ok(number) => number,
        Err(error) => return Err(want_of(error)),
    };
    for chunk in chunks {
        copy_chunk(copy, recipe, number, *chunk)?;
    }
    Ok(())
}

/// Says in a part of a recipe that a file, by its number in the part, uses a chunk of the recipe.
fn copy_chunk(copy: &mut Recipe, recipe: &Recipe, number: u32, chunk: u32) -> Result<(), NoMemory>
    requires number { number < length copy.old.files }
    requires chunk { chunk < length recipe.now.chunks }
    requires used { UsesByName recipe.now (file_at copy.old number) (name_at recipe.now chunk) }
    requires part { IsPartOf recipe.now copy.old }
    ensures copied { OnOk result (copy.new ≡ with_pair copy.old number (chunk_at recipe.now chunk)) }
    ensures part { OnOk result (IsPartOf recipe.now copy.new) }
{
    let _files = recipe.files();
    match copy.add_pair(number, recipe.chunk_name(chunk), recipe.size(chunk)) {
        Ok(()) => Ok(()),
        Err(error) => Err(want_of(error)),
    }
}

/// Want of memory, as this crate says it.
fn want_of(error: AddError) -> NoMemory
    requires { error ≡ AddError.Memory }
{
    match error {
        AddError::Memory => NoMemory,
        _ => unreachable!(),
    }
}
