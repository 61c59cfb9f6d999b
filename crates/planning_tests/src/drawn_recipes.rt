// Recipes drawn from a number.
ghost use Rattle.std.specs.Prelude.{◌≤◌};

use load_gen::generate;
use recipe_reader::{Recipe, write_recipe};
use std::alloc::Global;

/// Whether a recipe is written as these rows.
fn has_rows(alloc: Global, recipe: &Recipe, rows: &[u8]) -> bool {
    match write_recipe(alloc, recipe) {
        Ok(text) => text.as_slice() == rows,
        Err(_) => false,
    }
}

/// Whether the recipe of so many files that is drawn from a number is written as these rows.
fn is_written(alloc: Global, number: u32, files: u32, rows: &[u8]) -> bool
    requires number { number ≤ 65535 }
    requires some { 1 ≤ files }
    requires few { files ≤ 16383 }
{
    match generate(alloc, number, files) {
        Ok(recipe) => has_rows(alloc, &recipe, rows),
        Err(_) => false,
    }
}

/// Whether the recipe of so many files that is drawn from a number has so many chunks and bytes.
fn is_counted(alloc: Global, number: u32, files: u32, counts: (u32, u64)) -> bool
    requires number { number ≤ 65535 }
    requires some { 1 ≤ files }
    requires few { files ≤ 16383 }
{
    match generate(alloc, number, files) {
        Ok(recipe) => recipe.files() == files && (recipe.chunks(), recipe.total()) == counts,
        Err(_) => false,
    }
}

#[test]
fn two_files_have_four_chunks_each_counted_once(rt: HostRuntime) {
    let rows: &[u8] = b"f0,00000005,2885\nf0,00000004,2508\nf1,00000003,2131\nf1,00000005,2885\n";
    assert!(rt; is_written(rt.alloc(), 1, 2, rows));
    assert!(rt; is_counted(rt.alloc(), 1, 2, (3, 7524)));
}

/// Whether the last of the most files that are drawn from a number has this name.
fn is_last_name(alloc: Global, name: &str) -> bool {
    match generate(alloc, 65_535, 16_383) {
        Ok(recipe) => recipe.files() == 16_383 && recipe.file_name(16_382) == name,
        Err(_) => false,
    }
}

#[test]
fn as_many_files_as_there_may_be(rt: HostRuntime) {
    assert!(rt; is_last_name(rt.alloc(), "f16382"));
}
