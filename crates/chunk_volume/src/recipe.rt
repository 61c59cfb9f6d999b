// The recipe of a volume.
ghost use Rattle.std.specs.Prelude.{◌≡◌, ◌<◌, List, ℕ, Some, slice_get, IfOk, OnOk};
ghost use Rattle.std.specs.FinMap as fin_map;
ghost use Rattle.chunk_volume.specs.ReadingVolumes.{recipe_of, with_list};

use recipe_reader::Recipe;
use seed_model::NoMemory;
use std::alloc::Global;
use volume_index::Holding;

/// The files by name, each with its chunks by first appearance.
pub(crate) fn recipe_from(alloc: Global, holding: &Holding) -> Result<Recipe, NoMemory>
    ensures { IfOk result (λ recipe. recipe ≡ recipe_of holding.now.shape) }
{
    let mut recipe = Recipe::new(alloc);
    'files: for place in 0..holding.file_count() {
        add_list(&mut recipe, holding, place)?;
    }
    Ok(recipe)
}

// Adds a file with its chunks.
fn add_list(recipe: &mut Recipe, holding: &Holding, place: u32) -> Result<(), NoMemory>
    requires { place < fin_map.len holding.now.shape.files }
    ensures { (name : List ℕ) (list : List (List ℕ)) → slice_get (fin_map.keys holding.now.shape.files) place ≡ Some name → slice_get (fin_map.values holding.now.shape.files) place ≡ Some list
        → OnOk result (recipe.new ≡ with_list holding.now.shape recipe.old (name, list)) }
{
    let _files = holding.file_count();
    let name = holding.file_name(place);
    let list = holding.file_chunks(place);
    let Ok(file) = recipe.add_file(name) else {
        return Err(NoMemory);
    };
    'chunks: for chunk in list {
        let size = holding.chunk_len(chunk).unwrap();
        if recipe.add_pair(file, chunk, u64::from(size)).is_err() {
            return Err(NoMemory);
        }
    }
    Ok(())
}
