// Files of two volumes in one index.
ghost use Rattle.std.specs.Prelude.{◌≡◌, ℕ, ◌≤◌, List, length, true, false, IfOk, OnOk};
ghost use Rattle.std.specs.FinMap as fin_map;
ghost use Rattle.file_names.specs.FileNames.{IsFileName};
ghost use Rattle.site_forms.specs.Names.{is_distinct};
ghost use Rattle.site_forms.specs.Volumes.{empty_volume, holds_all};
ghost use Rattle.volume_index.specs.HoldingValues.{KeepsShape};
ghost use Rattle.site_core.specs.Fitting.{HoldsChunksOf, HoldsUsed, AddsCopy, AddsFiles, AddsNamed, Merges};

use seed_model::NoMemory;
use site_forms::Names;
use std::alloc::Global;
use volume_index::{Holding, Index};

/// Adds the chunks of a volume that are lacking, each as one byte.
pub(crate) fn add_chunks(index: &mut Index, holding: &Holding) -> Result<(), NoMemory>
    ensures files { OnOk result (index.new.shape.files ≡ index.old.shape.files) }
    ensures old { OnOk result (HoldsChunksOf index.new.shape index.old.shape) }
    ensures new { OnOk result (HoldsChunksOf index.new.shape holding.now.shape) }
{
    for place in 0..holding.chunk_count() {
        let name = holding.chunk_name(place);
        if index.extent(name).is_none() {
            index.add_chunk(name, 0, 1)?;
        }
    }
    Ok(())
}

/// Adds a file whose chunks are held; false where the files with it pass the limits of a recipe.
pub(crate) fn add_copy(
    alloc: Global,
    index: &mut Index,
    name: &str,
    list: &[[u8; 32]],
) -> Result<bool, NoMemory>
    requires lawful { IsFileName name.now }
    requires lacking { fin_map.contains_key index.old.shape.files name.now ≡ false }
    requires held { holds_all index.old.shape list.now ≡ true }
    requires short { length list.now ≤ 524279 }
    ensures { IfOk result (λ is. AddsCopy index.old.shape name.now list.now index.new.shape is) }
{
    let _files = index.file_count();
    if !index.may_add_file(name, list) {
        return Ok(false);
    }
    let copy = String::from_str(alloc, name)?;
    let mut chunks = Vec::new(alloc);
    chunks.extend_from_slice(list)?;
    index.add_file(copy, chunks)?;
    Ok(true)
}

/// Adds the files of a volume that are lacking; false where the files with them pass the limits of a recipe.
pub(crate) fn add_files(
    alloc: Global,
    index: &mut Index,
    holding: &Holding,
) -> Result<bool, NoMemory>
    requires { HoldsChunksOf index.old.shape holding.now.shape }
    ensures { IfOk result (λ is. AddsFiles index.old.shape holding.now.shape index.new.shape is) }
{
    'files: for place in 0..holding.file_count() {
        let name = holding.file_name(place);
        if index.find(name).is_none() {
            if !add_copy(alloc, index, name, holding.file_chunks(place))? {
                return Ok(false);
            }
        }
    }
    Ok(true)
}

/// Adds the named files of another index to one without files; false where one of them is lacking there.
pub(crate) fn add_named(
    alloc: Global,
    index: &mut Index,
    whole: &Index,
    names: &Names,
) -> Result<bool, NoMemory>
    requires empty { index.old.shape.files ≡ fin_map.empty }
    requires chunks { HoldsUsed index.old.shape whole.now.shape }
    requires distinct { is_distinct names.now ≡ true }
    ensures { IfOk result (λ is. AddsNamed whole.now.shape names.now index.new.shape is) }
{
    let _files = whole.file_count();
    'names: for place in 0..names.len() {
        let name = names.get(place);
        let Some(file) = whole.find(name) else {
            return Ok(false);
        };
        let _ = add_copy(alloc, index, name, whole.file_chunks(file))?;
    }
    Ok(true)
}

/// Puts the files of two volumes into an index with nothing, under a name of both the list of the first; false where they
/// pass the limits of a recipe.
pub(crate) fn merge(
    alloc: Global,
    whole: &mut Index,
    a: &Holding,
    b: &Holding,
) -> Result<bool, NoMemory>
    requires { whole.old.shape ≡ empty_volume }
    ensures { IfOk result (λ is. Merges a.now.shape b.now.shape whole.new.shape is) }
{
    let _files = a.file_count();
    add_chunks(whole, a)?;
    add_chunks(whole, b)?;
    if !add_files(alloc, whole, a)? {
        return Ok(false);
    }
    add_files(alloc, whole, b)
}
