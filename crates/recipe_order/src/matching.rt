// Recipes that are one but for the order of their files and chunks, and sets of files carried from one to the other.
ghost use Rattle.std.specs.Prelude.{◌≡◌, ◌↔◌, ◌<◌, All, length, IfOk, IsTrue};
ghost use Rattle.incidence.specs.Incidences.{incidence_of};
ghost use Rattle.seed_model.specs.Files.{holds};
ghost use Rattle.seed_model.specs.SumLaws.{AgreesBelow};
ghost use Rattle.recipe_reader.specs.Recipes.{is_pair};
ghost use Rattle.std.specs.List.{list_any};
ghost use Rattle.recipe_order.specs.Matching.{AreAsLarge, AreNumbers, HaveSizesOf, StandsIn, chunk_names};
ghost use Rattle.recipe_order.specs.Parts.{IsPartOf};
ghost use Rattle.recipe_order.specs.Reordered.{IsReordered, carried_set};

use crate::name_table::{chunk_numbers, file_numbers};
use incidence::Incidence;
use recipe_reader::Recipe;
use seed_model::{NoMemory, PlanSet};
use std::alloc::Global;

/// Whether two recipes are one but for the order of their files and chunks: the same file names, the same chunks with their
/// sizes, and the same pairs by name. In time linear in both but for a search among the users of a chunk for each pair.
///
/// # Errors
///
/// `NoMemory` where memory runs out.
pub fn matches(alloc: Global, one: &Recipe, other: &Recipe) -> Result<bool, NoMemory>
    ensures { IfOk result (λ same. IsTrue same ↔ IsReordered one.now other.now) }
{
    let _one = one.files();
    let _other = other.files();
    if are_as_large(one, other) {
        return has_all(alloc, one, other);
    }
    Ok(false)
}

/// Whether two recipes have as many files, chunks and pairs.
fn are_as_large(one: &Recipe, other: &Recipe) -> bool
    ensures { IsTrue result ↔ AreAsLarge one.now other.now }
{
    one.files() == other.files()
        && one.chunks() == other.chunks()
        && one.pairs().len() == other.pairs().len()
}

/// Whether all files, chunks and pairs of a recipe are in another one, by name.
fn has_all(alloc: Global, whole: &Recipe, part: &Recipe) -> Result<bool, NoMemory>
    ensures { IfOk result (λ has. IsTrue has ↔ IsPartOf whole.now part.now) }
{
    let _whole = whole.files();
    let _part = part.files();
    let Some(files) = file_numbers(alloc, whole, part)? else {
        return Ok(false);
    };
    let Some(chunks) = chunk_numbers(alloc, whole, part)? else {
        return Ok(false);
    };
    if has_sizes(whole, part, &chunks) {
        let incidence = Incidence::of(alloc, whole)?;
        return Ok(has_pairs(whole, &incidence, part, &files, &chunks));
    }
    Ok(false)
}

/// Whether the chunks with these numbers have the sizes of another recipe's chunks.
fn has_sizes(whole: &Recipe, part: &Recipe, numbers: &[usize]) -> bool
    requires { AreNumbers (chunk_names whole.now) (chunk_names part.now) numbers.now }
    ensures { IsTrue result ↔ HaveSizesOf whole.now part.now numbers.now }
{
    let _whole = whole.files();
    for chunk in 0..part.chunks() {
        if whole.size(numbers[chunk as usize] as u32) != part.size(chunk) {
            return false;
        }
    }
    true
}

/// Whether all pairs of a recipe stand in another one, where its files and its chunks have these numbers.
fn has_pairs(
    whole: &Recipe,
    incidence: &Incidence,
    part: &Recipe,
    files: &[usize],
    chunks: &[usize],
) -> bool
    requires same { incidence.now ≡ incidence_of whole.now }
    requires files { AreNumbers whole.now.files part.now.files files.now }
    requires chunks { AreNumbers (chunk_names whole.now) (chunk_names part.now) chunks.now }
    ensures { IsTrue result ↔ All (StandsIn whole.now files.now chunks.now) part.now.pairs }
{
    let _whole = whole.files();
    for pair in part.pairs() {
        let file = files[pair.0 as usize] as u32;
        let chunk = chunks[pair.1 as usize] as u32;
        if !has_pair(whole, incidence, file, chunk) {
            return false;
        }
    }
    true
}

/// Whether a file uses a chunk.
fn has_pair(recipe: &Recipe, incidence: &Incidence, file: u32, chunk: u32) -> bool
    requires same { incidence.now ≡ incidence_of recipe.now }
    requires chunk { chunk < length recipe.now.chunks }
    ensures { result ≡ list_any (is_pair file chunk) recipe.now.pairs }
{
    let _files = recipe.files();
    incidence.users(chunk).binary_search(&file).is_ok()
}

/// The set of a recipe's files that has the names of a set of another's, where the two are one but for the order of their
/// files and chunks.
///
/// # Errors
///
/// `NoMemory` where memory runs out.
pub fn carried(
    alloc: Global,
    from: &Recipe,
    to: &Recipe,
    set: &PlanSet,
) -> Result<PlanSet, NoMemory>
    requires set { length set.now ≡ length from.now.files }
    requires same { IsReordered from.now to.now }
    ensures files { IfOk result (λ carried. length carried ≡ length to.now.files) }
    ensures same { IfOk result (λ carried. AgreesBelow (length to.now.files) (holds carried) (carried_set from.now to.now (holds set.now))) }
{
    let _from = from.files();
    let files = to.files();
    let Some(numbers) = file_numbers(alloc, from, to)? else {
        unreachable!();
    };
    let mut carried = PlanSet::empty(alloc, files)?;
    for file in 0..files {
        if set.contains(numbers[file as usize] as u32) {
            carried.insert(file);
        }
    }
    Ok(carried)
}
