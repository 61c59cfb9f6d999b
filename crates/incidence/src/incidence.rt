// The users of chunks and the chunks of files.
ghost use Rattle.std.specs.Prelude.{◌≡◌, ◌<◌, [], All, length, IfOk, map, slice_index, slice_index_or};
ghost use Rattle.std.specs.List.Sorted.{IsStrictlyIncreasing};
ghost use Rattle.recipe_reader.specs.Recipes.{users_of, chunks_of};
ghost use Rattle.incidence.specs.Incidences.{IsIncidence, incidence_of};

use list_facts::{KeyedLists, group, transpose};
use recipe_reader::Recipe;
use seed_model::NoMemory;
use std::alloc::Global;
use std::marker::Model;

/// The size and the users of each chunk, and the chunks of each file.
#[derive(Drop)]
pub struct Incidence {
    sizes: Vec<u64>,
    users: KeyedLists<u32>,
    chunks: KeyedLists<u32>,
}

impl Model for Incidence {
    ghost use Rattle.incidence.specs.Incidences.{IncidenceValue, incidence_code};
    ghost use Rattle.incidence.specs.Inside.{view_of, KeepsIncidence};

    ghost Value = { IncidenceValue };

    ghost coded = { incidence_code };

    ghost view = { view_of };

    ghost invariant = { KeepsIncidence };
}

impl Incidence {
    /// The incidence of a recipe, in time linear in its pairs.
    pub fn of(alloc: Global, recipe: &Recipe) -> Result<Incidence, NoMemory>
        ensures { IfOk result (λ incidence. incidence ≡ incidence_of recipe.now) }
    {
        let sizes = sizes_of(alloc, recipe)?;
        let users = users_by_chunk(alloc, recipe)?;
        let chunks = transpose(alloc, &users, recipe.files())?;
        Ok(Incidence {
            sizes,
            users,
            chunks,
        })
    }

    /// How many files there are.
    pub fn files(&self) -> u32
        ensures files { result ≡ length self.now.chunks }
        ensures incidence { IsIncidence self.now }
    {
        self.chunks.len()
    }

    /// How many chunks there are.
    pub fn chunk_count(&self) -> u32
        ensures chunks { result ≡ length self.now.users }
        ensures incidence { IsIncidence self.now }
    {
        self.users.len()
    }

    /// The size of a chunk in bytes.
    pub fn size(&self, chunk: u32) -> u64
        requires { chunk < length self.now.users }
        ensures { result ≡ slice_index self.now.sizes chunk }
    {
        self.sizes[chunk as usize]
    }

    /// The files that use a chunk, by number in strictly rising order.
    pub fn users(&self, chunk: u32) -> &[u32]
        requires { chunk < length self.now.users }
        ensures users { result.now ≡ slice_index_or self.now.users chunk [] }
        ensures some { 0 < length result.now }
        ensures rising { IsStrictlyIncreasing result.now }
        ensures below { All (λ file. file < length self.now.chunks) result.now }
    {
        self.users.list(chunk)
    }

    /// The chunks that a file uses, by number in strictly rising order.
    pub fn chunks(&self, file: u32) -> &[u32]
        requires { file < length self.now.chunks }
        ensures chunks { result.now ≡ slice_index_or self.now.chunks file [] }
        ensures rising { IsStrictlyIncreasing result.now }
        ensures below { All (λ chunk. chunk < length self.now.users) result.now }
    {
        self.chunks.list(file)
    }
}

/// The sizes of the chunks, in order.
fn sizes_of(alloc: Global, recipe: &Recipe) -> Result<Vec<u64>, NoMemory>
    ensures { IfOk result (λ sizes. sizes.items ≡ map (λ c. c.size) recipe.now.chunks) }
{
    let mut sizes = Vec::with_capacity(alloc, recipe.chunks() as usize)?;
    for chunk in 0..recipe.chunks() {
        sizes.push(recipe.size(chunk))?;
    }
    Ok(sizes)
}

/// The users of each chunk, in rising order: its files by the pairs, turned.
fn users_by_chunk(alloc: Global, recipe: &Recipe) -> Result<KeyedLists<u32>, NoMemory>
    ensures { IfOk result (λ users. users ≡ (incidence_of recipe.now).users) }
{
    let by_file = group(alloc, recipe.pairs(), recipe.files(), 0)?;
    Ok(transpose(alloc, &by_file, recipe.chunks())?)
}
