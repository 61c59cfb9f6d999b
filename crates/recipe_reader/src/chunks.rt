// The chunks of a recipe: names and sizes.
ghost use Rattle.std.specs.Prelude.{◌≡◌, ◌<◌, ◌≤◌, ◌∷◌, ◌++◌, [], List, ℕ, length, false, Some, slice_get, option_map, IfSome, IfOk, OnOk, OnErr};
ghost use Rattle.std.specs.List.{list_any};
ghost use Rattle.recipe_reader.specs.Recipes.{NamedChunk, is_chunk};
ghost use Rattle.list_facts.specs.Firsts.{IsNumberOf};

use crate::chunk::{Chunk, ChunkName};
use crate::error::{GREATEST_SIZE, LONGEST_CHUNK_NAME};
use crate::text_key::FastKey;
use indexmap::IndexSet;
use seed_model::NoMemory;
use std::alloc::Global;
use std::marker::Model;

// The most bytes of a short name.
const SHORT: usize = 15;

/// Chunks, numbered from 0 by first appearance. While all names are short they stand close together, so that look-ups
/// find them in fast memory; from the first longer name on, each chunk has room for the longest one.
#[derive(Drop)]
pub(crate) struct ChunkList {
    short: IndexSet<Chunk<SHORT>, FastKey>,
    long: IndexSet<Chunk<LONGEST_CHUNK_NAME>, FastKey>,
    is_long: bool,
}

impl Model for ChunkList {
    ghost use Rattle.std.specs.Prelude.{◌≡◌, ◌≤◌, List, All, length, false, if◌then◌else◌};
    ghost use Rattle.std.specs.Coded.{coded_list};
    ghost use Rattle.recipe_reader.specs.Recipes.{NamedChunk, chunk_code};

    ghost Value = { List NamedChunk };

    ghost coded = { coded_list chunk_code };

    ghost view = { λ a. if a.is_long then a.long.keys else a.short.keys };

    ghost invariant = { λ a. a.is_long ≡ false → All (λ c. length c.name ≤ 15) a.short.keys };
}

impl ChunkList {
    /// No chunks, with room ahead for so many where there is memory for that.
    pub(crate) fn with_room(alloc: Global, key: FastKey, count: usize) -> Self
        ensures { result ≡ [] }
    {
        ChunkList {
            short: room_for(alloc, key, count),
            long: IndexSet::with_hasher(alloc, key),
            is_long: false,
        }
    }

    /// How many chunks there are.
    pub(crate) fn len(&self) -> usize
        ensures { result ≡ length self.now }
    {
        if self.is_long {
            return self.long.len();
        }
        self.short.len()
    }

    /// The number and the size of the chunk with a name.
    pub(crate) fn find(&self, name: &ChunkName) -> Option<(usize, u64)>
        ensures number { IsNumberOf (is_chunk name.now) self.now (option_map (λ p. p.0) result) }
        ensures size { IfSome result (λ p. slice_get self.now p.0 ≡ Some (record { name = name.now; size = p.1 })) }
    {
        let len = name.len();
        if self.is_long {
            return find_in(&self.long, name);
        }
        if len > SHORT {
            return None;
        }
        find_in(&self.short, name)
    }

    /// Puts a new chunk last.
    pub(crate) fn push(&mut self, name: &ChunkName, size: u64) -> Result<(), NoMemory>
        requires small { size ≤ GREATEST_SIZE }
        requires new { list_any (is_chunk name.now) self.old ≡ false }
        ensures ok { OnOk result (self.new ≡ self.old ++ record { name = name.now; size = size } ∷ []) }
        ensures err { OnErr result (self.new ≡ self.old) }
    {
        let len = name.len();
        if self.is_long {
            return put_last(&mut self.long, name, size);
        }
        if len <= SHORT {
            return put_last(&mut self.short, name, size);
        }
        let mut long = with_longer_names(&self.short)?;
        put_last(&mut long, name, size)?;
        self.become_long(long);
        Ok(())
    }

    // Becomes the chunks of a set.
    fn become_long(&mut self, set: IndexSet<Chunk<LONGEST_CHUNK_NAME>, FastKey>)
        ensures { self.new ≡ set.keys }
    {
        self.short = IndexSet::with_hasher(*set.allocator(), *set.hasher());
        self.long = set;
        self.is_long = true;
    }

    /// Takes the last chunk away.
    pub(crate) fn forget_last(&mut self)
        ensures { (front : List NamedChunk) (chunk : NamedChunk) → self.old ≡ front ++ chunk ∷ [] → self.new ≡ front }
    {
        if self.is_long {
            let _ = self.long.pop();
        } else {
            let _ = self.short.pop();
        }
    }

    /// The name and the size of the chunk with a number.
    pub(crate) fn get(&self, number: usize) -> (&[u8], u64)
        requires { number < length self.now }
        ensures { slice_get self.now number ≡ Some (record { name = result.0.now; size = result.1 }) }
    {
        if self.is_long {
            let chunk = &self.long.as_slice()[number];
            return (chunk.name(), chunk.size());
        }
        let chunk = &self.short.as_slice()[number];
        (chunk.name(), chunk.size())
    }
}

// No chunks, with room ahead for so many where there is memory for that.
fn room_for<const N: usize>(
    alloc: Global,
    key: FastKey,
    count: usize,
) -> IndexSet<Chunk<N>, FastKey>
    ensures { result.keys ≡ [] }
{
    match IndexSet::with_capacity_and_hasher(alloc, count, key) {
        Ok(chunks) => chunks,
        Err(_) => IndexSet::with_hasher(alloc, key),
    }
}

// The number and the size of the chunk with a name.
fn find_in<const N: usize>(
    chunks: &IndexSet<Chunk<N>, FastKey>,
    name: &ChunkName,
) -> Option<(usize, u64)>
    requires room { N ≤ LONGEST_CHUNK_NAME }
    requires short { length name.now ≤ N }
    ensures number { IsNumberOf (is_chunk name.now) chunks.now.keys (option_map (λ p. p.0) result) }
    ensures size { IfSome result (λ p. slice_get chunks.now.keys p.0 ≡ Some (record { name = name.now; size = p.1 })) }
{
    match chunks.get_full(&Chunk::new(name, 0)) {
        Some((number, chunk)) => Some((number, chunk.size())),
        None => None,
    }
}

// Puts a new chunk last.
fn put_last<const N: usize>(
    chunks: &mut IndexSet<Chunk<N>, FastKey>,
    name: &ChunkName,
    size: u64,
) -> Result<(), NoMemory>
    requires room { N ≤ LONGEST_CHUNK_NAME }
    requires short { length name.now ≤ N }
    requires small { size ≤ GREATEST_SIZE }
    requires new { list_any (is_chunk name.now) chunks.old.keys ≡ false }
    ensures ok { OnOk result (chunks.new.keys ≡ chunks.old.keys ++ record { name = name.now; size = size } ∷ []) }
    ensures err { OnErr result (chunks.new.keys ≡ chunks.old.keys) }
{
    chunks.insert(Chunk::new(name, size))?;
    Ok(())
}

// The same chunks, with as much room for more as they have, and each with room for the longest name.
fn with_longer_names(
    short: &IndexSet<Chunk<SHORT>, FastKey>,
) -> Result<IndexSet<Chunk<LONGEST_CHUNK_NAME>, FastKey>, NoMemory>
    ensures { IfOk result (λ long. long.keys ≡ short.now.keys) }
{
    let mut long = IndexSet::with_capacity_and_hasher(
        *short.allocator(),
        short.capacity(),
        *short.hasher(),
    )?;
    for chunk in short.as_slice() {
        put_last(&mut long, &ChunkName::of(chunk.name()), chunk.size())?;
    }
    Ok(long)
}
