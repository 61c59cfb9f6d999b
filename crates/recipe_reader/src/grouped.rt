// Pairs that come file by file, as the rows of a text mostly do: whether one is known is told without a search.
ghost use Rattle.std.specs.Prelude.{◌≡◌, ◌<◌, ◌∷◌, ◌++◌, [], ℕ, length, true, false, IfOk, OnOk, OnErr};
ghost use Rattle.std.specs.List.{list_any};
ghost use Rattle.recipe_reader.specs.Grouped.{IsLast, latest_of};
ghost use Rattle.recipe_reader.specs.Recipes.{is_pair};

use crate::text_key::FastKey;
use indexmap::IndexSet;
use seed_model::NoMemory;
use std::alloc::Global;
use std::marker::Model;

/// Pairs by first appearance, looked up by hashing.
pub(crate) type PairSet = IndexSet<(u32, u32), FastKey>;

/// Distinct pairs of a file and a chunk, none with a file before the one of the pair before it; and the latest file of
/// each chunk.
#[derive(Drop)]
pub(crate) struct GroupedPairs {
    pairs: Vec<(u32, u32)>,
    latest: Vec<Option<u32>>,
    last: u32,
}

impl Model for GroupedPairs {
    ghost use Rattle.std.specs.Prelude.{List, ℕ};
    ghost use Rattle.recipe_reader.specs.GroupedInside.{pairs_of, KeepsGroups};

    ghost Value = { List (ℕ × ℕ) };

    ghost view = { pairs_of };

    ghost invariant = { KeepsGroups };
}

impl GroupedPairs {
    /// No pairs, with room ahead for so many where there is memory for that.
    pub(crate) fn with_room(alloc: Global, count: usize) -> Self
        ensures { result ≡ [] }
    {
        GroupedPairs {
            pairs: room_for(alloc, count),
            latest: Vec::new(alloc),
            last: 0,
        }
    }

    /// The pairs, in order.
    pub(crate) fn as_slice(&self) -> &[(u32, u32)]
        ensures { result.now ≡ self.now }
    {
        self.pairs.as_slice()
    }

    /// Whether no pair has a later file than this one.
    pub(crate) fn is_last(&self, file: u32) -> bool
        ensures { result ≡ true → IsLast file self.now }
    {
        self.last <= file
    }

    /// Whether a pair of the last file is among them.
    pub(crate) fn contains(&self, file: u32, chunk: u32) -> bool
        requires { IsLast file self.now }
        ensures { result ≡ list_any (is_pair file chunk) self.now }
    {
        match latest_in(&self.latest, chunk) {
            Some(late) => late == file,
            None => false,
        }
    }

    /// Puts a new pair of the last file behind the others.
    pub(crate) fn push(&mut self, file: u32, chunk: u32) -> Result<(), NoMemory>
        requires last { IsLast file self.old }
        requires new { list_any (is_pair file chunk) self.old ≡ false }
        ensures ok { OnOk result (self.new ≡ self.old ++ (file, chunk) ∷ []) }
        ensures err { OnErr result (self.new ≡ self.old) }
    {
        make_place(&mut self.latest, chunk)?;
        self.pairs.push((file, chunk))?;
        self.latest[chunk as usize] = Some(file);
        self.last = file;
        Ok(())
    }

    /// The same pairs as a set, with as much room as they have.
    pub(crate) fn to_set(&self, key: FastKey) -> Result<PairSet, NoMemory>
        ensures { IfOk result (λ set. set.keys ≡ self.now) }
    {
        let alloc = *self.pairs.allocator();
        let mut set = IndexSet::with_capacity_and_hasher(alloc, self.pairs.capacity(), key)?;
        for pair in &self.pairs {
            put_last(&mut set, pair.0, pair.1)?;
        }
        Ok(set)
    }
}

/// No pairs, with room ahead for so many where there is memory for that.
fn room_for(alloc: Global, count: usize) -> Vec<(u32, u32)>
    ensures { result.items ≡ [] }
{
    match Vec::with_capacity(alloc, count) {
        Ok(pairs) => pairs,
        Err(_) => Vec::new(alloc),
    }
}

/// The latest file of a chunk, if any.
fn latest_in(latest: &[Option<u32>], chunk: u32) -> Option<u32>
    ensures { result ≡ latest_of latest.now chunk }
{
    let place = chunk as usize;
    if place < latest.len() {
        return latest[place];
    }
    None
}

/// Makes a place for the latest file of a chunk, where there is none yet.
fn make_place(latest: &mut Vec<Option<u32>>, chunk: u32) -> Result<(), NoMemory>
    ensures place { OnOk result (chunk < length latest.new.items) }
    ensures same { (other : ℕ) → latest_of latest.new.items other ≡ latest_of latest.old.items other }
{
    let count = chunk as usize + 1;
    if latest.len() < count {
        latest.resize(count, None)?;
    }
    Ok(())
}

/// Puts a new pair last.
pub(crate) fn put_last(set: &mut PairSet, file: u32, chunk: u32) -> Result<(), NoMemory>
    requires { list_any (is_pair file chunk) set.old.keys ≡ false }
    ensures ok { OnOk result (set.new.keys ≡ set.old.keys ++ (file, chunk) ∷ []) }
    ensures err { OnErr result (set.new.keys ≡ set.old.keys) }
{
    set.insert((file, chunk))?;
    Ok(())
}

/// Whether a pair is among these, found by looking at each.
pub(crate) fn stands_in(pairs: &[(u32, u32)], file: u32, chunk: u32) -> bool
    ensures { result ≡ list_any (is_pair file chunk) pairs.now }
{
    pairs.iter().any(|pair| file == pair.0 && chunk == pair.1)
}
