// The pairs of a recipe: a file's number and a chunk's number.
ghost use Rattle.std.specs.Prelude.{◌≡◌, ◌<◌, ◌≤◌, ◌∷◌, ◌++◌, [], length, false, IfErr, OnOk, OnErr};
ghost use Rattle.std.specs.List.{list_any};
ghost use Rattle.recipe_reader.specs.Recipes.{is_pair, with_new};

use crate::grouped::{GroupedPairs, PairSet, put_last, stands_in};
use crate::text_key::FastKey;
use indexmap::IndexSet;
use seed_model::NoMemory;
use seed_model::limits::MOST_PAIRS;
use std::alloc::Global;
use std::marker::Model;

/// Why a pair is not added.
#[derive(Clone, Copy, Debug, PartialEq, Eq)]
pub(crate) enum PairError {
    /// There are as many pairs as a recipe may have.
    Full,
    /// Memory ran out.
    Memory,
}

/// Distinct pairs, by first appearance. While they come file by file they are grouped; from the first pair of an earlier
/// file on they are a set.
#[derive(Drop)]
pub(crate) struct PairList {
    grouped: GroupedPairs,
    mixed: PairSet,
    is_mixed: bool,
}

impl Model for PairList {
    ghost use Rattle.std.specs.Prelude.{List, ℕ, if◌then◌else◌};

    ghost Value = { List (ℕ × ℕ) };

    ghost view = { λ a. if a.is_mixed then a.mixed.keys else a.grouped };
}

impl PairList {
    /// No pairs, with room ahead for so many where there is memory for that.
    pub(crate) fn with_room(alloc: Global, key: FastKey, count: usize) -> Self
        ensures { result ≡ [] }
    {
        PairList {
            grouped: GroupedPairs::with_room(alloc, count),
            mixed: IndexSet::with_hasher(alloc, key),
            is_mixed: false,
        }
    }

    /// The pairs, by first appearance.
    pub(crate) fn as_slice(&self) -> &[(u32, u32)]
        ensures { result.now ≡ self.now }
    {
        if self.is_mixed {
            return self.mixed.as_slice();
        }
        self.grouped.as_slice()
    }

    /// How many pairs there are.
    pub(crate) fn len(&self) -> usize
        ensures { result ≡ length self.now }
    {
        self.as_slice().len()
    }

    /// Whether this pair is among them.
    fn contains(&self, file: u32, chunk: u32) -> bool
        ensures { result ≡ list_any (is_pair file chunk) self.now }
    {
        if self.is_mixed {
            return self.mixed.contains(&(file, chunk));
        }
        if self.grouped.is_last(file) {
            return self.grouped.contains(file, chunk);
        }
        stands_in(self.grouped.as_slice(), file, chunk)
    }

    /// Puts a pair last where it is new, unless there are as many pairs as a recipe may have.
    pub(crate) fn add(&mut self, file: u32, chunk: u32) -> Result<(), PairError>
        ensures ok { OnOk result (self.new ≡ with_new (is_pair file chunk) self.old (file, chunk)) }
        ensures room { OnOk result (list_any (is_pair file chunk) self.old ≡ false → length self.old < MOST_PAIRS) }
        ensures err { OnErr result (self.new ≡ self.old) }
        ensures new { OnErr result (list_any (is_pair file chunk) self.old ≡ false) }
        ensures full { IfErr result (λ e. e ≡ PairError.Full → MOST_PAIRS ≤ length self.old) }
        ensures memory { IfErr result (λ e. e ≡ PairError.Memory → length self.old < MOST_PAIRS) }
    {
        self.make_searchable(file);
        if self.contains(file, chunk) {
            return Ok(());
        }
        if self.len() >= MOST_PAIRS as usize {
            return Err(PairError::Full);
        }
        match self.push(file, chunk) {
            Ok(()) => Ok(()),
            Err(NoMemory) => Err(PairError::Memory),
        }
    }

    /// Puts a new pair last. Before one of an earlier file, pairs that are grouped are made a set.
    pub(crate) fn push(&mut self, file: u32, chunk: u32) -> Result<(), NoMemory>
        requires { list_any (is_pair file chunk) self.old ≡ false }
        ensures ok { OnOk result (self.new ≡ self.old ++ (file, chunk) ∷ []) }
        ensures err { OnErr result (self.new ≡ self.old) }
    {
        if self.is_mixed {
            return put_last(&mut self.mixed, file, chunk);
        }
        if self.grouped.is_last(file) {
            return self.grouped.push(file, chunk);
        }
        let mut set = self.grouped.to_set(*self.mixed.hasher())?;
        put_last(&mut set, file, chunk)?;
        self.become_set(set);
        Ok(())
    }

    /// Before a pair of an earlier file is looked for among pairs that are grouped, makes them a set, so that it is not
    /// sought among all of them. Where there is no memory for that, they stay.
    fn make_searchable(&mut self, file: u32)
        ensures { self.new ≡ self.old }
    {
        if self.is_mixed || self.grouped.is_last(file) {
            return;
        }
        if let Ok(set) = self.grouped.to_set(*self.mixed.hasher()) {
            self.become_set(set);
        }
    }

    /// Becomes the pairs of a set.
    fn become_set(&mut self, set: PairSet)
        ensures { self.new ≡ set.keys }
    {
        self.grouped = GroupedPairs::with_room(*set.allocator(), 0);
        self.mixed = set;
        self.is_mixed = true;
    }
}
