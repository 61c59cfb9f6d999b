// The names of a recipe's files.
ghost use Rattle.std.specs.Prelude.{◌≡◌, ◌<◌, ◌∷◌, ◌++◌, [], List, ℕ, length, false, slice_index_or, OnSome, OnOk, OnErr};
ghost use Rattle.std.specs.List.{list_any};
ghost use Rattle.recipe_reader.specs.Recipes.{is_named};
ghost use Rattle.list_facts.specs.Firsts.{IsNumberOf};

use crate::text_key::FastKey;
use indexmap::IndexSet;
use seed_model::NoMemory;
use std::alloc::Global;
use std::marker::Model;

/// Names, numbered from 0 by first appearance.
#[derive(Drop)]
pub(crate) struct FileList {
    names: IndexSet<String, FastKey>,
}

impl Model for FileList {
    ghost use Rattle.std.specs.Prelude.{List, ℕ};
    ghost use Rattle.list_facts.specs.Listed.{texts_in};

    ghost Value = { List (List ℕ) };

    ghost view = { λ a. texts_in a.names.keys };
}

impl FileList {
    /// No names.
    pub(crate) fn new(alloc: Global, key: FastKey) -> Self
        ensures { result ≡ [] }
    {
        FileList {
            names: IndexSet::with_hasher(alloc, key),
        }
    }

    /// How many names there are.
    pub(crate) fn len(&self) -> usize
        ensures { result ≡ length self.now }
    {
        self.names.len()
    }

    /// The number of the last name, where these bytes are that. The rows of a file mostly stand together, so this is
    /// asked first.
    pub(crate) fn find_last(&self, name: &[u8]) -> Option<usize>
        ensures { OnSome result (IsNumberOf (is_named name.now) self.now result) }
    {
        if let Some(last) = self.names.last() {
            if name == last.as_bytes() {
                return Some(self.names.len() - 1);
            }
        }
        None
    }

    /// The number of a name.
    pub(crate) fn find(&self, name: &str) -> Option<usize>
        ensures { IsNumberOf (is_named name.now) self.now result }
    {
        self.names.get_index_of(name)
    }

    /// Puts a new name last.
    pub(crate) fn push(&mut self, name: &str) -> Result<(), NoMemory>
        requires { list_any (is_named name.now) self.old ≡ false }
        ensures ok { OnOk result (self.new ≡ self.old ++ name.now ∷ []) }
        ensures err { OnErr result (self.new ≡ self.old) }
    {
        let Ok(owned) = String::from_str(*self.names.allocator(), name) else {
            return Err(NoMemory);
        };
        let Ok(_) = self.names.insert(owned) else {
            return Err(NoMemory);
        };
        Ok(())
    }

    /// The name with a number.
    pub(crate) fn get(&self, number: usize) -> &str
        requires { number < length self.now }
        ensures { result.now ≡ slice_index_or self.now number [] }
    {
        self.names.as_slice()[number].as_str()
    }
}
