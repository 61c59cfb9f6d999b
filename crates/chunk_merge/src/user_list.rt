// Lists of users, each once.
ghost use Rattle.std.specs.Prelude.{◌≡◌, ◌∷◌, ◌++◌, [], length, false, IfOk, OnOk, OnErr};
ghost use Rattle.std.specs.List.{list_any};
ghost use Rattle.list_facts.specs.Firsts.{IsNumberOf};
ghost use Rattle.chunk_merge.specs.Classes.{classes_in};
ghost use Rattle.chunk_merge.specs.Merged.{same_users};

use indexmap::IndexSet;
use seed_model::{Class, NoMemory, Users};
use std::alloc::Global;
use std::marker::Model;

/// Lists of users, numbered from 0 by first appearance.
#[derive(Drop)]
pub(crate) struct UserList {
    lists: IndexSet<Vec<u32>>,
}

impl Model for UserList {
    ghost use Rattle.std.specs.Prelude.{List, ℕ};
    ghost use Rattle.list_facts.specs.Listed.{lists_in};

    ghost Value = { List (List ℕ) };

    ghost view = { λ a. lists_in a.lists.keys };
}

impl UserList {
    /// No lists.
    pub(crate) fn new(alloc: Global) -> Self
        ensures { result ≡ [] }
    {
        UserList {
            lists: IndexSet::new(alloc),
        }
    }

    /// The number of a list.
    pub(crate) fn find(&self, users: &[u32]) -> Option<usize>
        ensures { IsNumberOf (same_users users.now) self.now result }
    {
        self.lists.get_index_of(users)
    }

    /// Puts a new list last.
    pub(crate) fn push(&mut self, users: &[u32]) -> Result<(), NoMemory>
        requires { list_any (same_users users.now) self.old ≡ false }
        ensures { OnOk result (self.new ≡ self.old ++ users.now ∷ []) }
    {
        let Ok(owned) = users.to_vec(*self.lists.allocator()) else {
            return Err(NoMemory);
        };
        let Ok(_) = self.lists.insert(owned) else {
            return Err(NoMemory);
        };
        Ok(())
    }

    /// The lists with these sizes, as classes.
    pub(crate) fn into_classes(self, alloc: Global, sizes: &[u64]) -> Result<Vec<Class>, NoMemory>
        requires { length sizes.now ≡ length self }
        ensures { IfOk result (λ classes. classes.items ≡ classes_in self sizes.now) }
    {
        let UserList { lists } = self;
        let mut classes = Vec::with_capacity(alloc, sizes.len())?;
        for list in lists {
            let size = sizes[classes.len()];
            classes.push(Class {
                size,
                users: Users::new(list),
            })?;
        }
        Ok(classes)
    }
}
