// Tables of classes: chunks of one set of users, taken together.
ghost use Rattle.std.specs.Prelude.{◌≡◌, ◌<◌, ◌≤◌, ◌&&◌, All, length, not};
ghost use Rattle.std.specs.Bool.{beq};
ghost use Rattle.std.specs.List.{list_all, list_any};
ghost use Rattle.std.specs.List.Sorted.{IsStrictlyIncreasing};
ghost use Rattle.seed_model.specs.Files.{holds};
ghost use Rattle.seed_model.specs.Keys.{class_at};
ghost use Rattle.seed_model.specs.Sums.{total_of};
ghost use Rattle.seed_model.specs.Tables.{IsTable};

use crate::limits::MOST_BYTES;
use crate::plan_set::PlanSet;
use std::marker::Model;

/// The files that use a chunk, by number.
#[derive(Drop)]
pub struct Users {
    list: Vec<u32>,
}

impl Model for Users {
    ghost use Rattle.std.specs.Prelude.{List, ℕ};

    ghost Value = { List ℕ };

    ghost view = { λ u. u.list.items };
}

impl Users {
    /// Users from their numbers.
    pub fn new(list: Vec<u32>) -> Self
        ensures { result ≡ list.items }
    {
        Users { list }
    }

    /// The numbers of the files, in order.
    pub fn list(&self) -> &[u32]
        ensures { result.now ≡ self.now }
    {
        &self.list
    }

    /// Whether each user is in the set.
    pub fn all_in(&self, set: &PlanSet) -> bool
        requires { All (λ file. file < length set.now) self.now }
        ensures { result ≡ list_all (holds set.now) self.now }
    {
        self.list.iter().all(|file| set.contains(*file))
    }

    /// Whether some user is in the set.
    pub fn any_in(&self, set: &PlanSet) -> bool
        requires { All (λ file. file < length set.now) self.now }
        ensures { result ≡ list_any (holds set.now) self.now }
    {
        self.list.iter().any(|file| set.contains(*file))
    }

    /// Whether some user is in the set and some user is not, told in one pass.
    pub fn split_by(&self, set: &PlanSet) -> bool
        requires { All (λ file. file < length set.now) self.now }
        ensures { result ≡ (list_any (holds set.now) self.now && not (list_all (holds set.now) self.now)) }
    {
        if self.list.is_empty() {
            return false;
        }
        self.differs_from(set, set.contains(self.list[0]))
    }

    /// Whether some user is in the set where the others are not, or not where they are.
    fn differs_from(&self, set: &PlanSet, inside: bool) -> bool
        requires { All (λ file. file < length set.now) self.now }
        ensures { result ≡ list_any (λ file. not (beq (holds set.now file) inside)) self.now }
    {
        self.list.iter().any(|file| set.contains(*file) != inside)
    }
}

/// All chunks with one set of users: the sum of their sizes in bytes, and the users.
#[derive(Drop)]
pub struct Class {
    pub size: u64,
    pub users: Users,
}

/// A number of files, and the classes of the chunks that they use.
#[derive(Drop)]
pub struct Table {
    files: u32,
    classes: Vec<Class>,
}

impl Model for Table {
    ghost use Rattle.seed_model.specs.Tables.{TableValue, table_code};
    ghost use Rattle.seed_model.specs.TableInside.{view_of, KeepsTable};

    ghost Value = { TableValue };

    ghost coded = { table_code };

    ghost view = { view_of };

    ghost invariant = { KeepsTable };
}

impl Table {
    /// A table of `files` files and these classes, numbered from 0 in their order. The table keeps to the limits of
    /// `crate::limits`; each class has users, in rising order and below `files`.
    pub fn new(files: u32, classes: Vec<Class>) -> Self
        requires { IsTable (record { files = files; classes = classes.items }) }
        ensures { result ≡ record { files = files; classes = classes.items } }
    {
        Table { files, classes }
    }

    /// The number of files.
    pub fn files(&self) -> u32
        ensures files { result ≡ self.now.files }
        ensures table { IsTable self.now }
    {
        self.files
    }

    /// The number of classes.
    pub fn classes(&self) -> u32
        ensures { result ≡ length self.now.classes }
    {
        self.classes.len() as u32
    }

    /// The bytes of all chunks together.
    pub fn total(&self) -> u64
        ensures { result ≡ total_of self.now }
    {
        let mut total = 0;
        for class in &self.classes {
            total += class.size;
        }
        total
    }

    /// The bytes of the chunks of a class.
    pub fn size(&self, class: u32) -> u64
        requires { class < length self.now.classes }
        ensures size { result ≡ (class_at self.now.classes class).size }
        ensures within { result ≤ MOST_BYTES }
    {
        let class = &self.classes[class as usize];
        class.size
    }

    /// The users of a class, by file number in rising order.
    pub fn users(&self, class: u32) -> &[u32]
        requires { class < length self.now.classes }
        ensures users { result.now ≡ (class_at self.now.classes class).users }
        ensures some { 0 < length result.now }
        ensures rising { IsStrictlyIncreasing result.now }
        ensures below { All (λ file. file < self.now.files) result.now }
    {
        let class = &self.classes[class as usize];
        class.users.list()
    }

    /// The classes, in order, and with them that the table keeps to the limits.
    pub fn class_list(&self) -> &[Class]
        ensures items { result.now ≡ self.now.classes }
        ensures table { IsTable self.now }
    {
        &self.classes
    }
}
