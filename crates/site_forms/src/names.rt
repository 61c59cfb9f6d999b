// Lists of names of files.
ghost use Rattle.std.specs.Prelude.{◌≡◌, ◌<◌, ◌++◌, [], ◌∷◌, length, slice_get, Some, IfOk, OnOk, OnErr};
ghost use Rattle.file_names.specs.FileNames.{IsFileName};
ghost use Rattle.site_forms.specs.Names.{IsNames, is_distinct};

use seed_model::NoMemory;
use seed_model::limits::MOST_FILES;
use std::alloc::Global;
use std::collections::BTreeSet;
use std::marker::Model;

/// Lawful names of files, in order, at most 16,383 of them.
#[derive(Drop)]
pub struct Names {
    alloc: Global,
    list: Vec<String>,
}

impl Model for Names {
    ghost use Rattle.std.specs.Prelude.{List, ℕ, map, string_bytes};
    ghost use Rattle.site_forms.specs.Names.{IsNames};

    ghost Value = { List (List ℕ) };

    ghost view = { λ n. map string_bytes n.list.items };

    ghost invariant = { λ n. IsNames (map string_bytes n.list.items) };
}

impl Names {
    /// No names.
    pub fn new(alloc: Global) -> Self
        ensures { result ≡ [] }
    {
        Names {
            alloc,
            list: Vec::new(alloc),
        }
    }

    /// Adds a name at the end.
    pub fn add(&mut self, name: &str) -> Result<(), NoMemory>
        requires lawful { IsFileName name.now }
        requires room { length self.old < MOST_FILES }
        ensures added { OnOk result (self.new ≡ self.old ++ name.now ∷ []) }
        ensures kept { OnErr result (self.new ≡ self.old) }
    {
        let copy = String::from_str(self.alloc, name)?;
        self.list.push(copy)?;
        Ok(())
    }

    /// How many names there are.
    pub fn len(&self) -> u32
        ensures count { result ≡ length self.now }
        ensures names { IsNames self.now }
    {
        self.list.len() as u32
    }

    /// The name at a place, counted from 0.
    pub fn get(&self, place: u32) -> &str
        requires { place < length self.now }
        ensures name { slice_get self.now place ≡ Some result.now }
        ensures lawful { IsFileName result.now }
    {
        self.list[place as usize].as_str()
    }
    /// Whether no name stands twice. Takes memory for a reference to each name.
    pub fn are_distinct(&self) -> Result<bool, NoMemory>
        ensures { IfOk result (λ is. is ≡ is_distinct self.now) }
    {
        let mut seen = BTreeSet::new(self.alloc);
        for place in 0..self.len() {
            let name = self.get(place);
            if !seen.insert(name)? {
                return Ok(false);
            }
        }
        Ok(true)
    }
}
