// The files that a volume holds, by name.
ghost use Rattle.std.specs.Prelude.{◌≡◌, ◌+◌, ◌<◌, ◌≤◌, List, ℕ, false, slice_get, Some, OnOk, OnErr, IsOk};
ghost use Rattle.std.specs.FinMap as fin_map;
ghost use Rattle.std.specs.String.{string_bytes};
ghost use Rattle.volume_index.specs.HoldingCalls.{IsFilePlace};
ghost use Rattle.volume_index.specs.ChunkTables.{IsRank};

use seed_model::NoMemory;
use std::alloc::Global;
use std::cmp::Ordering;
use std::marker::Model;

/// A file: its name, and the names of its chunks in order.
#[derive(Drop)]
pub(crate) struct FileEntry {
    pub name: String,
    pub chunks: Vec<[u8; 32]>,
}

/// Files in the order of their names.
#[derive(Drop)]
pub(crate) struct FileTable {
    files: Vec<FileEntry>,
}

impl Model for FileTable {
    ghost use Rattle.std.specs.Prelude.{◌≡◌, ◌-◌, true, map as each, length, vec_capacity};
    ghost use Rattle.std.specs.FinMap as fin_map;
    ghost use Rattle.site_forms.specs.Volumes.{bytes_cmp};
    ghost use Rattle.volume_index.specs.FileTables.{FileTableValue, files_code, file_pair};

    ghost Value = { FileTableValue };

    ghost coded = { files_code };

    ghost view = { λ t. record { files = fin_map.from_sorted (each file_pair t.files.items); room = vec_capacity t.files - length t.files.items } };

    ghost invariant = { λ t. fin_map.is_sorted bytes_cmp (each file_pair t.files.items) ≡ true };
}

impl FileTable {
    /// No files.
    pub(crate) fn new(alloc: Global) -> Self
        ensures { result.files ≡ fin_map.empty }
    {
        FileTable {
            files: Vec::new(alloc),
        }
    }

    /// How many files there are.
    pub(crate) fn len(&self) -> usize
        ensures { result ≡ fin_map.len self.now.files }
    {
        self.files.len()
    }

    /// The name of the file at a place.
    pub(crate) fn name_at(&self, place: usize) -> &str
        requires { place < fin_map.len self.now.files }
        ensures { slice_get (fin_map.keys self.now.files) place ≡ Some result.now }
    {
        self.files[place].name.as_str()
    }

    /// The chunks of the file at a place.
    pub(crate) fn chunks_at(&self, place: usize) -> &[[u8; 32]]
        requires { place < fin_map.len self.now.files }
        ensures { slice_get (fin_map.values self.now.files) place ≡ Some result.now }
    {
        self.files[place].chunks.as_slice()
    }

    /// The place of a name among the names in order, or that at which it belongs.
    fn rank(&self, name: &str) -> usize
        ensures { IsRank (fin_map.keys self.now.files) name.now result }
    {
        let mut low = 0;
        let mut high = self.len();
        'halves: while low < high {
            let middle = low + (high - low) / 2;
            match self.name_at(middle).as_bytes().cmp(name.as_bytes()) {
                Ordering::Less => low = middle + 1,
                Ordering::Equal => high = middle,
                Ordering::Greater => high = middle,
            }
        }
        low
    }

    /// The place of a file in the order of the names.
    pub(crate) fn find(&self, name: &str) -> Option<usize>
        ensures { IsFilePlace self.now.files name.now result }
    {
        let rank = self.rank(name);
        if self.len() <= rank {
            return None;
        }
        if self.name_at(rank) == name {
            return Some(rank);
        }
        None
    }

    /// Makes room for so many more files.
    pub(crate) fn reserve(&mut self, additional: usize) -> Result<(), NoMemory>
        ensures same { self.new.files ≡ self.old.files }
        ensures room { OnOk result (additional ≤ self.new.room) }
        ensures kept { self.old.room ≤ self.new.room }
        ensures succeeds { additional ≤ self.old.room → IsOk result }
    {
        self.files.reserve(additional)?;
        Ok(())
    }

    /// Adds a file that is lacking.
    pub(crate) fn put(&mut self, name: String, chunks: Vec<[u8; 32]>) -> Result<(), NoMemory>
        requires { fin_map.contains_key self.old.files (string_bytes name) ≡ false }
        ensures ok { OnOk result (self.new.files ≡ fin_map.insert self.old.files (string_bytes name) chunks.items) }
        ensures err { OnErr result (self.new.files ≡ self.old.files) }
        ensures room { self.old.room ≤ self.new.room + 1 }
        ensures kept { OnErr result (self.old.room ≤ self.new.room) }
        ensures succeeds { 1 ≤ self.old.room → IsOk result }
    {
        let rank = self.rank(name.as_str());
        self.files.insert(rank, FileEntry { name, chunks })?;
        Ok(())
    }

    /// Takes the file at a place out, and answers its chunks.
    pub(crate) fn remove(&mut self, place: usize) -> Vec<[u8; 32]>
        requires { place < fin_map.len self.old.files }
        ensures files { (name : List ℕ) → slice_get (fin_map.keys self.old.files) place ≡ Some name → self.new.files ≡ fin_map.remove self.old.files name }
        ensures list { slice_get (fin_map.values self.old.files) place ≡ Some result.items }
        ensures room { self.old.room ≤ self.new.room }
    {
        let FileEntry { name: _, chunks } = self.files.remove(place);
        chunks
    }
}
