// The files and chunks of a volume, and how often each chunk is used.
ghost use Rattle.std.specs.Prelude.{◌≡◌, ◌&&◌, ◌+◌, ◌<◌, ◌≤◌, List, ℕ, true, false, nat_le, length, not, slice_get, Some, OnOk, OnErr, IsOk};
ghost use Rattle.std.specs.FinMap as fin_map;
ghost use Rattle.std.specs.List.{list_all, filter};
ghost use Rattle.volume_index.specs.FirstLimits.{first_limit, first_broken};
ghost use Rattle.std.specs.Option.{option_map};
ghost use Rattle.std.specs.String.{string_bytes};
ghost use Rattle.file_names.specs.FileNames.{IsFileName};
ghost use Rattle.site_forms.specs.Volumes.{distinct_count, empty_volume, pair_count, used, with_chunk, with_file, without_file, without_chunk, may_add_file, may_drop_chunk};
ghost use Rattle.volume_index.specs.declared.index.Extent.{Extent};
ghost use Rattle.volume_index.specs.HoldingCalls.{IsFilePlace};
ghost use Rattle.volume_index.specs.Indexes.{IsSameIndex};
ghost use Rattle.volume_index.specs.HoldingValues.{KeepsShape, held_bytes, orphans};

use crate::chunk_table::{Change, ChunkTable};
use crate::file_table::FileTable;
use seed_model::NoMemory;
use seed_model::limits::{MOST_CHUNKS, MOST_FILES, MOST_PAIRS};
use std::alloc::Global;
use std::marker::Model;

/// The most chunks of a file.
pub const LONGEST_LIST: usize = 524_279;

/// Where the bytes of a chunk stand on a device.
#[derive(Clone, Copy)]
pub struct Extent {
    /// The place of the first one.
    pub at: u64,
    /// How many there are, from 1 to 1,048,576.
    pub len: u32,
}

/// A limit that the files of a volume keep.
#[derive(Clone, Copy, Debug, PartialEq, Eq)]
pub enum Limit {
    /// Of files.
    Files,
    /// Of chunks that files use.
    Chunks,
    /// Of pairs of a file and a chunk that it uses.
    Pairs,
}

/// Files and chunks by name, with the numbers that their limits speak of.
#[derive(Drop)]
pub struct Index {
    chunks: ChunkTable,
    files: FileTable,
    used: u32,
    pairs: u32,
    bytes: u64,
    first: usize,
}

impl Model for Index {
    ghost use Rattle.volume_index.specs.Indexes.{IndexValue, index_code};

    ghost Value = { IndexValue };

    ghost coded = { index_code };

    ghost use Rattle.volume_index.specs.IndexInside.{view_of, KeepsIndex};

    ghost view = { view_of };

    ghost invariant = { KeepsIndex };
}

impl Index {
    /// Nothing.
    pub fn new(alloc: Global) -> Self
        ensures shape { result.shape ≡ empty_volume }
        ensures places { result.places ≡ fin_map.empty }
        ensures ordered { result.is_ordered ≡ false }
    {
        Index {
            chunks: ChunkTable::new(alloc),
            files: FileTable::new(alloc),
            used: 0,
            pairs: 0,
            bytes: 0,
            first: 0,
        }
    }

    /// How many files there are.
    pub fn file_count(&self) -> u32
        ensures count { result ≡ fin_map.len self.now.shape.files }
        ensures keeps { KeepsShape self.now.shape }
    {
        self.files.len() as u32
    }

    /// The name of a file, by its place in the order of the names, counted from 0.
    pub fn file_name(&self, place: u32) -> &str
        requires { place < fin_map.len self.now.shape.files }
        ensures name { slice_get (fin_map.keys self.now.shape.files) place ≡ Some result.now }
        ensures lawful { IsFileName result.now }
    {
        self.files.name_at(place as usize)
    }

    /// The names of the chunks of a file, in order, by its place.
    pub fn file_chunks(&self, place: u32) -> &[[u8; 32]]
        requires { place < fin_map.len self.now.shape.files }
        ensures list { slice_get (fin_map.values self.now.shape.files) place ≡ Some result.now }
        ensures short { length result.now ≤ 524279 }
    {
        self.files.chunks_at(place as usize)
    }

    /// The place of a file; none exactly where it is lacking.
    pub fn find(&self, name: &str) -> Option<u32>
        ensures { IsFilePlace self.now.shape.files name.now result }
    {
        match self.files.find(name) {
            Some(place) => Some(place as u32),
            None => None,
        }
    }

    /// How many chunks there are, used or not.
    pub fn chunk_count(&self) -> u64
        ensures { result ≡ fin_map.len self.now.shape.chunks }
    {
        self.chunks.len() as u64
    }

    /// The name of a chunk, by its place in the order of the names, counted from 0.
    pub fn chunk_name(&self, place: u64) -> &[u8; 32]
        requires ordered { self.now.is_ordered ≡ true }
        requires there { place < fin_map.len self.now.shape.chunks }
        ensures { slice_get (fin_map.keys self.now.shape.chunks) place ≡ Some result.now }
    {
        self.chunks.name_at(place as usize)
    }

    /// Where the bytes of a chunk stand; none exactly where it is lacking.
    pub fn extent(&self, name: &[u8; 32]) -> Option<Extent>
        ensures at { option_map (λ (e : Extent). e.at) result ≡ fin_map.get self.now.places name.now }
        ensures len { option_map (λ (e : Extent). e.len) result ≡ fin_map.get self.now.shape.chunks name.now }
    {
        match self.chunks.get(name) {
            Some(chunk) => Some(Extent {
                at: chunk.place,
                len: chunk.len,
            }),
            None => None,
        }
    }

    /// Whether a file uses this chunk.
    pub fn is_used(&self, name: &[u8; 32]) -> bool
        ensures { result ≡ fin_map.contains_key (used self.now.shape.files) name.now }
    {
        match self.chunks.get(name) {
            Some(chunk) => 0 < chunk.users,
            None => false,
        }
    }

    /// How many chunks the files use.
    pub fn used_count(&self) -> u32
        ensures { result ≡ fin_map.len (used self.now.shape.files) }
    {
        self.used
    }

    /// How many pairs there are of a file and a chunk that it uses.
    pub fn pair_count(&self) -> u32
        ensures { result ≡ pair_count self.now.shape.files }
    {
        self.pairs
    }

    /// The bytes of all chunks.
    pub fn bytes(&self) -> u64
        ensures { result ≡ held_bytes self.now.shape }
    {
        self.bytes
    }

    /// Makes room for so many more chunks and files.
    pub fn reserve(&mut self, chunks: usize, files: usize) -> Result<(), NoMemory>
        ensures same { IsSameIndex self.old self.new }
        ensures chunks { OnOk result (chunks ≤ self.new.chunk_room) }
        ensures files { OnOk result (files ≤ self.new.file_room) }
        ensures succeeds { chunks ≤ self.old.chunk_room → files ≤ self.old.file_room → IsOk result }
    {
        self.chunks.reserve(chunks)?;
        self.files.reserve(files)
    }

    /// Puts the chunks in order.
    pub fn sort(&mut self) -> Result<(), NoMemory>
        ensures shape { self.new.shape ≡ self.old.shape }
        ensures places { self.new.places ≡ self.old.places }
        ensures ordered { OnOk result (self.new.is_ordered ≡ true) }
    {
        self.first = 0;
        self.chunks.sort()
    }

    /// Adds a chunk that is lacking, with the place of its bytes.
    pub fn add_chunk(&mut self, name: &[u8; 32], place: u64, len: u32) -> Result<(), NoMemory>
        requires lacking { fin_map.contains_key self.old.shape.chunks name.now ≡ false }
        requires some { 1 ≤ len }
        requires most { len ≤ 1048576 }
        ensures shape { OnOk result (self.new.shape ≡ with_chunk self.old.shape name.now len) }
        ensures places { OnOk result (self.new.places ≡ fin_map.insert self.old.places name.now place) }
        ensures ordered { self.new.is_ordered ≡ self.old.is_ordered }
        ensures room { self.old.chunk_room ≤ self.new.chunk_room + 1 }
        ensures file_room { self.new.file_room ≡ self.old.file_room }
        ensures err { OnErr result (IsSameIndex self.old self.new) }
        ensures succeeds { 1 ≤ self.old.chunk_room → IsOk result }
    {
        let first = self.chunks.first_with(name, self.first);
        self.chunks.put(name, place, len)?;
        self.first = first;
        self.bytes += u64::from(len);
        Ok(())
    }

    /// Whether a file may be added: its name is lacking, its chunks are held and not too many, and the files with it keep
    /// the limits of a recipe.
    pub fn may_add_file(&mut self, name: &str, chunks: &[[u8; 32]]) -> bool
        requires { IsFileName name.now }
        ensures same { self.new ≡ self.old }
        ensures is { result ≡ may_add_file (λ n. n) 0 self.old.shape name.now chunks.now }
    {
        if self.files.find(name).is_some() {
            return false;
        }
        if LONGEST_LIST < chunks.len() {
            return false;
        }
        if !self.chunks.holds_all(chunks) {
            return false;
        }
        let counts = self.chunks.change_users(chunks, 0, Change::Keep);
        let files = self.files.len() + 1;
        fits(
            files,
            self.used + counts.matching,
            self.pairs + counts.distinct,
        )
    }

    /// The limit of a recipe that a file more would break first; none exactly where it keeps them all. Of its list these
    /// chunks are held, and so many others are lacking.
    pub fn first_limit(&mut self, held: &[[u8; 32]], lacking: u32) -> Option<Limit>
        requires held { list_all (fin_map.contains_key self.old.shape.chunks) held.now ≡ true }
        requires short { length held.now ≤ 524279 }
        requires few { lacking ≤ 524279 }
        ensures same { self.new ≡ self.old }
        ensures first { (list : List (List ℕ)) → filter (fin_map.contains_key self.old.shape.chunks) list ≡ held.now → distinct_count (filter (λ n. not (fin_map.contains_key self.old.shape.chunks n)) list) ≡ lacking
            → result ≡ first_limit self.old.shape list }
    {
        let counts = self.chunks.change_users(held, 0, Change::Keep);
        let files = self.files.len() + 1;
        let used = self.used + counts.matching + lacking;
        let pairs = self.pairs + counts.distinct + lacking;
        first_broken(files, used, pairs)
    }

    /// Adds a file that may be added.
    pub fn add_file(&mut self, name: String, chunks: Vec<[u8; 32]>) -> Result<(), NoMemory>
        requires { may_add_file (λ n. n) 0 self.old.shape (string_bytes name) chunks.items ≡ true }
        ensures shape { OnOk result (self.new.shape ≡ with_file self.old.shape (string_bytes name) chunks.items) }
        ensures places { self.new.places ≡ self.old.places }
        ensures ordered { self.new.is_ordered ≡ self.old.is_ordered }
        ensures room { self.old.file_room ≤ self.new.file_room + 1 }
        ensures chunk_room { self.new.chunk_room ≡ self.old.chunk_room }
        ensures err { OnErr result (IsSameIndex self.old self.new) }
        ensures succeeds { 1 ≤ self.old.file_room → IsOk result }
    {
        self.files.reserve(1)?;
        let counts = self.chunks.change_users(chunks.as_slice(), 0, Change::Join);
        self.used += counts.matching;
        self.pairs += counts.distinct;
        self.files.put(name, chunks).unwrap();
        Ok(())
    }

    /// Takes the file at a place out.
    pub fn drop_file(&mut self, place: u32)
        requires { place < fin_map.len self.old.shape.files }
        ensures shape { (name : List ℕ) → slice_get (fin_map.keys self.old.shape.files) place ≡ Some name → self.new.shape ≡ without_file self.old.shape name }
        ensures places { self.new.places ≡ self.old.places }
        ensures ordered { self.new.is_ordered ≡ self.old.is_ordered }
        ensures chunk_room { self.new.chunk_room ≡ self.old.chunk_room }
        ensures file_room { self.old.file_room ≤ self.new.file_room }
    {
        let chunks = self.files.remove(place as usize);
        let list = chunks.as_slice();
        let counts = self.chunks.change_users(list, 1, Change::Leave);
        self.used -= counts.matching;
        self.pairs -= counts.distinct;
        self.first = self.chunks.first_without(list, self.first);
    }

    /// How many chunks no file would use without the file at a place.
    pub fn freed_by(&mut self, place: u32) -> u64
        requires { place < fin_map.len self.old.shape.files }
        ensures same { self.new ≡ self.old }
        ensures count { (name : List ℕ) → slice_get (fin_map.keys self.old.shape.files) place ≡ Some name → result ≡ length (orphans (without_file self.old.shape name)) }
    {
        let list = self.files.chunks_at(place as usize);
        let counts = self.chunks.change_users(list, 1, Change::Keep);
        let unused = self.chunks.len() as u64 - u64::from(self.used);
        unused + u64::from(counts.matching)
    }

    /// Whether a chunk may be dropped: it is held, and no file uses it.
    pub fn may_drop_chunk(&self, name: &[u8; 32]) -> bool
        ensures { result ≡ may_drop_chunk self.now.shape name.now }
    {
        match self.chunks.get(name) {
            Some(chunk) => chunk.users == 0,
            None => false,
        }
    }

    /// Takes a chunk out that may be dropped.
    pub fn drop_chunk(&mut self, name: &[u8; 32])
        requires { may_drop_chunk self.old.shape name.now ≡ true }
        ensures shape { self.new.shape ≡ without_chunk self.old.shape name.now }
        ensures places { self.new.places ≡ fin_map.remove self.old.places name.now }
        ensures ordered { self.new.is_ordered ≡ self.old.is_ordered }
        ensures chunk_room { self.old.chunk_room ≤ self.new.chunk_room }
        ensures file_room { self.new.file_room ≡ self.old.file_room }
    {
        let chunk = self.chunks.get(name).unwrap();
        self.first = self.chunks.next_unused(self.first);
        self.bytes -= u64::from(chunk.len);
        self.chunks.remove(name);
    }

    /// The least name of a chunk that no file uses.
    pub fn first_orphan(&self) -> Option<[u8; 32]>
        requires { self.now.is_ordered ≡ true }
        ensures { result ≡ slice_get (orphans self.now.shape) 0 }
    {
        let place = self.chunks.first_unused(self.first);
        if place < self.chunks.len() {
            return Some(*self.chunks.name_at(place));
        }
        None
    }
}

// Whether so many files, chunks that they use and pairs keep the limits of a recipe.
fn fits(files: usize, used: u32, pairs: u32) -> bool
    ensures { result ≡ (nat_le files MOST_FILES && (nat_le used MOST_CHUNKS && nat_le pairs MOST_PAIRS)) }
{
    files <= MOST_FILES as usize && used <= MOST_CHUNKS && pairs <= MOST_PAIRS
}

// The first limit that so many files, chunks that they use and pairs break.
fn first_broken(files: usize, used: u32, pairs: u32) -> Option<Limit>
    ensures { result ≡ first_broken files used pairs }
{
    if files > MOST_FILES as usize {
        return Some(Limit::Files);
    }
    if MOST_CHUNKS < used {
        return Some(Limit::Chunks);
    }
    if MOST_PAIRS < pairs {
        return Some(Limit::Pairs);
    }
    None
}
