// What a volume holds.
ghost use Rattle.std.specs.Prelude.{◌≡◌, ◌+◌, ◌<◌, ◌≤◌, List, ℕ, true, false, length, not, slice_get, Some, IfOk, OnOk, OnErr, IsOk};
ghost use Rattle.std.specs.FinMap as fin_map;
ghost use Rattle.std.specs.List.{list_all, filter};
ghost use Rattle.volume_index.specs.FirstLimits.{first_limit};
ghost use Rattle.std.specs.Option.{option_map};
ghost use Rattle.std.specs.String.{string_bytes};
ghost use Rattle.file_names.specs.FileNames.{IsFileName};
ghost use Rattle.site_forms.specs.Volumes.{distinct_count, pair_count, used, with_chunk, with_file, without_file, without_chunk, may_add_file, may_drop_chunk};
ghost use Rattle.volume_index.specs.declared.index.Extent.{Extent};
ghost use Rattle.volume_index.specs.Indexes.{IsSameHolding};
ghost use Rattle.volume_index.specs.HoldingCalls.{IsFilePlace};
ghost use Rattle.volume_index.specs.HoldingValues.{KeepsShape, held_bytes, orphans};

use crate::index::{Extent, Index, Limit};
use seed_model::NoMemory;
use std::marker::Model;

/// The files and the chunks of a volume, each in the order of their names. Of a chunk its name and its length are told.
#[derive(Drop)]
pub struct Holding {
    index: Index,
}

impl Model for Holding {
    ghost use Rattle.std.specs.Prelude.{◌≡◌, true};
    ghost use Rattle.volume_index.specs.HoldingValues.{HoldingValue, holding_code};
    ghost use Rattle.volume_index.specs.Indexes.{held_in};

    ghost Value = { HoldingValue };

    ghost coded = { holding_code };

    ghost view = { λ h. held_in h.index };

    ghost invariant = { λ h. h.index.is_ordered ≡ true };
}

impl Holding {
    /// How many files there are.
    pub fn file_count(&self) -> u32
        ensures count { result ≡ fin_map.len self.now.shape.files }
        ensures keeps { KeepsShape self.now.shape }
    {
        self.index.file_count()
    }

    /// The name of a file, by its place in the order of the names, counted from 0.
    pub fn file_name(&self, place: u32) -> &str
        requires { place < fin_map.len self.now.shape.files }
        ensures name { slice_get (fin_map.keys self.now.shape.files) place ≡ Some result.now }
        ensures lawful { IsFileName result.now }
    {
        self.index.file_name(place)
    }

    /// The names of the chunks of a file, in order, by its place.
    pub fn file_chunks(&self, place: u32) -> &[[u8; 32]]
        requires { place < fin_map.len self.now.shape.files }
        ensures list { slice_get (fin_map.values self.now.shape.files) place ≡ Some result.now }
        ensures short { length result.now ≤ 524279 }
    {
        self.index.file_chunks(place)
    }

    /// The place of a file; none exactly where the volume lacks it.
    pub fn find(&self, name: &str) -> Option<u32>
        ensures { IsFilePlace self.now.shape.files name.now result }
    {
        self.index.find(name)
    }

    /// How many chunks there are, used or not.
    pub fn chunk_count(&self) -> u64
        ensures { result ≡ fin_map.len self.now.shape.chunks }
    {
        self.index.chunk_count()
    }

    /// The name of a chunk, by its place in the order of the names, counted from 0.
    pub fn chunk_name(&self, place: u64) -> &[u8; 32]
        requires { place < fin_map.len self.now.shape.chunks }
        ensures { slice_get (fin_map.keys self.now.shape.chunks) place ≡ Some result.now }
    {
        self.index.chunk_name(place)
    }

    /// The length of a chunk in bytes; none exactly where the volume lacks it.
    pub fn chunk_len(&self, name: &[u8; 32]) -> Option<u32>
        ensures { result ≡ fin_map.get self.now.shape.chunks name.now }
    {
        let extent = self.index.extent(name)?;
        Some(extent.len)
    }

    /// Whether a file uses this chunk.
    pub fn is_used(&self, name: &[u8; 32]) -> bool
        ensures { result ≡ fin_map.contains_key (used self.now.shape.files) name.now }
    {
        self.index.is_used(name)
    }

    /// What an index says, once its chunks are in order.
    pub fn of(index: Index) -> Result<Self, NoMemory>
        ensures shape { IfOk result (λ h. h.shape ≡ index.shape) }
        ensures places { IfOk result (λ h. h.places ≡ index.places) }
    {
        let mut index = index;
        index.sort()?;
        Ok(Holding { index })
    }

    /// Where the bytes of a chunk stand; none exactly where the volume lacks it.
    pub fn extent(&self, name: &[u8; 32]) -> Option<Extent>
        ensures at { option_map (λ (e : Extent). e.at) result ≡ fin_map.get self.now.places name.now }
        ensures len { option_map (λ (e : Extent). e.len) result ≡ fin_map.get self.now.shape.chunks name.now }
    {
        self.index.extent(name)
    }

    /// How many chunks the files use.
    pub fn used_count(&self) -> u32
        ensures { result ≡ fin_map.len (used self.now.shape.files) }
    {
        self.index.used_count()
    }

    /// How many pairs there are of a file and a chunk that it uses.
    pub fn pair_count(&self) -> u32
        ensures { result ≡ pair_count self.now.shape.files }
    {
        self.index.pair_count()
    }

    /// The bytes of all chunks.
    pub fn bytes(&self) -> u64
        ensures { result ≡ held_bytes self.now.shape }
    {
        self.index.bytes()
    }

    /// The least name of a chunk that no file uses; none exactly where every chunk is used.
    pub fn first_orphan(&self) -> Option<[u8; 32]>
        ensures { result ≡ slice_get (orphans self.now.shape) 0 }
    {
        self.index.first_orphan()
    }

    /// Makes room for so many more chunks and files.
    pub fn reserve(&mut self, chunks: usize, files: usize) -> Result<(), NoMemory>
        ensures same { IsSameHolding self.old self.new }
        ensures chunks { OnOk result (chunks ≤ self.new.chunk_room) }
        ensures files { OnOk result (files ≤ self.new.file_room) }
        ensures succeeds { chunks ≤ self.old.chunk_room → files ≤ self.old.file_room → IsOk result }
    {
        self.index.reserve(chunks, files)
    }

    /// Adds a chunk that is lacking, with the place of its bytes.
    pub fn add_chunk(&mut self, name: &[u8; 32], place: u64, len: u32) -> Result<(), NoMemory>
        requires lacking { fin_map.contains_key self.old.shape.chunks name.now ≡ false }
        requires some { 1 ≤ len }
        requires most { len ≤ 1048576 }
        ensures shape { OnOk result (self.new.shape ≡ with_chunk self.old.shape name.now len) }
        ensures places { OnOk result (self.new.places ≡ fin_map.insert self.old.places name.now place) }
        ensures room { self.old.chunk_room ≤ self.new.chunk_room + 1 }
        ensures file_room { self.new.file_room ≡ self.old.file_room }
        ensures err { OnErr result (IsSameHolding self.old self.new) }
        ensures succeeds { 1 ≤ self.old.chunk_room → IsOk result }
    {
        self.index.add_chunk(name, place, len)
    }

    /// The limit of a recipe that a file more would break first; none exactly where it keeps them all. Of its list these
    /// chunks are held, and so many others are lacking.
    pub fn first_limit(&mut self, held: &[[u8; 32]], lacking: u32) -> Option<Limit>
        requires held { list_all (fin_map.contains_key self.old.shape.chunks) held.now ≡ true }
        requires short { length held.now ≤ 524279 }
        requires few { lacking ≤ 524279 }
        ensures same { self.new ≡ self.old }
        ensures first { (list : List (List ℕ)) → filter (fin_map.contains_key self.old.shape.chunks) list ≡ held.now → distinct_count (filter (λ n. not (fin_map.contains_key self.old.shape.chunks n)) list) ≡ lacking
            → result ≡ first_limit self.old.shape list }
    {
        self.index.first_limit(held, lacking)
    }

    /// Adds a file that may be added.
    pub fn add_file(&mut self, name: String, chunks: Vec<[u8; 32]>) -> Result<(), NoMemory>
        requires { may_add_file (λ n. n) 0 self.old.shape (string_bytes name) chunks.items ≡ true }
        ensures shape { OnOk result (self.new.shape ≡ with_file self.old.shape (string_bytes name) chunks.items) }
        ensures places { self.new.places ≡ self.old.places }
        ensures room { self.old.file_room ≤ self.new.file_room + 1 }
        ensures chunk_room { self.new.chunk_room ≡ self.old.chunk_room }
        ensures err { OnErr result (IsSameHolding self.old self.new) }
        ensures succeeds { 1 ≤ self.old.file_room → IsOk result }
    {
        self.index.add_file(name, chunks)
    }

    /// How many chunks no file would use without the file at a place.
    pub fn freed_by(&mut self, place: u32) -> u64
        requires { place < fin_map.len self.old.shape.files }
        ensures same { self.new ≡ self.old }
        ensures count { (name : List ℕ) → slice_get (fin_map.keys self.old.shape.files) place ≡ Some name → result ≡ length (orphans (without_file self.old.shape name)) }
    {
        self.index.freed_by(place)
    }

    /// Takes the file at a place out.
    pub fn drop_file(&mut self, place: u32)
        requires { place < fin_map.len self.old.shape.files }
        ensures shape { (name : List ℕ) → slice_get (fin_map.keys self.old.shape.files) place ≡ Some name → self.new.shape ≡ without_file self.old.shape name }
        ensures places { self.new.places ≡ self.old.places }
        ensures chunk_room { self.new.chunk_room ≡ self.old.chunk_room }
        ensures file_room { self.old.file_room ≤ self.new.file_room }
    {
        self.index.drop_file(place);
    }

    /// Takes a chunk out that may be dropped.
    pub fn drop_chunk(&mut self, name: &[u8; 32])
        requires { may_drop_chunk self.old.shape name.now ≡ true }
        ensures shape { self.new.shape ≡ without_chunk self.old.shape name.now }
        ensures places { self.new.places ≡ fin_map.remove self.old.places name.now }
        ensures chunk_room { self.old.chunk_room ≤ self.new.chunk_room }
        ensures file_room { self.new.file_room ≡ self.old.file_room }
    {
        self.index.drop_chunk(name);
    }
}
