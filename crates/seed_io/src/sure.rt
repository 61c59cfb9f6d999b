// A shelf and a sink in memory that never fail.
ghost use Rattle.std.specs.Prelude.{◌≡◌, ◌-◌, [], IsTrue, true, false, min, length, take, drop, Some, None, OnOk, OnErr, List, ℕ, option_map};
ghost use Rattle.seed_io.specs.Memory.{files_told};
ghost use Rattle.seed_io.specs.Shelf.{OthersStay};

use crate::{Shelf, ShelfError, Sink, SinkError};
use seed_model::NoMemory;
use std::alloc::Global;
use std::collections::BTreeMap;

/// Byte strings by name, without faults.
#[derive(Drop)]
pub struct SureShelf {
    alloc: Global,
    files: BTreeMap<String, Vec<u8>>,
}

impl SureShelf {
    ghost use Rattle.seed_io.specs.Sure.{sure_map};

    /// No names yet.
    pub fn new(alloc: Global) -> Self
        ensures { (name : List ℕ) → sure_map result name ≡ None }
    {
        SureShelf {
            alloc,
            files: BTreeMap::new(alloc),
        }
    }

    /// Gives a name these bytes. It is no call of the shelf.
    pub fn set(&mut self, name: &str, bytes: &[u8]) -> Result<(), NoMemory>
        ensures set { OnOk result (sure_map self.new name.now ≡ Some bytes.now) }
        ensures others { OnOk result (OthersStay (sure_map self.old) (sure_map self.new) name.now) }
        ensures err { OnErr result (sure_map self.new ≡ sure_map self.old) }
    {
        let bytes = bytes.to_vec(self.alloc)?;
        if put(self.alloc, &mut self.files, name, bytes) {
            Ok(())
        } else {
            Err(NoMemory)
        }
    }

    /// The bytes of a name.
    pub fn bytes(&self, name: &str) -> Option<&[u8]>
        ensures { option_map (λ bytes. bytes.now) result ≡ sure_map self.now name.now }
    {
        match self.files.get(name) {
            None => None,
            Some(file) => Some(file.as_slice()),
        }
    }
}

/// Gives a name these bytes, or leaves all as it was.
fn put(alloc: Global, files: &mut BTreeMap<String, Vec<u8>>, name: &str, bytes: Vec<u8>) -> bool
    ensures put { IsTrue result → files_told files.new name.now ≡ Some bytes.items }
    ensures others { IsTrue result → OthersStay (files_told files.old) (files_told files.new) name.now }
    ensures same { result ≡ false → files_told files.new ≡ files_told files.old }
{
    let Ok(key) = String::from_str(alloc, name) else {
        return false;
    };
    files.insert(key, bytes).is_ok()
}

/// Copies the bytes from a place on, as many as there is room for.
fn copy_from(file: &[u8], at: u64, into: &mut [u8]) -> usize
    ensures count { result ≡ min (length into.old) (length (drop at file.now)) }
    ensures bytes { take result into.new ≡ take result (drop at file.now) }
{
    let Ok(at) = usize::try_from(at) else {
        return 0;
    };
    if at >= file.len() {
        return 0;
    }
    let count = into.len().min(file.len() - at);
    into[..count].copy_from_slice(&file[at..at + count]);
    count
}

impl Shelf for SureShelf {
    ghost use Rattle.std.specs.Prelude.{true};
    ghost use Rattle.seed_io.specs.Sure.{sure_map};

    ghost tells = { λ s. true };

    ghost map = { sure_map };

    ghost faults = { λ s. 0 };

    fn read_at(&mut self, name: &str, at: u64, into: &mut [u8]) -> Result<usize, ShelfError> {
        match self.files.get(name) {
            None => Err(ShelfError::NotThere),
            Some(file) => Ok(copy_from(file, at, into)),
        }
    }

    fn create(&mut self, name: &str) -> Result<(), ShelfError> {
        if put(self.alloc, &mut self.files, name, Vec::new(self.alloc)) {
            Ok(())
        } else {
            Err(ShelfError::Memory)
        }
    }

    fn append(&mut self, name: &str, bytes: &[u8]) -> Result<(), ShelfError> {
        if let Some(file) = self.files.get_mut(name) {
            return match file.extend_from_slice(bytes) {
                Ok(()) => Ok(()),
                Err(_) => Err(ShelfError::Memory),
            };
        }
        let Ok(file) = bytes.to_vec(self.alloc) else {
            return Err(ShelfError::Memory);
        };
        if put(self.alloc, &mut self.files, name, file) {
            Ok(())
        } else {
            Err(ShelfError::Memory)
        }
    }
}

/// The bytes taken, without faults.
#[derive(Drop)]
pub struct SureSink {
    bytes: Vec<u8>,
}

impl SureSink {
    ghost use Rattle.seed_io.specs.Sure.{sure_taken};

    /// No bytes yet.
    pub fn new(alloc: Global) -> Self
        ensures { sure_taken result ≡ [] }
    {
        SureSink {
            bytes: Vec::new(alloc),
        }
    }

    /// The bytes taken so far.
    pub fn taken(&self) -> &[u8]
        ensures { result.now ≡ sure_taken self.now }
    {
        &self.bytes
    }
}

impl Sink for SureSink {
    ghost use Rattle.std.specs.Prelude.{true};
    ghost use Rattle.seed_io.specs.Sure.{sure_taken};

    ghost tells = { λ s. true };

    ghost taken = { sure_taken };

    ghost faults = { λ s. 0 };

    fn push(&mut self, bytes: &[u8]) -> Result<(), SinkError> {
        match self.bytes.extend_from_slice(bytes) {
            Ok(()) => Ok(()),
            Err(_) => Err(SinkError::Memory),
        }
    }
}
