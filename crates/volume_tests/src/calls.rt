// Calls of a volume, each behind the test of what it requires.
ghost use Rattle.std.specs.Prelude.{◌≡◌, ◌≤◌, ◌^◌, IsSomeAnd};
ghost use Rattle.file_names.specs.FileNames.{IsFileName};
ghost use Rattle.std.specs.FinMap as fin_map;
ghost use Rattle.std.specs.String.{string_bytes};

use chunk_volume::{VolError, Volume};
use file_names::is_file_name;
use sha2::{Digest, Sha256};
use std::alloc::Global;
use volume_disk::MemRack;

/// Opens the volume of A, whose devices may grow to 100 bytes.
pub(crate) fn open(alloc: Global, rack: &mut MemRack) -> Result<Volume, VolError> {
    Volume::open(alloc, rack, 0, 100)
}

/// The bytes of a chunk, where the volume holds it.
pub(crate) fn read_chunk(
    volume: &Volume,
    rack: &mut MemRack,
    name: &[u8; 32],
) -> Result<Vec<u8>, VolError> {
    if volume.holding().chunk_len(name).is_none() {
        return Err(VolError::NoSuchFile);
    }
    volume.read_chunk(rack, name)
}

/// The bytes of a file.
pub(crate) fn read_file(
    volume: &Volume,
    rack: &mut MemRack,
    name: &str,
) -> Result<Vec<u8>, VolError> {
    volume.read_file(rack, name)
}

/// Puts a chunk under its digest, where it has from 1 to 100 bytes.
pub(crate) fn put_chunk(
    volume: &mut Volume,
    rack: &mut MemRack,
    bytes: &[u8],
) -> Result<bool, VolError> {
    if bytes.is_empty() || 100 < bytes.len() {
        return Err(VolError::Memory);
    }
    let name = Sha256::digest(bytes);
    volume.put_chunk(rack, &name, bytes)
}

/// Compares bytes with those that are held under their digest, where the volume holds it.
pub(crate) fn compare_chunk(
    volume: &mut Volume,
    rack: &mut MemRack,
    bytes: &[u8],
) -> Result<(), VolError> {
    let name = Sha256::digest(bytes);
    if volume.holding().chunk_len(&name).is_none() {
        return Err(VolError::NoSuchFile);
    }
    volume.compare_chunk(rack, &name, bytes)
}

/// Puts a file of one chunk, where its name is lawful, the chunk is held, and there is no file yet.
pub(crate) fn put_file(
    alloc: Global,
    volume: &mut Volume,
    rack: &mut MemRack,
    name: String,
    chunk: &[u8; 32],
) -> Result<(), VolError> {
    if !is_file_name(name.as_str()) || volume.holding().file_count() != 0 {
        return Err(VolError::Exists);
    }
    let Some(len) = volume.holding().chunk_len(chunk) else {
        return Err(VolError::NoSuchFile);
    };
    if 1_048_576 < len {
        return Err(VolError::NoSuchFile);
    }
    put_only_file(alloc, volume, rack, name, chunk)
}

// Puts a file of one chunk that is held.
fn put_only_file(
    alloc: Global,
    volume: &mut Volume,
    rack: &mut MemRack,
    name: String,
    chunk: &[u8; 32],
) -> Result<(), VolError>
    requires lawful { IsFileName (string_bytes name) }
    requires none { fin_map.len volume.old.shape.files ≡ 0 }
    requires held { IsSomeAnd (fin_map.get volume.old.shape.chunks chunk.now) (λ len. len ≤ 2 ^ 20) }
{
    let mut chunks = Vec::new(alloc);
    if chunks.push(*chunk).is_err() {
        return Err(VolError::Memory);
    }
    volume.put_file(rack, name, chunks)
}

/// Drops a chunk, where the volume holds it and no file uses it.
pub(crate) fn drop_chunk(
    volume: &mut Volume,
    rack: &mut MemRack,
    name: &[u8; 32],
) -> Result<(), VolError> {
    let holding = volume.holding();
    if holding.chunk_len(name).is_none() {
        return Err(VolError::NoSuchFile);
    }
    if holding.is_used(name) {
        return Err(VolError::Exists);
    }
    volume.drop_chunk(rack, name)
}

/// Drops a file.
pub(crate) fn drop_file(
    volume: &mut Volume,
    rack: &mut MemRack,
    name: &str,
) -> Result<(), VolError> {
    volume.drop_file(rack, name)
}
