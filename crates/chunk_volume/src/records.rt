// What the bodies of records say.
ghost use Rattle.std.specs.Prelude.{◌≡◌, ◌≢◌, ◌+◌, ◌-◌, ◌/◌, ◌%◌, ◌≤◌, ℕ, List, ◌∷◌, length, take, drop, slice_index, IfOk, IfSome, IfNone, Some, None};
ghost use Rattle.site_forms.specs.VolumeRecords.{IsChunkName, IsChunk, volume_record, names_of_chunks};
ghost use Rattle.site_forms.specs.VolumeRecords.VolumeRecord.{ChunkRecord, FileRecord, DropFileRecord, DropChunkRecord};
ghost use Rattle.file_names.specs.FileNames.{IsFileName};
ghost use Rattle.chunk_volume.specs.Spelled.{IsChunkFront, IsNoChunk, IsFileSpelled};

use file_names::file_name_of;
use seed_model::NoMemory;
use std::alloc::Global;

/// The most bytes of a chunk.
pub const LONGEST_CHUNK: u32 = 1_048_576;

/// How many bytes in front of a chunk's record its kind and its name are.
pub(crate) const CHUNK_FRONT: u32 = 33;

/// The name of the chunk whose record begins with these bytes, of kind 1, and has so many; none where it is no record.
pub(crate) fn chunk_in(front: &[u8; 33], len: u32) -> Option<[u8; 32]>
    requires kind { slice_index front.now 0 ≡ 1 }
    ensures some { IfSome result (IsChunkFront front.now len) }
    ensures none { IfNone result (IsNoChunk len) }
{
    if len <= CHUNK_FRONT || CHUNK_FRONT + LONGEST_CHUNK < len {
        return None;
    }
    let mut name = [0; 32];
    name.copy_from_slice(&front[1..]);
    Some(name)
}

/// The name of a file and the names of its chunks, of a record of kind 2; none where it is no record or its name is not
/// lawful.
pub(crate) fn file_in(rest: &[u8]) -> Option<(&str, &[u8])>
    ensures some { IfSome result (λ p. IsFileSpelled rest.now p.0.now p.1.now) }
    ensures none { IfNone result ((name : List ℕ) (chunks : List (List ℕ)) → volume_record (2 ∷ rest.now) ≡ Some (FileRecord name chunks) → ¬ IsFileName name) }
{
    let (n, rest) = rest.split_first()?;
    let len = *n as usize;
    if rest.len() < len || (rest.len() - len) % 32 != 0 {
        return None;
    }
    let (name, chunks) = rest.split_at(len);
    Some((file_name_of(name)?, chunks))
}

/// The name of a chunk, of a record of kind 4; none where it is no record.
pub(crate) fn chunk_name(rest: &[u8]) -> Option<[u8; 32]>
    ensures some { IfSome result (λ name. name ≡ rest.now) }
    ensures long { IfSome result (λ name. length rest.now ≡ 32) }
    ensures none { IfNone result (length rest.now ≢ 32) }
{
    if rest.len() != 32 {
        return None;
    }
    Some(array_of(rest))
}

/// The names of chunks that stand one after the other.
#[tactic(auto, using(crate::proofs::Names::names_more))]
pub(crate) fn names_in(alloc: Global, bytes: &[u8]) -> Result<Vec<[u8; 32]>, NoMemory>
    ensures { IfOk result (λ names. names.items ≡ names_of_chunks (length bytes.now / 32) bytes.now) }
{
    let mut names = Vec::with_capacity(alloc, bytes.len() / 32)?;
    for number in 0..bytes.len() / 32 {
        names.push(array_of(&bytes[32 * number..32 * number + 32]))?;
    }
    Ok(names)
}

// The 32 bytes of a slice.
fn array_of(bytes: &[u8]) -> [u8; 32]
    requires { length bytes.now ≡ 32 }
    ensures { result ≡ bytes.now }
{
    let mut array = [0; 32];
    array.copy_from_slice(bytes);
    array
}
