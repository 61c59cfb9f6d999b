// What a volume says once it is open.
use crate::calls::{read_chunk, read_file};
use crate::images::{ABC, small};
use chunk_volume::{VolError, Volume};
use std::alloc::Global;
use volume_disk::MemRack;

/// Whether this file has the bytes of `abc`.
fn reads_file(volume: &Volume, rack: &mut MemRack, name: &str) -> bool {
    match read_file(volume, rack, name) {
        Ok(bytes) => bytes.as_slice() == b"abc".as_slice(),
        Err(_) => false,
    }
}

/// Whether the chunk of this name has the bytes of `abc`.
fn reads_chunk(volume: &Volume, rack: &mut MemRack, name: &[u8; 32]) -> bool {
    match read_chunk(volume, rack, name) {
        Ok(bytes) => bytes.as_slice() == b"abc".as_slice(),
        Err(_) => false,
    }
}

/// Whether the volume lacks this file.
fn lacks(volume: &Volume, rack: &mut MemRack, name: &str) -> bool {
    match read_file(volume, rack, name) {
        Ok(_) => false,
        Err(error) => error == VolError::NoSuchFile,
    }
}

/// Whether the log is that of the chunk and the file.
fn has_small_log(volume: &Volume) -> bool {
    volume.end() == 81 && volume.device() == 0
}

/// Whether the volume holds the chunk, which its file uses.
fn holds_abc(volume: &Volume) -> bool {
    volume.bytes() == 3 && volume.first_orphan().is_none()
}

/// Whether the volume is that of the chunk and the file.
fn is_small(volume: &Volume) -> bool {
    has_small_log(volume) && holds_abc(volume)
}

/// Whether the recipe has a file and a chunk of 3 bytes.
fn has_recipe(volume: &Volume) -> bool {
    match volume.recipe() {
        Ok(recipe) => recipe.files() == 1 && recipe.total() == 3,
        Err(_) => false,
    }
}

/// Whether the small volume is opened.
fn opens_small(alloc: Global) -> bool {
    match small(alloc) {
        Some((_, volume)) => is_small(&volume) && has_recipe(&volume),
        None => false,
    }
}

/// Whether the file of the small volume is read.
fn reads_n(alloc: Global) -> bool {
    let Some((mut rack, volume)) = small(alloc) else {
        return false;
    };
    reads_file(&volume, &mut rack, "n")
}

/// Whether a file that the small volume lacks is not read.
fn lacks_m(alloc: Global) -> bool {
    let Some((mut rack, volume)) = small(alloc) else {
        return false;
    };
    lacks(&volume, &mut rack, "m")
}

/// Whether the chunk of the small volume is read.
fn reads_abc(alloc: Global) -> bool {
    let Some((mut rack, volume)) = small(alloc) else {
        return false;
    };
    reads_chunk(&volume, &mut rack, &ABC)
}

#[test]
fn opens(rt: HostRuntime) {
    assert!(rt; opens_small(rt.alloc()));
}

#[test]
fn reads_files(rt: HostRuntime) {
    assert!(rt; reads_n(rt.alloc()));
}

#[test]
fn lacks_files(rt: HostRuntime) {
    assert!(rt; lacks_m(rt.alloc()));
}

#[test]
fn reads_chunks(rt: HostRuntime) {
    assert!(rt; reads_abc(rt.alloc()));
}
