// What a file leaves that is put.
use crate::calls::{put_file, read_file};
use crate::images::{ABC, BBC, chunk_alone, is_chunk, is_small};
use chunk_volume::{VolError, Volume};
use std::alloc::Global;
use volume_disk::MemRack;

/// Whether the volume has one file, with this list of one chunk.
fn lists(volume: &Volume, chunk: &[u8; 32]) -> bool {
    let holding = volume.holding();
    if holding.file_count() != 1 {
        return false;
    }
    let list = holding.file_chunks(0);
    list.len() == 1 && list[0] == *chunk && holding.is_used(chunk)
}

/// Whether this file has the bytes of `abc`.
fn reads(volume: &Volume, rack: &mut MemRack, name: &str) -> bool {
    match read_file(volume, rack, name) {
        Ok(bytes) => bytes.as_slice() == b"abc".as_slice(),
        Err(_) => false,
    }
}

/// Whether the file is put behind its chunk, and then read.
fn puts(alloc: Global, volume: &mut Volume, rack: &mut MemRack, name: String) -> bool {
    if put_file(alloc, volume, rack, name, &ABC).is_err() {
        return false;
    }
    is_small(rack) && lists(volume, &ABC) && reads(volume, rack, "n")
}

/// Whether a file of a chunk that is lacking is not put.
fn refuses(alloc: Global, volume: &mut Volume, rack: &mut MemRack, name: String) -> bool {
    put_file(alloc, volume, rack, name, &BBC) == Err(VolError::NoSuchFile) && is_chunk(rack)
}

/// Whether the record of the file would pass the limit.
fn is_full(alloc: Global, volume: &mut Volume, rack: &mut MemRack, name: String) -> bool {
    match put_file(alloc, volume, rack, name, &ABC) {
        Err(VolError::DeviceFull { device, end, len }) => {
            device == 0 && end == 41 && len == 54 && is_chunk(rack)
        }
        _ => false,
    }
}

/// Whether a volume of one chunk takes the file `n`.
fn puts_n(alloc: Global) -> bool {
    let Some((mut rack, mut volume)) = chunk_alone(alloc) else {
        return false;
    };
    let Ok(name) = String::from_str(alloc, "n") else {
        return false;
    };
    puts(alloc, &mut volume, &mut rack, name)
}

/// Whether a volume of one chunk takes no file of another.
fn refuses_n(alloc: Global) -> bool {
    let Some((mut rack, mut volume)) = chunk_alone(alloc) else {
        return false;
    };
    let Ok(name) = String::from_str(alloc, "n") else {
        return false;
    };
    refuses(alloc, &mut volume, &mut rack, name)
}

/// Whether a volume of one chunk has no room for a file whose name has 20 bytes.
fn fills(alloc: Global) -> bool {
    let Some((mut rack, mut volume)) = chunk_alone(alloc) else {
        return false;
    };
    let Ok(name) = String::from_str(alloc, "twenty bytes of name") else {
        return false;
    };
    is_full(alloc, &mut volume, &mut rack, name)
}

#[test]
fn puts_a_file(rt: HostRuntime) {
    assert!(rt; puts_n(rt.alloc()));
}

#[test]
fn lacks_its_chunk(rt: HostRuntime) {
    assert!(rt; refuses_n(rt.alloc()));
}

#[test]
fn keeps_the_limit(rt: HostRuntime) {
    assert!(rt; fills(rt.alloc()));
}
