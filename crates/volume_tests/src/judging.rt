// What a volume says of bytes that changed below it.
use crate::calls::{compare_chunk, open, put_chunk, read_chunk, read_file};
use crate::images::{ABC, BBC, changed, is_changed, is_small, small};
use chunk_volume::{VolError, Volume};
use std::alloc::Global;
use volume_disk::MemRack;

/// Whether the error names the chunk of `abc` and the digest of `bbc`.
fn is_bad(error: VolError) -> bool {
    match error {
        VolError::BadChunk { name, found } => name == ABC && found == BBC,
        _ => false,
    }
}

/// Whether the chunk is refused.
fn refuses_chunk(volume: &Volume, rack: &mut MemRack, name: &[u8; 32]) -> bool {
    match read_chunk(volume, rack, name) {
        Ok(_) => false,
        Err(error) => is_bad(error),
    }
}

/// Whether the file is refused.
fn refuses_file(volume: &Volume, rack: &mut MemRack, name: &str) -> bool {
    match read_file(volume, rack, name) {
        Ok(_) => false,
        Err(error) => is_bad(error),
    }
}

/// Whether the bytes are refused where others stand under their digest.
fn refuses_put(volume: &mut Volume, rack: &mut MemRack, bytes: &[u8]) -> bool {
    match put_chunk(volume, rack, bytes) {
        Ok(_) => false,
        Err(error) => is_bad(error),
    }
}

/// Whether the bytes are refused, and the rack has the changed bytes still.
fn writes_nothing(volume: &mut Volume, rack: &mut MemRack, bytes: &[u8]) -> bool {
    refuses_put(volume, rack, bytes) && is_changed(rack)
}

/// The small volume, on a rack whose bytes changed since it was opened.
fn changed_small(alloc: Global) -> Option<(MemRack, Volume)> {
    let (_, volume) = small(alloc)?;
    let rack = changed(alloc)?;
    Some((rack, volume))
}

/// Whether the changed chunk is refused.
fn refuses_abc(alloc: Global) -> bool {
    let Some((mut rack, volume)) = changed_small(alloc) else {
        return false;
    };
    refuses_chunk(&volume, &mut rack, &ABC)
}

/// Whether the file of the changed chunk is refused.
fn refuses_n(alloc: Global) -> bool {
    let Some((mut rack, volume)) = changed_small(alloc) else {
        return false;
    };
    refuses_file(&volume, &mut rack, "n")
}

/// The changed volume, as it is opened: a chunk's record folds whatever its bytes are.
fn opened_changed(alloc: Global) -> Option<(MemRack, Volume)> {
    let mut rack = changed(alloc)?;
    let volume = open(alloc, &mut rack).ok()?;
    Some((rack, volume))
}

/// Whether a put finds that other bytes were held from the beginning, and writes nothing.
fn finds_others(alloc: Global) -> bool {
    let Some((mut rack, mut volume)) = opened_changed(alloc) else {
        return false;
    };
    writes_nothing(&mut volume, &mut rack, b"abc")
}

/// Whether the file of bytes that were others from the beginning is refused.
fn refuses_others(alloc: Global) -> bool {
    let Some((mut rack, volume)) = opened_changed(alloc) else {
        return false;
    };
    refuses_file(&volume, &mut rack, "n")
}

/// Whether a put finds the changed chunk, and writes nothing.
fn finds_changes(alloc: Global) -> bool {
    let Some((mut rack, mut volume)) = changed_small(alloc) else {
        return false;
    };
    writes_nothing(&mut volume, &mut rack, b"abc")
}

/// Whether a comparison finds the bytes that are held, and writes nothing.
fn agrees(alloc: Global) -> bool {
    let Some((mut rack, mut volume)) = small(alloc) else {
        return false;
    };
    compare_chunk(&mut volume, &mut rack, b"abc") == Ok(()) && is_small(&rack)
}

/// Whether a comparison finds the changed chunk, and writes nothing.
fn differs(alloc: Global) -> bool {
    let Some((mut rack, mut volume)) = changed_small(alloc) else {
        return false;
    };
    match compare_chunk(&mut volume, &mut rack, b"abc") {
        Ok(()) => false,
        Err(error) => is_bad(error) && is_changed(&rack),
    }
}

#[test]
fn compares_chunks(rt: HostRuntime) {
    assert!(rt; agrees(rt.alloc()));
    assert!(rt; differs(rt.alloc()));
}

#[test]
fn judges_chunks(rt: HostRuntime) {
    assert!(rt; refuses_abc(rt.alloc()));
}

#[test]
fn judges_files(rt: HostRuntime) {
    assert!(rt; refuses_n(rt.alloc()));
}

#[test]
fn judges_what_it_holds(rt: HostRuntime) {
    assert!(rt; finds_changes(rt.alloc()));
}

#[test]
fn judges_what_it_was_opened_with(rt: HostRuntime) {
    assert!(rt; finds_others(rt.alloc()));
    assert!(rt; refuses_others(rt.alloc()));
}
