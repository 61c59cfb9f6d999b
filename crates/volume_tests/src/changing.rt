// What chunks and files leave that are put and dropped.
use crate::calls::{drop_chunk, drop_file, open, put_chunk};
use crate::images::{ABC, begins_with_a_drop, blank, is_chunk, lacking, small};
use chunk_volume::{VolError, Volume};
use std::alloc::Global;
use volume_disk::MemRack;

/// Makes room for the chunk, and puts it.
fn put_abc(volume: &mut Volume, rack: &mut MemRack) -> Result<bool, VolError> {
    volume.reserve(1, 1, 36)?;
    put_chunk(volume, rack, b"abc")
}

/// Whether the volume has a chunk that no file uses.
fn has_orphan(volume: &Volume) -> bool {
    volume.first_orphan().is_some()
}

/// Whether the chunk of this name is not dropped, since a file uses it.
fn keeps_chunk(volume: &mut Volume, rack: &mut MemRack, name: &[u8; 32]) -> bool {
    drop_chunk(volume, rack, name) == Err(VolError::Exists)
}

/// Whether the log is that of the chunk, once it is put.
fn writes_abc(volume: &mut Volume, rack: &mut MemRack) -> bool {
    match put_abc(volume, rack) {
        Ok(is_new) => is_new && is_chunk(rack),
        Err(_) => false,
    }
}

/// Whether another put says that the chunk is held, and writes nothing.
fn holds_abc(volume: &mut Volume, rack: &mut MemRack) -> bool {
    match put_abc(volume, rack) {
        Ok(is_new) => !is_new && is_chunk(rack),
        Err(_) => false,
    }
}

/// Whether the first put writes the chunk, and the second nothing.
fn puts_once(volume: &mut Volume, rack: &mut MemRack) -> bool {
    writes_abc(volume, rack) && holds_abc(volume, rack)
}

/// Whether the chunk is put, and then dropped.
fn drops_chunk(volume: &mut Volume, rack: &mut MemRack, name: &[u8; 32]) -> bool {
    writes_abc(volume, rack) && drop_chunk(volume, rack, name).is_ok() && begins_with_a_drop(rack)
}

/// Whether the file is dropped, and its chunk stays.
fn drops_file(volume: &mut Volume, rack: &mut MemRack, name: &str) -> bool {
    drop_file(volume, rack, name).is_ok() && has_orphan(volume)
}

/// Whether the log does not fold at its first record.
fn is_damaged(alloc: Global, rack: &mut MemRack) -> bool {
    match open(alloc, rack) {
        Ok(_) => false,
        Err(error) => error == VolError::Damage { device: 0, at: 0 },
    }
}

/// Whether a blank volume takes a chunk once.
fn puts_abc(alloc: Global) -> bool {
    let Some((mut rack, mut volume)) = blank(alloc) else {
        return false;
    };
    puts_once(&mut volume, &mut rack)
}

/// Whether a blank volume drops a chunk.
fn drops_abc(alloc: Global) -> bool {
    let Some((mut rack, mut volume)) = blank(alloc) else {
        return false;
    };
    drops_chunk(&mut volume, &mut rack, &ABC)
}

/// Whether the small volume keeps the chunk that its file uses.
fn keeps_abc(alloc: Global) -> bool {
    let Some((mut rack, mut volume)) = small(alloc) else {
        return false;
    };
    keeps_chunk(&mut volume, &mut rack, &ABC)
}

/// Whether the small volume drops its file.
fn drops_n(alloc: Global) -> bool {
    let Some((mut rack, mut volume)) = small(alloc) else {
        return false;
    };
    drops_file(&mut volume, &mut rack, "n")
}

/// Whether a log whose file lacks its chunk is refused.
fn refuses_lacking(alloc: Global) -> bool {
    let Some(mut rack) = lacking(alloc) else {
        return false;
    };
    is_damaged(alloc, &mut rack)
}

#[test]
fn puts_a_chunk_once(rt: HostRuntime) {
    assert!(rt; puts_abc(rt.alloc()));
}

#[test]
fn drops_chunks(rt: HostRuntime) {
    assert!(rt; drops_abc(rt.alloc()));
}

#[test]
fn keeps_what_a_file_uses(rt: HostRuntime) {
    assert!(rt; keeps_abc(rt.alloc()));
}

#[test]
fn drops_files(rt: HostRuntime) {
    assert!(rt; drops_n(rt.alloc()));
}

#[test]
fn names_the_first_that_does_not_fold(rt: HostRuntime) {
    assert!(rt; refuses_lacking(rt.alloc()));
}
