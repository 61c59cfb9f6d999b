// How many calls of the rack an opening makes.
use chunk_volume::Volume;
use std::alloc::Global;
use volume_disk::MemRack;

/// How many chunks the log has: records of 39 bytes, together more than one piece of 65,536 bytes and less than two.
const CHUNKS: u32 = 2_000;

/// How many bytes the log has.
const LENGTH: usize = 78_001;

/// Adds the record of a chunk of one byte, whose name has this number in front. Its gate is open.
fn add_chunk(log: &mut Vec<u8>, number: u32) -> Option<()> {
    log.extend_from_slice(b"\x01\0\0\0\x22\x01").ok()?;
    log.extend_from_slice(&number.to_be_bytes()).ok()?;
    log.extend_from_slice(&[0; 29]).ok()
}

/// The log of the chunks.
fn log_of_chunks(alloc: Global) -> Option<Vec<u8>> {
    let mut log = Vec::new(alloc);
    for number in 0..CHUNKS {
        add_chunk(&mut log, number)?;
    }
    log.push(0).ok()?;
    Some(log)
}

/// A rack with this log on its first device, whose calls from the one of this number on fail.
fn rack_of(alloc: Global, log: &[u8], stop: u64) -> Option<MemRack> {
    let mut rack = MemRack::new(alloc, LENGTH, 40, 40, Vec::new(alloc))?;
    if log.len() != LENGTH {
        return None;
    }
    rack.set_image(0, log);
    rack.stop_at(stop);
    Some(rack)
}

/// Whether the volume of all chunks is opened.
fn opens_all(alloc: Global, rack: &mut MemRack) -> bool {
    match Volume::open(alloc, rack, 0, 100_000) {
        Ok(volume) => volume.bytes() == u64::from(CHUNKS),
        Err(_) => false,
    }
}

/// Whether the volume of all chunks is opened by fewer calls of the rack than so many.
fn opens_by(alloc: Global, calls: u64) -> bool {
    let Some(log) = log_of_chunks(alloc) else {
        return false;
    };
    let Some(mut rack) = rack_of(alloc, log.as_slice(), calls) else {
        return false;
    };
    opens_all(alloc, &mut rack)
}

// Eleven calls are made: four find the half in force and two settle it; three pieces find the end, since behind the last
// gate no length stands, and two fold the records.
#[test]
fn opens_by_pieces(rt: HostRuntime) {
    assert!(rt; opens_by(rt.alloc(), 12));
}

#[test]
fn reads_the_device(rt: HostRuntime) {
    assert!(rt; !opens_by(rt.alloc(), 11));
}
