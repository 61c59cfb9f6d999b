// The images of a small volume: a chunk with the bytes of `abc`, and a file `n` of this chunk.
use crate::calls::open;
use chunk_volume::Volume;
use std::alloc::Global;
use volume_disk::MemRack;

/// SHA-256 of `abc`.
pub(crate) const ABC: [u8; 32] =
    *b"\xba\x78\x16\xbf\x8f\x01\xcf\xea\x41\x41\x40\xde\x5d\xae\x22\x23\xb0\x03\x61\xa3\x96\x17\x7a\x9c\xb4\x10\xff\x61\xf2\x00\x15\xad";

/// SHA-256 of `bbc`.
pub(crate) const BBC: [u8; 32] =
    *b"\x77\xe6\xf7\x8a\xf4\x5f\x64\x9c\x5f\x3b\x8e\xbe\x48\x4a\x91\xa1\x44\xeb\x20\x3a\x34\xa8\x9c\x8d\xc5\xb1\xc4\xca\x87\xbc\x6f\x71";

/// The log of the chunk, with these bytes for its own.
const CHUNK: &[u8] =
    b"\x01\0\0\0\x24\x01\xba\x78\x16\xbf\x8f\x01\xcf\xea\x41\x41\x40\xde\x5d\xae\x22\x23\xb0\x03\x61\xa3\x96\x17\x7a\x9c\xb4\x10\xff\x61\xf2\x00\x15\xadabc\0";

/// The log of the chunk and the file.
const SMALL: &[u8] =
    b"\x01\0\0\0\x24\x01\xba\x78\x16\xbf\x8f\x01\xcf\xea\x41\x41\x40\xde\x5d\xae\x22\x23\xb0\x03\x61\xa3\x96\x17\x7a\x9c\xb4\x10\xff\x61\xf2\x00\x15\xadabc\x01\0\0\0\x23\x02\x01n\xba\x78\x16\xbf\x8f\x01\xcf\xea\x41\x41\x40\xde\x5d\xae\x22\x23\xb0\x03\x61\xa3\x96\x17\x7a\x9c\xb4\x10\xff\x61\xf2\x00\x15\xad\0";

/// The same with another first byte of the chunk.
const CHANGED: &[u8] =
    b"\x01\0\0\0\x24\x01\xba\x78\x16\xbf\x8f\x01\xcf\xea\x41\x41\x40\xde\x5d\xae\x22\x23\xb0\x03\x61\xa3\x96\x17\x7a\x9c\xb4\x10\xff\x61\xf2\x00\x15\xadbbc\x01\0\0\0\x23\x02\x01n\xba\x78\x16\xbf\x8f\x01\xcf\xea\x41\x41\x40\xde\x5d\xae\x22\x23\xb0\x03\x61\xa3\x96\x17\x7a\x9c\xb4\x10\xff\x61\xf2\x00\x15\xad\0";

/// The log of the chunk, up to the kind of the record that drops it.
const CHUNK_BEFORE_A_DROP: &[u8] =
    b"\x01\0\0\0\x24\x01\xba\x78\x16\xbf\x8f\x01\xcf\xea\x41\x41\x40\xde\x5d\xae\x22\x23\xb0\x03\x61\xa3\x96\x17\x7a\x9c\xb4\x10\xff\x61\xf2\x00\x15\xadabc\x01\0\0\0\x21\x04";

/// The log of the file alone, whose chunk is lacking.
const LACKING: &[u8] =
    b"\x01\0\0\0\x23\x02\x01n\xba\x78\x16\xbf\x8f\x01\xcf\xea\x41\x41\x40\xde\x5d\xae\x22\x23\xb0\x03\x61\xa3\x96\x17\x7a\x9c\xb4\x10\xff\x61\xf2\x00\x15\xad\0";

// How many bytes each device has room for.
const ROOM: usize = 200;

/// A rack with this log on its first device; none is want of memory.
pub(crate) fn rack_of(alloc: Global, image: &[u8]) -> Option<MemRack> {
    let mut rack = MemRack::new(alloc, ROOM, 40, 400, Vec::new(alloc))?;
    if ROOM < image.len() {
        return None;
    }
    rack.set_image(0, image);
    Some(rack)
}

/// Such a rack, and its volume.
pub(crate) fn volume_of(alloc: Global, image: &[u8]) -> Option<(MemRack, Volume)> {
    let mut rack = rack_of(alloc, image)?;
    let volume = open(alloc, &mut rack).ok()?;
    Some((rack, volume))
}

/// A rack with the log of the chunk and the file, and its volume.
pub(crate) fn small(alloc: Global) -> Option<(MemRack, Volume)> {
    volume_of(alloc, SMALL)
}

/// A rack with the log of the chunk, and its volume.
pub(crate) fn chunk_alone(alloc: Global) -> Option<(MemRack, Volume)> {
    volume_of(alloc, CHUNK)
}

/// A rack with no log, and its volume.
pub(crate) fn blank(alloc: Global) -> Option<(MemRack, Volume)> {
    volume_of(alloc, b"")
}

/// A rack with the log of the file alone.
pub(crate) fn lacking(alloc: Global) -> Option<MemRack> {
    rack_of(alloc, LACKING)
}

/// A rack with the log of the chunk and the file with another first byte of the chunk.
pub(crate) fn changed(alloc: Global) -> Option<MemRack> {
    rack_of(alloc, CHANGED)
}

/// Whether the first device has this log.
pub(crate) fn is_image(rack: &MemRack, image: &[u8]) -> bool {
    rack.image(0) == image
}

/// Whether the first device has the log of the chunk and the file with another first byte of the chunk.
pub(crate) fn is_changed(rack: &MemRack) -> bool {
    is_image(rack, CHANGED)
}

/// Whether the first device has the log of the chunk and the file.
pub(crate) fn is_small(rack: &MemRack) -> bool {
    is_image(rack, SMALL)
}

/// Whether the first device has the log of the chunk alone.
pub(crate) fn is_chunk(rack: &MemRack) -> bool {
    is_image(rack, CHUNK)
}

/// Whether the log of the first device begins as that of the chunk and the record that drops it.
pub(crate) fn begins_with_a_drop(rack: &MemRack) -> bool {
    rack.image(0).starts_with(CHUNK_BEFORE_A_DROP)
}
