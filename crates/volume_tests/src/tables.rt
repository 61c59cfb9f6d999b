// Images of a volume's device, and what opening them answers.
use crate::calls::{open, put_chunk};
use crate::images::{is_image, rack_of, volume_of};
use chunk_volume::{VolError, Volume};
use std::alloc::Global;
use volume_disk::MemRack;

/// The log of the chunk and the file without its last byte.
const CUT: &[u8] =
    b"\x01\0\0\0\x24\x01\xba\x78\x16\xbf\x8f\x01\xcf\xea\x41\x41\x40\xde\x5d\xae\x22\x23\xb0\x03\x61\xa3\x96\x17\x7a\x9c\xb4\x10\xff\x61\xf2\x00\x15\xadabc\x01\0\0\0\x23\x02\x01n\xba\x78\x16\xbf\x8f\x01\xcf\xea\x41\x41\x40\xde\x5d\xae\x22\x23\xb0\x03\x61\xa3\x96\x17\x7a\x9c\xb4\x10\xff\x61\xf2\x00\x15\xad";

/// The same with another last gate that is not open.
const OTHER_GATE: &[u8] =
    b"\x01\0\0\0\x24\x01\xba\x78\x16\xbf\x8f\x01\xcf\xea\x41\x41\x40\xde\x5d\xae\x22\x23\xb0\x03\x61\xa3\x96\x17\x7a\x9c\xb4\x10\xff\x61\xf2\x00\x15\xadabc\x01\0\0\0\x23\x02\x01n\xba\x78\x16\xbf\x8f\x01\xcf\xea\x41\x41\x40\xde\x5d\xae\x22\x23\xb0\x03\x61\xa3\x96\x17\x7a\x9c\xb4\x10\xff\x61\xf2\x00\x15\xad\x7f";

/// The same with a closed gate behind the chunk.
const CHUNK_IN_FRONT: &[u8] =
    b"\x01\0\0\0\x24\x01\xba\x78\x16\xbf\x8f\x01\xcf\xea\x41\x41\x40\xde\x5d\xae\x22\x23\xb0\x03\x61\xa3\x96\x17\x7a\x9c\xb4\x10\xff\x61\xf2\x00\x15\xadabc\0\0\0\0\x23\x02\x01n\xba\x78\x16\xbf\x8f\x01\xcf\xea\x41\x41\x40\xde\x5d\xae\x22\x23\xb0\x03\x61\xa3\x96\x17\x7a\x9c\xb4\x10\xff\x61\xf2\x00\x15\xad\0";

/// The gate at fault of an image; none where the volume is opened, or memory is wanted.
fn damage_of(alloc: Global, image: &[u8]) -> Option<u64> {
    let mut rack = rack_of(alloc, image)?;
    match open(alloc, &mut rack) {
        Err(VolError::Damage { device, at }) if device == 0 => Some(at),
        _ => None,
    }
}

#[test]
fn names_the_gate_at_fault(rt: HostRuntime) {
    let cases: [(&[u8], u64); 3] = [
        // no length
        (b"\x01\0\0\0\0", 0),
        // no record
        (b"\x01\0\0\0\x01\x05\0", 0),
        (CUT, 41),
    ];
    for (image, at) in cases {
        assert!(rt; damage_of(rt.alloc(), image) == Some(at));
    }
}

/// Where a volume ends, and how many bytes, chunks and files it holds.
fn counts_of(volume: &Volume) -> (u64, u64, u64, u32) {
    let holding = volume.holding();
    let (chunks, files) = (holding.chunk_count(), holding.file_count());
    (volume.end(), volume.bytes(), chunks, files)
}

/// Whether an image is opened as a volume that ends there and holds so many bytes, chunks and files.
fn opens_as(alloc: Global, image: &[u8], counts: (u64, u64, u64, u32)) -> bool {
    match volume_of(alloc, image) {
        Some((_, volume)) => counts_of(&volume) == counts,
        None => false,
    }
}

#[test]
fn opens_whatever_a_closed_gate_holds(rt: HostRuntime) {
    assert!(rt; opens_as(rt.alloc(), b"\x01", (0, 0, 0, 0)));
    assert!(rt; opens_as(rt.alloc(), OTHER_GATE, (81, 3, 1, 1)));
    assert!(rt; opens_as(rt.alloc(), CHUNK_IN_FRONT, (41, 3, 1, 0)));
}

/// Whether a blank device gets its gate.
fn closes_gate(alloc: Global) -> bool {
    match volume_of(alloc, b"\x01") {
        Some((rack, _)) => is_image(&rack, b"\0"),
        None => false,
    }
}

/// Whether the bytes of a chunk that is held are put in no second time.
fn puts_nothing(volume: &mut Volume, rack: &mut MemRack) -> bool {
    put_chunk(volume, rack, b"abc") == Ok(false) && is_image(rack, CHUNK_IN_FRONT)
}

/// Whether this is so behind a closed gate.
fn keeps_the_chunk(alloc: Global) -> bool {
    let Some((mut rack, mut volume)) = volume_of(alloc, CHUNK_IN_FRONT) else {
        return false;
    };
    puts_nothing(&mut volume, &mut rack)
}

#[test]
fn blank_devices_get_a_gate(rt: HostRuntime) {
    assert!(rt; closes_gate(rt.alloc()));
}

#[test]
fn chunks_in_front_of_a_closed_gate_are_held(rt: HostRuntime) {
    assert!(rt; keeps_the_chunk(rt.alloc()));
}
