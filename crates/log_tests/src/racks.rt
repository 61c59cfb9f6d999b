// Racks in memory with small logs, and the frames that are appended to them.
ghost use Rattle.std.specs.Prelude.{◌≤◌, length, IfSome};

use chunk_log::Frame;
use std::alloc::Global;
use volume_disk::MemRack;

/// A log of the body `X`, without a generation.
pub(crate) const OLD: &[u8] = b"\x01\0\0\0\x01X\0";

/// How many bytes each device has room for.
const ROOM: usize = 100;

/// A rack on which the calls of these numbers fail, or none where there is no memory.
pub(crate) fn failing_rack(alloc: Global, fails: Vec<u64>) -> Option<MemRack> {
    MemRack::new(alloc, ROOM, 40, 200, fails)
}

/// A rack with these logs on the two halves of its first place.
pub(crate) fn rack_of(alloc: Global, first: &[u8], second: &[u8]) -> Option<MemRack> {
    let mut rack = MemRack::new(alloc, ROOM, 40, 200, Vec::new(alloc))?;
    if ROOM < first.len() || ROOM < second.len() {
        return None;
    }
    rack.set_image(0, first);
    rack.set_image(3, second);
    Some(rack)
}

/// A frame of some bytes.
pub(crate) fn frame_of(alloc: Global, body: &[u8]) -> Option<Frame>
    ensures { IfSome result (λ f. 1 ≤ length f.body) }
{
    if body.is_empty() || 9 < body.len() {
        return None;
    }
    let mut frame = Frame::room(alloc, 9).ok()?;
    frame.set(body);
    Some(frame)
}
