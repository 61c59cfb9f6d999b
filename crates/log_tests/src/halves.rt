// The two halves of a place on a rack in memory.
ghost use Rattle.std.specs.Prelude.{◌≤◌, length};

use crate::racks::{OLD, frame_of, rack_of};
use chunk_log::{AppendError, Frame, HalfWriter, LogError, in_force, open_place, switch_halves};
use std::alloc::Global;
use volume_disk::{MemRack, Pick};

/// A half of generation 1 with the body `Y`.
const FIRST: &[u8] = b"\x01\0\0\0\x09\x20\0\0\0\0\0\0\0\x01\x01\0\0\0\x01Y\0";

/// A half of generation 2 with the body `Z`.
const SECOND: &[u8] = b"\x01\0\0\0\x09\x20\0\0\0\0\0\0\0\x02\x01\0\0\0\x01Z\0";

/// The Half record of generation 1.
const HALF_ONE: &[u8] = b"\x20\0\0\0\0\0\0\0\x01";

/// The Half record of generation 2.
const HALF_TWO: &[u8] = b"\x20\0\0\0\0\0\0\0\x02";

/// Writes a half of the first place with a Half record and a body, and switches to it from the other one.
fn compact(rack: &mut MemRack, halves: (u8, u8), head: &Frame, body: &Frame) -> Option<()>
    requires new { halves.0 ≤ 5 }
    requires old { halves.1 ≤ 5 }
    requires head { 1 ≤ length head.now.body }
    requires body { 1 ≤ length body.now.body }
{
    let (new, old) = halves;
    in_force(rack, 0).ok()?;
    let mut writer = HalfWriter::start(rack, new, 100).ok()?;
    writer.add(rack, head).ok()?;
    writer.add(rack, body).ok()?;
    switch_halves(rack, writer, old).ok()?;
    Some(())
}

/// A place of which one half is written anew: its halves, the new one and the old one, and what is written.
#[derive(Clone, Copy)]
struct Work {
    first: &'static [u8],
    second: &'static [u8],
    new: u8,
    old: u8,
    head: &'static [u8],
    body: &'static [u8],
}

/// A first half, written anew on the second.
const TO_FIRST: Work = Work {
    first: OLD,
    second: b"",
    new: 3,
    old: 0,
    head: HALF_ONE,
    body: b"Y",
};

/// A second half, written anew on the first.
const TO_SECOND: Work = Work {
    first: OLD,
    second: FIRST,
    new: 0,
    old: 3,
    head: HALF_TWO,
    body: b"Z",
};

/// The rack of a work after its calls up to one; none is want of memory.
fn worked(alloc: Global, work: Work, stop: u64) -> Option<MemRack> {
    let head = frame_of(alloc, work.head)?;
    let body = frame_of(alloc, work.body)?;
    let mut rack = rack_of(alloc, work.first, work.second)?;
    if 5 < work.new || 5 < work.old {
        return None;
    }
    rack.stop_at(stop);
    let _ = compact(&mut rack, (work.new, work.old), &head, &body);
    Some(rack)
}

/// Whether the two halves of the first place are these.
fn holds(rack: &MemRack, first: &[u8], second: &[u8]) -> bool {
    rack.image(0) == first && rack.image(3) == second
}

/// Whether the work leaves these halves, also after a crash, and the second one is in force with this generation.
fn leaves(alloc: Global, work: Work, halves: (&[u8], &[u8]), in_use: (u8, u64)) -> bool {
    let Some(mut rack) = worked(alloc, work, 100) else {
        return false;
    };
    let is_left = holds(&rack, halves.0, halves.1);
    rack.crash(Pick::Old);
    is_left && holds(&rack, halves.0, halves.1) && in_force(&mut rack, 0) == Ok(in_use)
}

#[test]
fn compacts(rt: HostRuntime) {
    assert!(rt; leaves(rt.alloc(), TO_FIRST, (b"\0", FIRST), (3, 1)));
    assert!(rt; leaves(rt.alloc(), TO_SECOND, (SECOND, b"\0"), (0, 2)));
}

/// Whether the log of the first place is on this device and has this image.
fn opens(rack: &mut MemRack, device: u8, image: &[u8]) -> bool {
    match open_place(rack, 0, 100) {
        Ok(log) => log.device() == device && log.device() <= 5 && rack.image(log.device()) == image,
        Err(_) => false,
    }
}

/// Whether the log of a place is on this device and has this image, after a work that was stopped at a call, and a crash.
fn stands(alloc: Global, work: Work, pick: Pick, stop: u64, want: (u8, &[u8])) -> bool {
    let Some(mut rack) = worked(alloc, work, stop) else {
        return false;
    };
    rack.crash(pick);
    opens(&mut rack, want.0, want.1)
}

/// What a crash of each pick leaves of a first gate that was being opened: whether it is open.
const PICKS: [(Pick, bool); 5] = [
    (Pick::Old, false),
    (Pick::New, true),
    (Pick::Junk(1), true),
    (Pick::Junk(0), false),
    (Pick::Junk(0x7f), false),
];

#[test]
fn stops_at_each_call(rt: HostRuntime) {
    for (pick, is_open) in PICKS {
        for stop in 1u64..22 {
            let is_new = match stop {
                // finding the half in force, the new half, its last gate and the sync behind it
                1..=11 => false,
                // the first gate and its sync
                12..=13 => is_open,
                _ => true,
            };
            let want = if is_new { (3, FIRST) } else { (0, OLD) };
            assert!(rt;
                stands(rt.alloc(), TO_FIRST, pick, stop, want),
                "{pick:?} after {stop}"
            );
        }
    }
}

#[test]
fn stops_over_an_old_half(rt: HostRuntime) {
    for (pick, is_open) in PICKS {
        for stop in 1u64..27 {
            let is_new = match stop {
                // the same with the old half shut and cut before the new one
                1..=16 => false,
                17..=18 => is_open,
                _ => true,
            };
            let want = if is_new { (0, SECOND) } else { (3, FIRST) };
            assert!(rt;
                stands(rt.alloc(), TO_SECOND, pick, stop, want),
                "{pick:?} after {stop}"
            );
        }
    }
}

/// What two appends to a new half that may grow to so many bytes are answered, where calls from one on fail.
fn adds(
    alloc: Global,
    limit: u64,
    stop: u64,
) -> Option<(Result<(), AppendError>, Result<(), AppendError>)> {
    let head = frame_of(alloc, HALF_ONE)?;
    let body = frame_of(alloc, b"Y")?;
    let mut rack = rack_of(alloc, OLD, b"")?;
    let mut writer = HalfWriter::start(&mut rack, 3, limit.min(100)).ok()?;
    rack.stop_at(stop);
    let first = writer.add(&mut rack, &head);
    Some((first, writer.add(&mut rack, &body)))
}

#[test]
fn refuses_bodies(rt: HostRuntime) {
    let full = AppendError::DeviceFull {
        device: 3,
        end: 14,
        len: 1,
    };
    assert!(rt; adds(rt.alloc(), 20, 100) == Some((Ok(()), Err(full))));
    assert!(rt; adds(rt.alloc(), 21, 100) == Some((Ok(()), Ok(()))));
    let failed = (Err(AppendError::RackFault), Err(AppendError::Spent));
    assert!(rt; adds(rt.alloc(), 100, 1) == Some(failed));
}

/// Whether a place with twice this half is refused.
fn refuses_twice(alloc: Global, half: &[u8]) -> bool {
    let Some(mut rack) = rack_of(alloc, half, half) else {
        return false;
    };
    let damage = LogError::Damage { device: 3, at: 0 };
    in_force(&mut rack, 0) == Err(damage) && open_place(&mut rack, 0, 100).err() == Some(damage)
}

#[test]
fn equal_generations(rt: HostRuntime) {
    assert!(rt; refuses_twice(rt.alloc(), OLD) && refuses_twice(rt.alloc(), FIRST));
}
