// Racks in memory and over files, call by call.
ghost use Rattle.std.specs.Prelude.{◌≤◌};

use std::alloc::Global;
use std::fs;
use volume_disk::{FolderRack, MemRack, Pick, Rack, hand_over};

/// A call of a rack that answers no bytes. A device is numbered 0 to 5.
#[derive(Clone, Copy)]
enum Call {
    Write(u8, u64, &'static str),
    Cut(u8, u64),
    Sync(u8),
    Size(u8),
}

use Call::{Cut, Size, Sync, Write};

/// Makes a call, and answers whether it fails. A device above 5 fails.
fn fails<R: Rack>(rack: &mut R, call: Call) -> bool {
    match call {
        Write(device, at, text) if device <= 5 => rack.write(device, at, text.as_bytes()).is_err(),
        Cut(device, len) if device <= 5 => rack.cut(device, len).is_err(),
        Sync(device) if device <= 5 => rack.sync(device).is_err(),
        Size(device) if device <= 5 => rack.size(device).is_err(),
        _ => true,
    }
}

/// Makes calls in order. Answers whether those at these places fail, from 1, and no others.
fn fail_at<R: Rack>(rack: &mut R, calls: &[Call], places: &[usize]) -> bool {
    let mut as_told = true;
    for (index, call) in calls.iter().enumerate() {
        as_told &= fails(rack, *call) == places.contains(&(index + 1));
    }
    as_told
}

/// Whether a read of up to eight bytes answers their number, and leaves these behind where nines stood.
fn reads<R: Rack>(rack: &mut R, device: u8, at: u64, count: usize, want: [u8; 8]) -> bool
    requires { device ≤ 5 }
{
    let mut into = [9u8; 8];
    let answer = rack.read(device, at, &mut into);
    answer == Ok(count) && into == want
}

/// Whether the first devices have these images.
fn holds(rack: &MemRack, images: &[&[u8]]) -> bool {
    let mut as_told = true;
    for (device, image) in images.iter().enumerate() {
        as_told &= device <= 5 && rack.image(device as u8) == *image;
    }
    as_told
}

/// Makes calls on a rack on which a device was synced and then written over, cut and written behind its end, a second
/// one was synced and cut, and a third one was written and cut without a sync.
fn pending(alloc: Global) -> Option<MemRack> {
    let mut rack = MemRack::new(alloc, 16, 20, 60, Vec::new(alloc))?;
    let calls = [
        Write(0, 0, "abcd"),
        Sync(0),
        Write(0, 2, "XYZ"),
        Cut(0, 3),
        Write(0, 6, "!"),
        Write(1, 0, "abcdef"),
        Sync(1),
        Cut(1, 2),
        Write(2, 0, "pqrs"),
        Cut(2, 1),
    ];
    if fail_at(&mut rack, &calls, &[]) {
        Some(rack)
    } else {
        None
    }
}

/// Whether the devices read as what was written, and no byte behind an end.
fn reads_written(rack: &mut MemRack) -> bool {
    holds(rack, &[b"abX\0\0\0!", b"ab", b"p"])
        && rack.size(0) == Ok(7)
        && reads(rack, 0, 5, 2, *b"\0!\x09\x09\x09\x09\x09\x09")
        && reads(rack, 0, 7, 0, [9; 8])
}

/// Whether a check of a rack holds on one on which calls are pending.
fn reads_pending(alloc: Global) -> bool {
    let Some(mut rack) = pending(alloc) else {
        return false;
    };
    reads_written(&mut rack)
}

#[test]
fn reads_what_was_written(rt: HostRuntime) {
    assert!(rt; reads_pending(rt.alloc()));
}

/// Whether a crash leaves these images, and nothing pending.
fn leaves(rack: &mut MemRack, pick: Pick, images: &[&[u8]]) -> bool {
    rack.crash(pick);
    let after_one = holds(rack, images);
    rack.crash(Pick::Old);
    after_one && holds(rack, images)
}

/// Whether a crash of a rack on which calls are pending leaves these images.
fn leaves_of_pending(alloc: Global, pick: Pick, images: &[&[u8]]) -> bool {
    let Some(mut rack) = pending(alloc) else {
        return false;
    };
    leaves(&mut rack, pick, images)
}

#[test]
fn a_crash_leaves_old_bytes_new_bytes_or_junk(rt: HostRuntime) {
    let cases: [(Pick, &[&[u8]]); 3] = [
        (Pick::Old, &[b"abc", b"ab", b""]),
        // The second device was cut, and never written; the third was written, and then cut.
        (Pick::New, &[b"abX\0\0\0!", b"ab\0\0\0\0", b"pqrs"]),
        (Pick::Junk(b'?'), &[b"ab?????", b"ab????", b"????"]),
    ];
    for (pick, images) in cases {
        assert!(rt; leaves_of_pending(rt.alloc(), pick, images));
    }
}

/// A rack of so much room, calls and bytes on which one call fails.
fn failing(alloc: Global, room: usize, calls: usize, bytes: usize, call: u64) -> Option<MemRack> {
    let listed = Vec::from_slice(alloc, &[call]).ok()?;
    MemRack::new(alloc, room, calls, bytes, listed)
}

/// Whether calls fail that are listed or behind a stop, and what was written is there.
fn fails_and_stops(rack: &mut MemRack) -> bool {
    let before = fail_at(rack, &[Write(0, 0, "ab"), Sync(0)], &[2]);
    rack.stop_at(4);
    let calls = [Write(0, 1, "c"), Write(0, 2, "d"), Cut(1, 1), Size(0)];
    let stopped = fail_at(rack, &calls, &[2, 3, 4]);
    rack.crash(Pick::New);
    // the failed write was done
    before && stopped && holds(rack, &[b"acd"])
}

/// Whether a crash ends the stop and cleans the record.
fn starts_anew(rack: &mut MemRack, call: Call, images: &[&[u8]]) -> bool {
    fail_at(rack, &[call], &[]) && holds(rack, images)
}

/// Whether calls fail as they are listed, and no longer after a crash.
fn fails_once(alloc: Global) -> bool {
    let Some(mut rack) = failing(alloc, 8, 20, 40, 2) else {
        return false;
    };
    fails_and_stops(&mut rack)
        && starts_anew(&mut rack, Write(0, 3, "e"), &[b"acde"])
        && leaves(&mut rack, Pick::Old, &[b"acd"])
}

#[test]
fn failed_calls(rt: HostRuntime) {
    assert!(rt; fails_once(rt.alloc()));
}

/// Whether calls are refused for which a rack has no room.
fn refuses_calls(rack: &mut MemRack) -> bool {
    let calls = [
        // behind the room
        Write(0, 3, "ab"),
        Write(0, 0, "abcd"),
        // too many bytes
        Write(1, 0, "ab"),
        Write(1, 0, "e"),
        // listed: the two that were refused have numbers
        Size(0),
        Size(0),
        // too many calls
        Size(0),
    ];
    let refused = fail_at(rack, &calls, &[1, 3, 5, 7]) && holds(rack, &[b"abcd", b"e"]);
    rack.crash(Pick::New);
    refused && starts_anew(rack, Write(1, 1, "fgh"), &[b"abcd", b"efgh"])
}

/// Whether a small rack refuses calls.
fn refuses_on_small(alloc: Global) -> bool {
    let Some(mut rack) = failing(alloc, 4, 4, 5, 5) else {
        return false;
    };
    refuses_calls(&mut rack)
}

#[test]
fn refused_calls(rt: HostRuntime) {
    assert!(rt; refuses_on_small(rt.alloc()));
}

/// A rack with another image on a device.
fn with_image(alloc: Global, device: u8, image: &[u8]) -> Option<MemRack> {
    let mut rack = MemRack::new(alloc, 4, 9, 9, Vec::new(alloc))?;
    if 5 < device || 4 < image.len() {
        return None;
    }
    rack.set_image(device, image);
    Some(rack)
}

/// Whether a device keeps its image, and another what was pending there.
fn keeps_others(alloc: Global) -> bool {
    let Some(mut rack) = with_image(alloc, 3, b"abc") else {
        return false;
    };
    starts_anew(&mut rack, Write(4, 0, "x"), &[b"", b"", b"", b"abc"])
        && leaves(&mut rack, Pick::Old, &[b"", b"", b"", b"abc", b""])
}

#[test]
fn another_image(rt: HostRuntime) {
    assert!(rt; keeps_others(rt.alloc()));
}

/// Whether a device's bytes are handed over to another one, and never more of them.
fn hands(rack: &mut MemRack) -> bool {
    hand_over(rack, 0, 1, b"abc").is_ok()
        && holds(rack, &[b"", b"abc"])
        && leaves(rack, Pick::Old, &[b"", b"abc"])
}

/// Whether a device is handed over on a rack in memory.
fn hands_in_memory(alloc: Global) -> bool {
    let Some(mut rack) = with_image(alloc, 0, b"abc") else {
        return false;
    };
    hands(&mut rack)
}

#[test]
fn hands_over(rt: HostRuntime) {
    assert!(rt; hands_in_memory(rt.alloc()));
}

/// Whether the file of a device is cut and written as it is asked for.
fn writes_file<R: Rack>(rack: &mut R) -> bool {
    let calls = [
        Cut(5, 0),
        Write(5, 2, "abc"),
        Sync(5),
        // it never lengthens
        Cut(5, 9),
        Cut(5, 3),
        // no bytes: inside they change nothing, and past the end there is a gap before them
        Write(5, 2, ""),
        Write(5, 6, ""),
    ];
    fail_at(rack, &calls, &[]) && reads(rack, 5, 0, 6, *b"\0\0a\0\0\0\x09\x09")
}

#[test]
fn files_of_a_folder(rt: HostRuntime) {
    assert!(rt; writes_file(&mut FolderRack::new(&rt)));
    assert!(rt; fs::remove_file(&rt, "goseed.site/5").is_ok());
    assert!(rt; fs::remove_dir(&rt, "goseed.site").is_ok());
}
