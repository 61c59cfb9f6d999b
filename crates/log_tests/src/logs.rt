// Logs on a rack in memory, step by step.
ghost use Rattle.std.specs.Prelude.{◌≤◌, length};

use crate::racks::{failing_rack, frame_of, rack_of};
use chunk_log::{AppendError, Frame, Log, LogError, Place};
use std::alloc::Global;
use volume_disk::{MemRack, Pick};

/// What is done with a rack and the log on it, and what is answered.
#[derive(Clone, Copy)]
enum Step {
    /// Opens the log of a device, which may grow to so many bytes; its end.
    Open(u8, u64, Result<u64, LogError>),
    /// Appends the body `X`; its place.
    Append(Result<u64, AppendError>),
    /// Walks on from a gate.
    Walk(u64, Result<Option<Place>, LogError>),
    /// Reads the byte at a place.
    Read(u64, u8),
    /// Looks at the image of a device.
    Image(u8, &'static [u8]),
    /// Crashes, and leaves what was synced.
    Crash,
}

use Step::{Append, Crash, Image, Open, Read, Walk};

/// What stands between the steps: a rack, the log that was opened last, and the frame of `X`.
#[derive(Drop)]
struct Bench {
    rack: MemRack,
    log: Option<Log>,
}

/// Opens the log of a device, and answers whether it ends so.
fn opens(bench: &mut Bench, device: u8, limit: u64, want: Result<u64, LogError>) -> bool {
    if 5 < device || 1000 < limit {
        return false;
    }
    match Log::open(&mut bench.rack, device, limit) {
        Ok(log) => {
            let is_wanted = want == Ok(log.end()) && log.device() == device;
            bench.log = Some(log);
            is_wanted
        }
        Err(error) => want == Err(error),
    }
}

/// Whether an append is answered so.
fn appends(bench: &mut Bench, frame: &Frame, want: Result<u64, AppendError>) -> bool
    requires { 1 ≤ length frame.now.body }
{
    match &mut bench.log {
        Some(log) => log.append(&mut bench.rack, frame) == want,
        None => false,
    }
}

/// Whether a walk is answered so.
fn walks(bench: &mut Bench, at: u64, want: Result<Option<Place>, LogError>) -> bool {
    match &bench.log {
        Some(log) if at <= log.end() => log.walk(&mut bench.rack, at) == want,
        _ => false,
    }
}

/// Whether this byte stands at a place.
fn reads(bench: &mut Bench, at: u64, want: u8) -> bool {
    match &bench.log {
        Some(log) if at < log.end() => {
            let mut byte = [0u8; 1];
            log.read_body(&mut bench.rack, at, &mut byte) == Ok(()) && byte == [want]
        }
        _ => false,
    }
}

/// Whether a step is answered so.
fn goes(bench: &mut Bench, frame: &Frame, step: Step) -> bool
    requires { 1 ≤ length frame.now.body }
{
    match step {
        Open(device, limit, want) => opens(bench, device, limit, want),
        Append(want) => appends(bench, frame, want),
        Walk(at, want) => walks(bench, at, want),
        Read(at, want) => reads(bench, at, want),
        Image(device, want) => device <= 5 && bench.rack.image(device) == want,
        Crash => {
            bench.rack.crash(Pick::Old);
            true
        }
    }
}

/// Whether each step on a rack is answered so.
fn all_go(bench: &mut Bench, frame: &Frame, steps: &[Step]) -> bool
    requires { 1 ≤ length frame.now.body }
{
    for step in steps {
        if !goes(bench, frame, *step) {
            return false;
        }
    }
    true
}

/// Whether each step on a rack on which the calls of these numbers fail is answered so.
fn are_steps(alloc: Global, fails: &[u64], steps: &[Step]) -> bool {
    let Ok(fails) = Vec::from_slice(alloc, fails) else {
        return false;
    };
    let Some(rack) = failing_rack(alloc, fails) else {
        return false;
    };
    let Some(frame) = frame_of(alloc, b"X") else {
        return false;
    };
    all_go(&mut Bench { rack, log: None }, &frame, steps)
}

/// A body does not pass the limit.
fn full(device: u8, end: u64) -> AppendError {
    AppendError::DeviceFull {
        device,
        end,
        len: 1,
    }
}

#[test]
fn appends_up_to_the_limit(rt: HostRuntime) {
    let steps = [
        Open(0, 7, Ok(0)),
        Append(Ok(5)),
        Image(0, b"\x01\0\0\0\x01X\0"),
        Append(Err(full(0, 6))),
        // nothing is pending
        Crash,
        Image(0, b"\x01\0\0\0\x01X\0"),
        Open(1, 6, Ok(0)),
        Append(Err(full(1, 0))),
        Image(1, b"\0"),
    ];
    assert!(rt; are_steps(rt.alloc(), &[], &steps));
}

/// The place of a body of one byte behind a gate.
fn place(gate: u64) -> Place {
    let gate = gate.min(100);
    Place {
        at: gate + 5,
        len: 1,
        next: gate + 6,
    }
}

#[test]
fn walks_and_reads(rt: HostRuntime) {
    let steps = [
        Open(2, 100, Ok(0)),
        Append(Ok(5)),
        Append(Ok(11)),
        Open(2, 100, Ok(12)),
        Walk(0, Ok(Some(place(0)))),
        Walk(6, Ok(Some(place(6)))),
        Walk(12, Ok(None)),
        // no gate
        Walk(1, Err(LogError::Damage { device: 2, at: 1 })),
        Read(11, b'X'),
    ];
    assert!(rt; are_steps(rt.alloc(), &[], &steps));
}

#[test]
fn spent_after_a_fault(rt: HostRuntime) {
    let steps = [
        Open(0, 100, Ok(0)),
        Append(Err(AppendError::RackFault)),
        Append(Err(AppendError::Spent)),
        // the failed write of the gate was done
        Open(0, 100, Ok(6)),
    ];
    assert!(rt; are_steps(rt.alloc(), &[7], &steps));
}

/// Where the log of an image ends, or its refusal; none is want of memory.
fn end_of(alloc: Global, image: &[u8]) -> Option<Result<u64, LogError>> {
    let mut rack = rack_of(alloc, image, b"")?;
    match Log::open(&mut rack, 0, 100) {
        Ok(log) => Some(Ok(log.end())),
        Err(error) => Some(Err(error)),
    }
}

#[test]
fn opens_images(rt: HostRuntime) {
    let first = Err(LogError::Damage { device: 0, at: 0 });
    let second = Err(LogError::Damage { device: 0, at: 6 });
    let cases: [(&[u8], Result<u64, LogError>); 6] = [
        (b"\x01", Ok(0)),
        (b"\x01\0\0\0\0", first),
        (b"\x01\0\0\0\x01\x05\0", Ok(6)),
        (b"\x01\0\0\0\x01\x05\x7f", Ok(6)),
        (b"\x01\0\0\0\x01\x05\x01", second),
        (b"\x02\0\0\0\x01\x05\0", Ok(0)),
    ];
    for (image, want) in cases {
        assert!(rt; end_of(rt.alloc(), image) == Some(want));
    }
}

/// Opens a log and appends to it, as far as the calls are done.
fn append_x(rack: &mut MemRack, frame: &Frame) -> Option<()>
    requires { 1 ≤ length frame.now.body }
{
    let mut log = Log::open(rack, 0, 100).ok()?;
    log.append(rack, frame).ok()?;
    Some(())
}

/// Where a log ends that was opened and appended to until a call, and then crashed; none is want of memory or a refusal.
fn end_after(alloc: Global, pick: Pick, stop: u64) -> Option<u64> {
    let frame = frame_of(alloc, b"X")?;
    let mut rack = rack_of(alloc, b"", b"")?;
    rack.stop_at(stop);
    let _ = append_x(&mut rack, &frame);
    rack.crash(pick);
    let log = Log::open(&mut rack, 0, 100).ok()?;
    Some(log.end())
}

/// The picks, and where the log ends after a stop at the gate's write or its sync.
const PICKS: [(Pick, u64); 5] = [
    (Pick::Old, 0),
    (Pick::New, 6),
    (Pick::Junk(1), 6),
    (Pick::Junk(0), 0),
    (Pick::Junk(0x7f), 0),
];

/// Where the log ends after a stop at a call.
fn expected_end(stop: u64, torn: u64) -> u64 {
    match stop {
        // opening, and the body with its sync
        1..=6 => 0,
        7..=8 => torn,
        _ => 6,
    }
}

#[test]
fn stops_at_each_call(rt: HostRuntime) {
    for (pick, torn) in PICKS {
        for stop in 1u64..10 {
            let end = end_after(rt.alloc(), pick, stop);
            assert!(rt;
                end == Some(expected_end(stop, torn)),
                "{pick:?} after {stop}"
            );
        }
    }
}
