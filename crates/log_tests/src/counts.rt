// How many calls of the rack each call of a log makes.
ghost use Rattle.std.specs.Prelude.{◌≤◌, length};

use crate::racks::{OLD, frame_of, rack_of};
use chunk_log::{Frame, HalfWriter, Log, in_force, open_place, retire, switch_halves};
use std::alloc::Global;
use volume_disk::MemRack;

/// A call of a log, or of the halves of a place.
#[derive(Clone, Copy)]
enum Call {
    OpenBlank,
    Open,
    Append,
    Walk,
    ReadBody,
    InForce,
    OpenPlace,
    RetireBlank,
    Retire,
    StartOnBlank,
    Start,
    Add,
    Finish,
    Switch,
}

/// The calls, how many calls of the rack opening a log or beginning a half made before, and how many each of them makes.
const CALLS: [(Call, u8, u8); 14] = [
    // a sync, the size, a write and a sync
    (Call::OpenBlank, 0, 4),
    // a sync, the size, and both gates
    (Call::Open, 0, 4),
    // the frame and the gate, each with its sync
    (Call::Append, 4, 4),
    (Call::Walk, 4, 1),
    (Call::ReadBody, 4, 1),
    // two syncs and two reads
    (Call::InForce, 0, 4),
    (Call::OpenPlace, 0, 8),
    // the size
    (Call::RetireBlank, 0, 1),
    // the size, the gate, a write and a sync, a cut and a sync
    (Call::Retire, 0, 6),
    // as retiring, and then a write and a sync
    (Call::StartOnBlank, 0, 3),
    (Call::Start, 0, 8),
    (Call::Add, 3, 1),
    // the last gate and the first one, each with its sync
    (Call::Finish, 4, 4),
    // as finishing, and then as retiring
    (Call::Switch, 4, 10),
];

/// A call on the log on the first device.
fn run_on_log(rack: &mut MemRack, call: Call, frame: &Frame) -> Option<()>
    requires { 1 ≤ length frame.now.body }
{
    let mut log = Log::open(rack, 0, 100).ok()?;
    match call {
        Call::Append => {
            log.append(rack, frame).ok()?;
        }
        Call::Walk => {
            log.walk(rack, 0).ok()?;
        }
        Call::ReadBody if 6 <= log.end() => {
            let mut byte = [0u8; 1];
            log.read_body(rack, 5, &mut byte).ok()?;
        }
        _ => {}
    }
    Some(())
}

/// A call on a half that is begun on a blank device.
fn run_on_half(rack: &mut MemRack, call: Call, frame: &Frame) -> Option<()>
    requires { 1 ≤ length frame.now.body }
{
    let mut writer = HalfWriter::start(rack, 3, 100).ok()?;
    match call {
        Call::Add => writer.add(rack, frame).ok()?,
        Call::Finish => {
            writer.add(rack, frame).ok()?;
            writer.finish(rack).ok()?;
        }
        Call::Switch => {
            writer.add(rack, frame).ok()?;
            switch_halves(rack, writer, 0).ok()?;
        }
        _ => {}
    }
    Some(())
}

/// Any of the calls, where it is done.
fn run(rack: &mut MemRack, call: Call, frame: &Frame) -> Option<()>
    requires { 1 ≤ length frame.now.body }
{
    match call {
        Call::Open | Call::Append | Call::Walk | Call::ReadBody => {
            run_on_log(rack, call, frame)?;
        }
        Call::StartOnBlank | Call::Add | Call::Finish | Call::Switch => run_on_half(
            rack, call, frame,
        )?,
        Call::OpenBlank => {
            Log::open(rack, 1, 100).ok()?;
        }
        Call::InForce => {
            in_force(rack, 0).ok()?;
        }
        Call::OpenPlace => {
            open_place(rack, 0, 100).ok()?;
        }
        Call::RetireBlank => retire(rack, 3).ok()?,
        Call::Retire => retire(rack, 0).ok()?,
        Call::Start => {
            HalfWriter::start(rack, 0, 100).ok()?;
        }
    }
    Some(())
}

/// Whether a call is done on a rack with a log on its first device, all of whose calls from this one on fail; none is want
/// of memory.
fn is_done(alloc: Global, call: Call, stop: u64) -> Option<bool> {
    let frame = frame_of(alloc, b"X")?;
    let mut rack = rack_of(alloc, OLD, b"")?;
    rack.stop_at(stop);
    Some(run(&mut rack, call, &frame).is_some())
}

#[test]
fn counts_of_calls(rt: HostRuntime) {
    for (call, before, count) in CALLS {
        let last = u64::from(before) + u64::from(count);
        let stopped = is_done(rt.alloc(), call, last) == Some(false);
        let done = is_done(rt.alloc(), call, last + 1) == Some(true);
        assert!(rt; stopped && done, "makes {last} calls");
    }
}
