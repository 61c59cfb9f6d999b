// A Begin with as many names as there may be.
use crate::calls::phase_number;
use move_journal::{Journal, JournalError};
use std::alloc::Global;
use volume_disk::MemRack;

/// How many bytes the device has room for.
const ROOM: usize = 100_000;

/// A letter from `a` to `z`.
fn letter(number: u32) -> u8 {
    b'a' + (number % 26) as u8
}

/// Puts four letters behind their length: others for each number below 456,976.
fn put_name(body: &mut Vec<u8>, number: u32) -> Option<()> {
    let name = [
        4,
        letter(number),
        letter(number / 26),
        letter(number / 676),
        letter(number / 17_576),
    ];
    body.extend_from_slice(&name).ok()
}

/// A Begin of so many files, and then of the one with this number.
fn begin_of(alloc: Global, count: u32, last: u32) -> Option<Vec<u8>> {
    let mut body = Vec::new(alloc);
    body.push(16).ok()?;
    for number in 0..count {
        put_name(&mut body, number)?;
    }
    put_name(&mut body, last)?;
    Some(body)
}

/// The log of a body.
fn log_of(alloc: Global, body: &[u8]) -> Option<Vec<u8>> {
    if ROOM < body.len() {
        return None;
    }
    let mut log = Vec::new(alloc);
    log.push(1).ok()?;
    log.extend_from_slice(&(body.len() as u32).to_be_bytes())
        .ok()?;
    log.extend_from_slice(body).ok()?;
    log.push(0).ok()?;
    Some(log)
}

/// The phase of the journal with this log, or why it is not opened; none is want of memory.
fn opened(alloc: Global, log: &[u8]) -> Option<Result<u8, JournalError>> {
    let mut rack = MemRack::new(alloc, ROOM, 40, 40, Vec::new(alloc))?;
    if ROOM < log.len() {
        return None;
    }
    rack.set_image(2, log);
    match Journal::open(alloc, &mut rack, 100_000) {
        Ok(journal) => Some(Ok(phase_number(&journal))),
        Err(error) => Some(Err(error)),
    }
}

/// The phase of a journal with the Begin of so many files, and then of the one with this number, or why it is not opened.
fn begun(alloc: Global, count: u32, last: u32) -> Option<Result<u8, JournalError>> {
    let body = begin_of(alloc, count, last)?;
    let log = log_of(alloc, body.as_slice())?;
    opened(alloc, log.as_slice())
}

#[test]
fn tells_names_apart(rt: HostRuntime) {
    let refused = Some(Err(JournalError::Damage { device: 2, at: 0 }));
    // 16,383 names
    assert!(rt; begun(rt.alloc(), 16_382, 16_382) == Some(Ok(1)));
    // the first of them once more, and the last of them
    assert!(rt; begun(rt.alloc(), 16_382, 0) == refused);
    assert!(rt; begun(rt.alloc(), 16_382, 16_381) == refused);
    // one name too many
    assert!(rt; begun(rt.alloc(), 16_383, 16_383) == refused);
}
