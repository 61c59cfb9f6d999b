// Shelves and sinks in memory, over the files of the machine and over standard output.
use seed_io::{
    FolderShelf, MemShelf, MemSink, ReadError, Shelf, ShelfError, Sink, SinkError, StdSink,
    SureShelf, SureSink, read_all,
};
use std::alloc::Global;
use std::fs;

/// Whether the whole bytes of a name, up to nine, are these; or whether reading them ends with this error.
fn whole<F: Shelf>(
    alloc: Global,
    shelf: &mut F,
    name: &str,
    want: Result<&[u8], ReadError>,
) -> bool {
    match (read_all(alloc, shelf, name, 9), want) {
        (Ok(found), Ok(want)) => found.as_slice() == want,
        (Err(found), Err(want)) => found == want,
        _ => false,
    }
}

/// Whether a read of up to three bytes from a place on gives these.
fn reads<F: Shelf>(shelf: &mut F, name: &str, at: u64, want: &[u8]) -> bool {
    let mut part = [0u8; 3];
    match shelf.read_at(name, at, &mut part) {
        Ok(count) => &part[..count] == want,
        Err(_) => false,
    }
}

/// Puts a name with these bytes on a shelf.
fn holds(shelf: &mut SureShelf, name: &str, bytes: &[u8]) -> bool {
    shelf.set(name, bytes).is_ok()
}

/// Whether a shelf's names are read up to nine bytes.
fn reads_nine(alloc: Global, shelf: &mut SureShelf) -> bool {
    holds(shelf, "nine", b"abcdefghi")
        && holds(shelf, "ten", b"abcdefghij")
        && whole(alloc, shelf, "nine", Ok(b"abcdefghi"))
        && whole(alloc, shelf, "ten", Err(ReadError::TooLong))
        && whole(alloc, shelf, "none", Err(ReadError::NotThere))
}

#[test]
fn reads_up_to_a_limit(rt: HostRuntime) {
    assert!(rt; reads_nine(rt.alloc(), &mut SureShelf::new(rt.alloc())));
}

/// Whether bytes are put behind those of a name, or why not.
fn appends<F: Shelf>(
    shelf: &mut F,
    name: &str,
    bytes: &[u8],
    want: Result<(), ShelfError>,
) -> bool {
    shelf.append(name, bytes) == want
}

/// Whether a name is made anew, without bytes.
fn creates<F: Shelf>(shelf: &mut F, name: &str) -> bool {
    shelf.create(name).is_ok()
}

/// Whether the second and the third call of a shelf fail and do nothing.
fn fails_twice(alloc: Global, shelf: &mut MemShelf) -> bool {
    creates(shelf, "a")
        && appends(shelf, "a", b"x", Err(ShelfError::Fault))
        && whole(alloc, shelf, "a", Err(ReadError::Fault))
        && appends(shelf, "a", b"yz", Ok(()))
        && shelf.bytes("a") == Some(b"yz".as_slice())
        && shelf.bytes("b").is_none()
}

/// Whether listed calls of a shelf fail and do nothing.
fn fails_as_listed(alloc: Global) -> bool {
    let Ok(listed) = Vec::from_slice(alloc, &[2u64, 3]) else {
        return false;
    };
    fails_twice(alloc, &mut MemShelf::new(alloc, listed))
}

#[test]
fn listed_calls_of_a_shelf_fail_and_do_nothing(rt: HostRuntime) {
    assert!(rt; fails_as_listed(rt.alloc()));
}

/// Whether a sink takes bytes, or why not.
fn takes<S: Sink>(sink: &mut S, bytes: &[u8], want: Result<(), SinkError>) -> bool {
    sink.push(bytes) == want
}

/// Whether the first call of a sink fails and does nothing.
fn fails_once(alloc: Global) -> bool {
    let Ok(listed) = Vec::from_slice(alloc, &[1u64]) else {
        return false;
    };
    let mut sink = MemSink::new(alloc, listed);
    takes(&mut sink, b"x", Err(SinkError::Fault))
        && takes(&mut sink, b"yz", Ok(()))
        && sink.taken() == b"yz".as_slice()
}

/// Whether a sink that never fails takes bytes behind bytes.
fn takes_all(sink: &mut SureSink) -> bool {
    takes(sink, b"ab", Ok(())) && takes(sink, b"c", Ok(())) && sink.taken() == b"abc".as_slice()
}

#[test]
fn listed_calls_of_a_sink_fail_and_do_nothing(rt: HostRuntime) {
    assert!(rt; fails_once(rt.alloc()));
    assert!(rt; takes_all(&mut SureSink::new(rt.alloc())));
}

/// Whether each of these reads of up to three bytes from a place on gives these.
fn reads_each<F: Shelf>(shelf: &mut F, name: &str, parts: &[(u64, &[u8])]) -> bool {
    for (at, want) in parts {
        if !reads(shelf, name, *at, want) {
            return false;
        }
    }
    true
}

/// Whether a file holds what is put into it, from any place on, and nothing once it is made anew.
fn holds_what_is_put<F: Shelf>(alloc: Global, shelf: &mut F, name: &str) -> bool {
    let parts: [(u64, &[u8]); 4] = [(3, b"de"), (0, b"abc"), (2, b"cde"), (1, b"bcd")];
    creates(shelf, name)
        && appends(shelf, name, b"abc", Ok(()))
        && appends(shelf, name, b"de", Ok(()))
        && whole(alloc, shelf, name, Ok(b"abcde"))
        && reads_each(shelf, name, &parts)
        && creates(shelf, name)
        && whole(alloc, shelf, name, Ok(b""))
}

#[test]
fn files_hold_what_is_put_into_them(rt: HostRuntime) {
    let name = "goseed.held.tmp";
    assert!(rt; holds_what_is_put(rt.alloc(), &mut FolderShelf::new(&rt), name));
    assert!(rt; fs::remove_file(&rt, name).is_ok());
    let lacking = Err(ReadError::NotThere);
    assert!(rt; whole(rt.alloc(), &mut FolderShelf::new(&rt), name, lacking));
}

#[test]
fn what_is_no_name_of_a_file_is_a_fault(rt: HostRuntime) {
    let mut shelf = FolderShelf::new(&rt);
    let mut part = [0u8; 2];
    for name in ["", "/", "a\0b"] {
        let read = shelf.read_at(name, 0, &mut part).err();
        let put = shelf.append(name, b"a").err();
        assert!(rt; read == Some(ShelfError::Fault) && put == Some(ShelfError::Fault));
    }
}

/// Reads that go on in the file that they began in, to its end, and then in the one that has the name now, where one begins
/// anew or at another place.
const PARTS: [(u64, &[u8]); 5] = [(3, b" ol"), (6, b"d"), (7, b""), (0, b"NEW"), (5, b"EW")];

/// Whether reads go on so, of a name whose file is another one from the first read on; so does one behind a write.
fn goes_on<F: Shelf>(rt: &HostRuntime, shelf: &mut F, name: &str, other: &str) -> bool {
    reads(shelf, name, 0, b"old")
        && fs::rename(rt, other, name).is_ok()
        && reads_each(shelf, name, &PARTS)
        && appends(shelf, name, b"er", Ok(()))
        && reads(shelf, name, 7, b"er")
}

#[test]
fn a_reading_goes_on_in_the_file_that_it_began_in(rt: HostRuntime) {
    let (name, other) = ("goseed.kept.tmp", "goseed.new.tmp");
    assert!(rt; fs::write(&rt, name, b"old old").is_ok());
    assert!(rt; fs::write(&rt, other, b"NEW NEW").is_ok());
    assert!(rt; goes_on(&rt, &mut FolderShelf::new(&rt), name, other));
    assert!(rt; fs::remove_file(&rt, name).is_ok());
}

#[test]
fn standard_output_takes_bytes(rt: HostRuntime) {
    let mut sink = StdSink::new(&rt);
    let line = takes(&mut sink, b"a line of a test\n", Ok(()));
    assert!(rt; line && takes(&mut sink, b"", Ok(())));
}
