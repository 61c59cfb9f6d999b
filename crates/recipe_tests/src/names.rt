// Bytes that name a file, and bytes that name none.
use file_names::{file_name_of, is_file_name};

#[test]
fn bytes_that_name_a_file(rt: HostRuntime) {
    let longest = [b'n'; 255];
    let names: [&[u8]; 8] = [
        b"a",
        longest.as_slice(),
        b" ",
        b"\xC2\xA0",
        b"a\xEF\xBB\xBF",
        b"\xEF\xBF\xBD",
        b"photos/2019/\xC3\xA9t\xC3\xA9.raw",
        b"\xF0\x9F\x8C\xB1",
    ];
    for bytes in names {
        let named = match file_name_of(bytes) {
            Some(name) => name.as_bytes() == bytes,
            None => false,
        };
        assert!(rt; named);
    }
}

#[test]
fn bytes_that_name_no_file(rt: HostRuntime) {
    let too_long = [b'n'; 256];
    let others: [&[u8]; 13] = [
        b"",
        too_long.as_slice(),
        b"\x00",
        b"a\x1F",
        b"a\nb",
        b"\x7F",
        b"a\xC2\x80",
        b"\xC2\x9F",
        b"\xEF\xBB\xBFa",
        b"\xEF\xBB\xBF",
        b"\xFF",
        b"a\xC2",
        b"\xED\xA0\x80",
    ];
    for bytes in others {
        assert!(rt; file_name_of(bytes).is_none());
    }
}

#[test]
fn texts_that_name_a_file(rt: HostRuntime) {
    assert!(rt; is_file_name("a"));
    assert!(rt; is_file_name("\u{A0}\u{FEFF}"));
    assert!(rt; !is_file_name(""));
    assert!(rt; !is_file_name("\u{FEFF}a"));
    assert!(rt; !is_file_name("a\u{9F}"));
}
