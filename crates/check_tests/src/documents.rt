// Worked documents and lines, with the values that stand in the format's description.
use crate::worked::{PINNED, WORKED};
use bound_cert::{DocError, read_document, read_line, write_document};
use std::alloc::Global;
use std::process::Abort;

const EMPTY: &str = "goseed 1\nrange 0 0\nanswer optimal\nplan - 0 0\nbound 0\nbound 1 1 0\nend\n";

/// Whether a document is read from the text, and written as the text.
fn is_read_back(alloc: Global, text: &str) -> bool {
    let Ok(document) = read_document(alloc, text.as_bytes()) else {
        return false;
    };
    match write_document(alloc, &document) {
        Ok(written) => written.as_slice() == text.as_bytes(),
        Err(_) => false,
    }
}

#[test]
fn documents_are_read_back(rt: HostRuntime) {
    for text in [WORKED, PINNED, EMPTY] {
        assert!(rt; is_read_back(rt.alloc(), text), "{text}");
    }
}

/// The number of the first line that breaks the form of documents, from 1; 0 where the text is a document.
fn bad_line(alloc: Global, text: &str) -> Option<u64> {
    match read_document(alloc, text.as_bytes()) {
        Ok(_) => Some(0),
        Err(DocError::Bad { line }) => Some(line),
        Err(DocError::Memory) => None,
    }
}

/// The number of the first line that is bad where other text stands in the worked document in place of some of it.
fn bad_line_with(alloc: Global, old: &str, new: &str) -> Option<u64> {
    match WORKED.replace(alloc, old, new) {
        Ok(text) => bad_line(alloc, text.as_str()),
        Err(_) => None,
    }
}

#[test]
fn the_first_bad_line_of_a_heading_is_named(rt: HostRuntime) {
    for (old, new, line) in [
        ("goseed 1", "goseed 9", 1),
        ("range 35 45", "range 45 35", 2),
        ("range 35 45", "pins 80 00", 2),
        ("42 10", "42  10", 4),
        ("bound 10", "low", 5),
    ] {
        assert_eq!(rt; bad_line_with(rt.alloc(), old, new), Some(line), "{new}");
    }
}

#[test]
fn the_first_bad_line_of_a_tree_is_named(rt: HostRuntime) {
    for (old, new, line) in [
        ("branch 0 00 e0 37 35", "high", 7),
        ("bound 1 1 6", "bound 1 1 5", 15),
        ("bound 1 1 6", "bound 1 1 7", 16),
        ("give 0 0 0 10", "give 0 0 0 010", 10),
        ("give 0 1 10 0", "give 0 0 10 0", 11),
        ("high", "branch 1 80 e0 27 25", 19),
        ("end", "end\nend", 20),
    ] {
        assert_eq!(rt; bad_line_with(rt.alloc(), old, new), Some(line), "{new}");
    }
}

#[test]
fn a_missing_line_is_bad(rt: HostRuntime) {
    for (text, line) in [
        ("", 1),
        ("\n", 1),
        ("goseed 1", 1),
        ("goseed 1\nrange 0 0\n", 3),
        ("goseed 2\nrange 0 0\nanswer open\n", 3),
    ] {
        assert_eq!(rt; bad_line(rt.alloc(), text), Some(line), "{text}");
    }
}

/// Each line of a text is a line of documents, or none is.
fn all_are_lines(rt: &impl Abort, text: &str, want: bool) {
    for line in text.split('\n') {
        assert_eq!(rt; read_line(line.as_bytes()).is_some(), want, "{line}");
    }
}

#[test]
fn numbers_up_to_their_bounds(rt: HostRuntime) {
    let text =
        "range 2251799813685247 2251799813685247\nplan - 1125899906842623 1125899906842623\nbound 1125899906842623\nbranch 16382 - - 2251799813685247 2251799813685247\nbound 1125899906842624 1125899906842624 4194303\ngive 1048574 16382 1267650600228229401496703205375 0";
    all_are_lines(&rt, text, true);
}

#[test]
fn numbers_past_their_bounds(rt: HostRuntime) {
    let text =
        "range 0 2251799813685248\nplan - 1125899906842624 0\nplan - 0 1125899906842624\nbound 1125899906842624\nbranch 16383 - - 0 1\nbranch 0 - - 2251799813685248 1\nbound 1125899906842625 1 0\nbound 0 1125899906842625 0\nbound 0 0 0\nbound 0 1 4194304\ngive 1048575 0 1 0\ngive 0 16383 1 0\ngive 0 0 1267650600228229401496703205376 0\ngive 0 0 0 1267650600228229401496703205376\ngive 0 0 0 0\nbranch 0 E0 00 1 1\nlow\r\nend\0";
    all_are_lines(&rt, text, false);
}
