// Certificates of searches of a recipe of five chunks, and of one without files.
ghost use Rattle.std.specs.Prelude.{◌≤◌, IfSome};
ghost use Rattle.seed_model.specs.Nodes.{IsNode};
ghost use Rattle.seed_model.specs.Ranges.{IsRange};
ghost use Rattle.branch_bound.specs.Pinned.{pinned_node};

use crate::searches::judged;
use crate::tables::{FIVE, node_named, table_of};
use bound_cert::{Document, NodeLine, heading_text, node_text};
use seed_model::{NoMemory, Node, Range, Table, range_of, write_number};
use std::alloc::Global;

/// A target, a slack, a number of branchings, and the lines of the certificate.
const ROWS: [(u32, u32, u16, &[u8]); 8] = [
    (
        40,
        5,
        3,
        b"goseed 1\nrange 35 45\nanswer optimal\nplan 60 42 10\nbound 10\nbranch 0 00 e0 37 35\nbranch 1 00 60 7 35\nlow\nbound 1 1\nbranch 1 80 e0 27 25\nlow\nhigh\n",
    ),
    (
        40,
        5,
        2,
        b"goseed 1\nrange 35 45\nanswer open\nplan 60 42 10\nbound 9\nbranch 0 00 e0 37 35\nbound 26 21\nbranch 1 80 e0 27 25\nlow\nhigh\n",
    ),
    (
        40,
        5,
        0,
        b"goseed 1\nrange 35 45\nanswer open\nplan none\nbound 0\nbound 1 1\n",
    ),
    (
        10,
        2,
        7,
        b"goseed 1\nrange 8 12\nanswer infeasible\nplan none\nbound none\nbranch 0 00 e0 64 8\nbranch 1 00 60 34 8\nlow\nhigh\nhigh\n",
    ),
    (
        3,
        3,
        0,
        b"goseed 1\nrange 0 6\nanswer optimal\nplan 00 0 0\nbound 0\nbound 1 1\n",
    ),
    (
        60,
        0,
        7,
        b"goseed 1\nrange 60 60\nanswer optimal\nplan c0 60 7\nbound 7\nbranch 0 00 e0 12 60\nlow\nbranch 1 80 e0 12 40\nlow\nbound 5 12\n",
    ),
    (
        66,
        6,
        0,
        b"goseed 1\nrange 60 72\nanswer optimal\nplan e0 72 0\nbound 0\nbound 1 1\n",
    ),
    (
        36,
        0,
        7,
        b"goseed 1\nrange 36 36\nanswer infeasible\nplan none\nbound none\nbranch 0 00 e0 36 36\nbranch 1 00 60 6 36\nlow\nbranch 2 40 60 6 6\nlow\nhigh\nbranch 1 80 e0 36 16\nlow\nhigh\n",
    ),
];

/// Adds the line of a node, that of a leaf without its gives and their number.
fn add_line(line: &NodeLine, text: &mut Vec<u8>) -> Result<(), NoMemory> {
    let NodeLine::Leaf(multipliers) = line else {
        return node_text(line, text);
    };
    text.extend_from_slice(b"bound ")?;
    write_number(multipliers.p as u128, text)?;
    text.push(b' ')?;
    write_number(multipliers.q as u128, text)?;
    text.push(b'\n')?;
    Ok(())
}

/// Adds the lines of a certificate.
fn add_lines(document: &Document, text: &mut Vec<u8>) -> Result<(), NoMemory> {
    heading_text(&document.heading, text)?;
    for line in document.nodes.list() {
        add_line(line, text)?;
    }
    Ok(())
}

/// Whether the lines of a certificate are these.
fn has_lines(alloc: Global, document: &Document, words: &[u8]) -> bool {
    let mut text = Vec::new(alloc);
    add_lines(document, &mut text).is_ok() && text.as_slice() == words
}

/// Whether a search with so many branchings ends with a certificate of these lines.
fn ends_with(
    alloc: Global,
    table: &Table,
    range: &Range,
    pins: Option<&Node>,
    nodes: u32,
    words: &[u8],
) -> bool
    requires range { IsRange range.now }
    requires pins { IfSome (pinned_node pins) (IsNode table.now.files) }
    requires budget { nodes ≤ 65535 }
{
    match judged(alloc, table, range, pins, nodes) {
        Some(document) => has_lines(alloc, &document, words),
        None => false,
    }
}

/// Whether a search of some rows ends so.
fn search_ends(alloc: Global, rows: &[u8], range: &Range, nodes: u32, words: &[u8]) -> bool
    requires range { IsRange range.now }
    requires budget { nodes ≤ 65535 }
{
    match table_of(alloc, rows) {
        Some(table) => ends_with(alloc, &table, range, None, nodes, words),
        None => false,
    }
}

#[test]
fn certificates_of_five_chunks(rt: HostRuntime) {
    for (target, slack, nodes, words) in ROWS {
        let range = range_of(target as u64, slack as u64);
        assert!(rt; search_ends(rt.alloc(), FIVE, &range, nodes as u32, words));
    }
}

#[test]
fn certificate_of_no_file(rt: HostRuntime) {
    let words: &[u8] = b"goseed 1\nrange 0 0\nanswer optimal\nplan - 0 0\nbound 0\nbound 1 1\n";
    assert!(rt; search_ends(rt.alloc(), b"", &range_of(0, 0), 0, words));
}

/// Whether a search of a table with the pins of two texts ends so.
fn pinned_ends_with(
    alloc: Global,
    table: &Table,
    range: &Range,
    pins: (&[u8], &[u8]),
    words: &[u8],
) -> bool
    requires range { IsRange range.now }
{
    match node_named(alloc, table, pins.0, pins.1) {
        Some(node) => ends_with(alloc, table, range, Some(&node), 7, words),
        None => false,
    }
}

/// Whether a search of the recipe of five chunks, 5 bytes about a target, with the pins of two texts ends so.
fn pinned_ends(alloc: Global, target: u32, pins: (&[u8], &[u8]), words: &[u8]) -> bool {
    let range = range_of(target as u64, 5);
    match table_of(alloc, FIVE) {
        Some(table) => pinned_ends_with(alloc, &table, &range, pins, words),
        None => false,
    }
}

#[test]
fn certificates_with_pins(rt: HostRuntime) {
    let infeasible: &[u8] =
        b"goseed 2\nrange 35 45\npins 80 00\nanswer infeasible\nplan none\nbound none\nbranch 1 80 e0 27 25\nlow\nhigh\n";
    assert!(rt; pinned_ends(rt.alloc(), 40, (b"80", b"00"), infeasible));
    let optimal: &[u8] =
        b"goseed 2\nrange 20 30\npins 00 20\nanswer optimal\nplan 80 20 10\nbound 10\nbranch 0 00 c0 40 20\nbound 47 30\nbound 37 40\n";
    assert!(rt; pinned_ends(rt.alloc(), 25, (b"00", b"20"), optimal));
}
