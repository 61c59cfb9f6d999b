// The answers at nodes of a recipe of five chunks, and of one at the edge of the limits.
ghost use Rattle.std.specs.Prelude.{◌^◌, ◌≤◌};
ghost use Rattle.seed_model.specs.Nodes.{IsNode};
ghost use Rattle.seed_model.specs.Ranges.{IsRange};

use crate::relaxations::{is_answered, won_and_lost};
use crate::tables::{FIVE, node_named, table_of, table_of_made};
use hull_bound::multipliers_at;
use seed_model::{NoMemory, Node, Range, Table, range_of, write_number};
use std::alloc::Global;

/// Whether the answer at the node of two texts has these words.
fn is_answered_at(
    alloc: Global,
    table: &Table,
    range: &Range,
    texts: (&[u8], &[u8]),
    words: &[u8],
) -> bool
    requires range { IsRange range.now }
{
    match node_named(alloc, table, texts.0, texts.1) {
        Some(node) => is_answered(alloc, table, range, &node, words),
        None => false,
    }
}

/// The same of the recipe of five chunks, from 35 to 45 bytes.
fn is_answered_of_five(alloc: Global, texts: (&[u8], &[u8]), words: &[u8]) -> bool {
    match table_of(alloc, FIVE) {
        Some(table) => is_answered_at(alloc, &table, &range_of(40, 5), texts, words),
        None => false,
    }
}

#[test]
fn answers_at_nodes_of_five_chunks(rt: HostRuntime) {
    let rows: [(&[u8], &[u8], &[u8]); 4] = [
        (
            b"00",
            b"80",
            b"value 25 3 multipliers 26 21 mix 00 60 7 35 ",
        ),
        (
            b"80",
            b"00",
            b"value 135 26 multipliers 21 26 mix 80 e0 27 25 ",
        ),
        (b"e0", b"00", b"high "),
        (b"00", b"c0", b"low "),
    ];
    for (inside, outside, words) in rows {
        assert!(rt; is_answered_of_five(rt.alloc(), (inside, outside), words));
    }
}

/// Whether two texts name a node of a recipe of three files.
fn is_named(alloc: Global, inside: &[u8], outside: &[u8]) -> bool {
    match table_of(alloc, FIVE) {
        Some(table) => node_named(alloc, &table, inside, outside).is_some(),
        None => false,
    }
}

#[test]
fn texts_that_name_no_node(rt: HostRuntime) {
    assert!(rt; is_named(rt.alloc(), b"80", b"00"));
    assert!(rt; !is_named(rt.alloc(), b"80", b"80"));
    assert!(rt; !is_named(rt.alloc(), b"0080", b"00"));
}

/// Adds the row of a file and of a chunk that is named by eight digits.
fn add_row(text: &mut Vec<u8>, file: u8, chunk: u32, size: u32) -> Result<(), NoMemory> {
    text.push(file)?;
    text.push(b',')?;
    write_number(10_000_000 + chunk.min(80_000_000) as u128, text)?;
    text.push(b',')?;
    write_number(size as u128, text)?;
    text.push(b'\n')?;
    Ok(())
}

/// The rows of as many bytes as a recipe may have: two files with one chunk, and the second with many more.
fn most_rows(alloc: Global) -> Option<Vec<u8>> {
    let mut rows = Vec::new(alloc);
    add_row(&mut rows, b'a', 0, 1).ok()?;
    add_row(&mut rows, b'b', 0, 1).ok()?;
    for chunk in 1..262_145u32 {
        add_row(&mut rows, b'b', chunk, 4_294_967_295).ok()?;
    }
    add_row(&mut rows, b'b', 262_145, 262_142).ok()?;
    Some(rows)
}

/// Whether the recipe of the most bytes has this answer at the node that has its first file, at 100 bytes.
fn is_answered_at_most(alloc: Global, words: &[u8]) -> bool {
    match table_of_made(alloc, most_rows(alloc)) {
        Some(table) => {
            table.total() == 1_125_899_906_842_623
                && is_answered_at(alloc, &table, &range_of(100, 0), (b"80", b"00"), words)
        }
        None => false,
    }
}

#[test]
fn answers_at_the_edge_of_the_limits(rt: HostRuntime) {
    let words: &[u8] =
        b"value 1125899906842523 1125899906842623 multipliers 1125899906842622 1125899906842623 mix 80 c0 1125899906842523 100 ";
    assert!(rt; is_answered_at_most(rt.alloc(), words));
}

/// Whether a node wins so much more by the multipliers of a slope than it loses, or loses so much more.
fn wins(
    alloc: Global,
    table: &Table,
    node: &Node,
    slope: (u64, u64),
    gain: u128,
    loss: u128,
) -> bool
    requires node { IsNode table.now.files node.now }
{
    let (p, q) = slope;
    if p > 1 << 50 || q < 1 || q > 1 << 50 {
        return false;
    }
    match multipliers_at(alloc, table, node, p, q) {
        Ok(multipliers) => {
            let (won, lost) = won_and_lost(node, multipliers.gives.list());
            won.saturating_add(loss) == lost.saturating_add(gain)
        }
        Err(_) => false,
    }
}

/// The same at the node of two texts.
fn wins_at(
    alloc: Global,
    table: &Table,
    texts: (&[u8], &[u8]),
    slope: (u64, u64),
    gain: u128,
    loss: u128,
) -> bool {
    match node_named(alloc, table, texts.0, texts.1) {
        Some(node) => wins(alloc, table, &node, slope, gain, loss),
        None => false,
    }
}

/// The same of the recipe of five chunks.
fn wins_of_five(
    alloc: Global,
    texts: (&[u8], &[u8]),
    slope: (u64, u64),
    gain: u128,
    loss: u128,
) -> bool {
    match table_of(alloc, FIVE) {
        Some(table) => wins_at(alloc, &table, texts, slope, gain, loss),
        None => false,
    }
}

#[test]
fn multipliers_at_any_slope_and_node(rt: HostRuntime) {
    let rows: [(&[u8], &[u8], u64, u64, u128, u128); 6] = [
        (b"00", b"80", 26, 21, 0, 0),
        (b"80", b"00", 21, 26, 360, 0),
        (b"e0", b"00", 1, 1, 0, 0),
        (b"e0", b"00", 1, 2, 72, 0),
        (b"00", b"c0", 5, 1, 0, 13),
        (b"00", b"00", 0, 1, 0, 0),
    ];
    for (inside, outside, p, q, gain, loss) in rows {
        assert!(rt; wins_of_five(rt.alloc(), (inside, outside), (p, q), gain, loss));
    }
}
