// Greedy sets of the worked rows.
ghost use Rattle.seed_model.specs.Nodes.{IsNode};
ghost use Rattle.seed_model.specs.Ranges.{IsRange};

use crate::tables::{FIVE, node_named, table_of};
use greedy_seed::{Tried, greedy};
use seed_model::{NoMemory, Node, Range, Table, range_of, write_number};
use seed_text::write_set;
use std::alloc::Global;

/// Adds the text of a greedy set, or `none`.
fn push_set(alloc: Global, tried: &Tried, text: &mut Vec<u8>) -> Result<(), NoMemory> {
    match &tried.set {
        Some(set) => text.extend_from_slice(write_set(alloc, set)?.as_slice())?,
        None => text.extend_from_slice(b"none")?,
    }
    Ok(())
}

/// Adds a space and a number.
fn push_number(number: u32, text: &mut Vec<u8>) -> Result<(), NoMemory> {
    text.push(b' ')?;
    write_number(u128::from(number), text)?;
    Ok(())
}

/// Adds the text of a greedy set, and behind it the numbers of turns and rounds.
fn push_tried(alloc: Global, tried: &Tried, text: &mut Vec<u8>) -> Result<(), NoMemory> {
    push_set(alloc, tried, text)?;
    push_number(tried.turns, text)?;
    push_number(tried.rounds, text)
}

/// Whether a greedy set is told by these words.
fn has_words(alloc: Global, tried: &Tried, words: &[u8]) -> bool {
    let mut text = Vec::new(alloc);
    push_tried(alloc, tried, &mut text).is_ok() && text.as_slice() == words
}

/// Whether the greedy set for a range and pins is told by these words.
fn is_greedy(alloc: Global, table: &Table, range: &Range, node: &Node, words: &[u8]) -> bool
    requires range { IsRange range.now }
    requires node { IsNode table.now.files node.now }
{
    match greedy(alloc, table, range, node) {
        Ok(tried) => has_words(alloc, &tried, words),
        Err(_) => false,
    }
}

/// Whether the greedy set for a range and the pins of two texts is told by these words.
fn is_pinned(
    alloc: Global,
    table: &Table,
    range: &Range,
    pins: (&[u8], &[u8]),
    words: &[u8],
) -> bool
    requires range { IsRange range.now }
{
    match node_named(alloc, table, pins.0, pins.1) {
        Some(node) => is_greedy(alloc, table, range, &node, words),
        None => false,
    }
}

/// Whether the greedy set of the recipe of five chunks for a target, a slack and pins is told by these words.
fn is_told(alloc: Global, target: u16, slack: u16, pins: (&[u8], &[u8]), words: &[u8]) -> bool {
    let range = range_of(u64::from(target), u64::from(slack));
    match table_of(alloc, FIVE) {
        Some(table) => is_pinned(alloc, &table, &range, pins, words),
        None => false,
    }
}

#[test]
fn two_turns_then_no_better_flip(rt: HostRuntime) {
    assert!(rt; is_told(rt.alloc(), 40, 5, (b"00", b"00"), b"60 2 0"));
}

#[test]
fn a_round_takes_back_what_a_turn_added(rt: HostRuntime) {
    assert!(rt; is_told(rt.alloc(), 25, 5, (b"00", b"00"), b"80 2 1"));
}

#[test]
fn no_set_though_there_is_one(rt: HostRuntime) {
    assert!(rt; is_told(rt.alloc(), 60, 0, (b"00", b"00"), b"none 2 0"));
}

#[test]
fn files_that_are_bound_to_go_migrate_too_much(rt: HostRuntime) {
    assert!(rt; is_told(rt.alloc(), 40, 5, (b"e0", b"00"), b"none 0 0"));
}

#[test]
fn a_file_that_is_bound_to_stay_is_not_added(rt: HostRuntime) {
    assert!(rt; is_told(rt.alloc(), 40, 5, (b"00", b"20"), b"none 1 0"));
}
