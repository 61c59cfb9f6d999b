// Recipes of rows, and rows turned round.
use crate::tables::FIVE;
use recipe_order::{matches, sorted};
use recipe_reader::{Recipe, read_recipe, write_recipe};
use std::alloc::Global;

/// The recipe of some rows.
pub(crate) fn recipe_of(alloc: Global, rows: &[u8]) -> Option<Recipe> {
    match read_recipe(alloc, rows) {
        Ok(recipe) => Some(recipe),
        Err(_) => None,
    }
}

/// The rows of a recipe.
pub(crate) fn rows_of(alloc: Global, recipe: &Recipe) -> Option<Vec<u8>> {
    match write_recipe(alloc, recipe) {
        Ok(rows) => Some(rows),
        Err(_) => None,
    }
}

/// The recipe sorted.
pub(crate) fn sorted_of(alloc: Global, recipe: &Recipe) -> Option<Recipe> {
    match sorted(alloc, recipe) {
        Ok(sorted) => Some(sorted),
        Err(_) => None,
    }
}

/// The same rows, the last one first.
pub(crate) fn turned(alloc: Global, rows: &[u8]) -> Option<Vec<u8>> {
    let mut out = Vec::new(alloc);
    for row in rows.split(|byte| *byte == b'\n').rev() {
        if !row.is_empty() {
            put_row(&mut out, row)?;
        }
    }
    Some(out)
}

/// Puts a row last.
fn put_row(out: &mut Vec<u8>, row: &[u8]) -> Option<()> {
    let Ok(()) = out.extend_from_slice(row) else {
        return None;
    };
    match out.push(b'\n') {
        Ok(()) => Some(()),
        Err(_) => None,
    }
}

/// Whether a recipe and that of a text are one but for their order; `None` where that is no recipe.
fn is_like(alloc: Global, recipe: &Recipe, other: &[u8]) -> Option<bool> {
    match recipe_of(alloc, other) {
        Some(other) => matches(alloc, recipe, &other).ok(),
        None => None,
    }
}

/// Whether the recipes of two texts are one but for their order; `None` where one is no recipe.
fn are_alike(alloc: Global, one: &[u8], other: &[u8]) -> Option<bool> {
    match recipe_of(alloc, one) {
        Some(recipe) => is_like(alloc, &recipe, other),
        None => None,
    }
}

/// The same sorted: b shares 17 bytes, a 10 and c 7.
const SORTED: &[u8] = b"b,01,10\nb,03,30\nb,05,7\na,01,10\na,02,20\nc,04,5\nc,05,7\n";

/// Whether the recipe of these rows, sorted, is written as others.
fn is_sorted_as(alloc: Global, rows: &[u8], wanted: &[u8]) -> bool {
    match sorted_rows(alloc, rows) {
        Some(rows) => rows.as_slice() == wanted,
        None => false,
    }
}

/// The rows of a recipe, sorted.
fn rows_sorted(alloc: Global, recipe: &Recipe) -> Option<Vec<u8>> {
    match sorted_of(alloc, recipe) {
        Some(sorted) => rows_of(alloc, &sorted),
        None => None,
    }
}

/// The rows of the recipe of some rows, sorted.
fn sorted_rows(alloc: Global, rows: &[u8]) -> Option<Vec<u8>> {
    match recipe_of(alloc, rows) {
        Some(recipe) => rows_sorted(alloc, &recipe),
        None => None,
    }
}

/// Whether the rows of the example are matched with the same in the other order.
fn matches_turned(alloc: Global) -> bool {
    match turned(alloc, FIVE) {
        Some(rows) => are_alike(alloc, FIVE, rows.as_slice()) == Some(true),
        None => false,
    }
}

#[test]
fn files_fall_by_shared_bytes(rt: HostRuntime) {
    assert!(rt; is_sorted_as(rt.alloc(), FIVE, SORTED));
}

#[test]
fn bytes_of_its_own_do_not_count(rt: HostRuntime) {
    assert!(rt;
        is_sorted_as(
            rt.alloc(),
            b"a,01,900\nb,02,1\nc,02,1\n",
            b"b,02,1\nc,02,1\na,01,900\n"
        )
    );
}

#[test]
fn equal_files_keep_their_order(rt: HostRuntime) {
    assert!(rt;
        is_sorted_as(
            rt.alloc(),
            b"z,,0\ny,01,5\nx,01,5\nw,,0\n",
            b"y,01,5\nx,01,5\nz,,0\nw,,0\n"
        )
    );
}

#[test]
fn rows_in_another_order_match(rt: HostRuntime) {
    assert!(rt; matches_turned(rt.alloc()));
}

#[test]
fn names_sizes_and_pairs_must_match(rt: HostRuntime) {
    let others: [&[u8]; 6] = [
        b"a,01,11\na,02,20\nb,01,11\nb,03,30\nb,05,7\nc,04,5\nc,05,7\n",
        b"a,01,10\na,02,20\nb,01,10\nb,03,30\nb,05,7\nd,04,5\nd,05,7\n",
        b"a,01,10\na,02,20\nb,01,10\nb,03,30\nb,05,7\nc,06,5\nc,05,7\n",
        b"a,01,10\na,02,20\nb,01,10\nb,03,30\nb,05,7\nc,04,5\nc,03,30\n",
        b"a,01,10\na,02,20\nb,01,10\nb,03,30\nb,05,7\nc,04,5\n",
        b"a,01,10\na,02,20\nb,01,10\nb,03,30\nb,05,7\nc,04,5\nc,05,7\nd,,0\n",
    ];
    for other in others {
        assert!(rt; are_alike(rt.alloc(), FIVE, other) == Some(false));
        assert!(rt; are_alike(rt.alloc(), other, FIVE) == Some(false));
    }
}
