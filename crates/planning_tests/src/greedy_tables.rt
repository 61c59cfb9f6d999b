// A thousand choices on tables of at most eight files, beside the same computed plainly.
ghost use Rattle.std.specs.Prelude.{◌<◌};
ghost use Rattle.seed_model.specs.Nodes.{IsNode};
ghost use Rattle.seed_model.specs.Ranges.{IsRange};

use crate::plain_greedy::{Plain, choose_plainly};
use crate::tables::{bit, node_at, table_in};
use greedy_seed::{Tried, greedy};
use load_gen::generate;
use seed_model::{Node, PlanSet, Range, Table, range_of};
use std::alloc::Global;

/// The mask of a set.
fn mask_of(set: &PlanSet) -> u32 {
    let mut mask: u32 = 0;
    for file in 0..set.files() {
        if set.contains(file) {
            mask |= bit(file);
        }
    }
    mask
}

/// A range by a number, about so many tenths of the bytes of a table.
fn range_at(table: &Table, number: u32) -> Range
    ensures { IsRange result }
{
    let total = table.total();
    let tenths = u64::from(number / 8 % 10);
    let target = total.wrapping_mul(tenths) / 10;
    range_of(target % 1_000_000, total / 10 % 1_000_000)
}

/// Whether a choice is the one that was computed plainly.
fn is_same(tried: &Tried, plain: &Plain) -> bool {
    let same = match &tried.set {
        Some(set) => plain.found && mask_of(set) == plain.mask,
        None => !plain.found,
    };
    same && tried.turns == plain.turns && tried.rounds == plain.rounds
}

/// How many rounds the choice for a range and pins takes, where it is the one that is computed plainly.
fn compared(alloc: Global, table: &Table, range: &Range, pins: &Node) -> Option<u32>
    requires range { IsRange range.now }
    requires pins { IsNode table.now.files pins.now }
{
    let plain = choose_plainly(table, range, mask_of(&pins.inside), mask_of(&pins.outside));
    match greedy(alloc, table, range, pins) {
        Ok(tried) if is_same(&tried, &plain) => Some(tried.rounds),
        _ => None,
    }
}

/// The same for the range and the pins of the first three files that a number tells.
fn compared_at(alloc: Global, table: &Table, number: u32) -> Option<u32> {
    let range = range_at(table, number);
    let go = number % 3;
    match node_at(alloc, table, go, number % 5 & !go) {
        Some(pins) => compared(alloc, table, &range, &pins),
        None => None,
    }
}

/// The table of a recipe that is drawn from a number.
fn drawn_table(alloc: Global, number: u32) -> Option<Table>
    requires { number < 1000 }
{
    match generate(alloc, 64 * number, 1 + number % 8) {
        Ok(recipe) => table_in(alloc, &recipe),
        Err(_) => None,
    }
}

/// The same for the table that a number tells.
fn chosen(alloc: Global, number: u32) -> Option<u32>
    requires { number < 1000 }
{
    match drawn_table(alloc, number) {
        Some(table) => compared_at(alloc, &table, number),
        None => None,
    }
}

#[test]
fn a_thousand_small_tables(rt: HostRuntime) {
    let mut flips: u32 = 0;
    for number in 0..1000u32 {
        let rounds = chosen(rt.alloc(), number);
        assert!(rt; rounds.is_some(), "drawn from {number}");
        flips = flips.wrapping_add(rounds.unwrap_or(0));
    }
    assert!(rt; flips > 20);
}
