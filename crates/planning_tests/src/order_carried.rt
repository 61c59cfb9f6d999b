// A thousand small recipes, shuffled, matched, and sets of their files carried.
ghost use Rattle.std.specs.Prelude.{◌≡◌, ◌<◌, length, IfSome};

use crate::order_rows::{recipe_of, rows_of, sorted_of, turned};
use crate::tables::{set_of, table_in};
use load_gen::generate;
use recipe_order::{carried, matches};
use recipe_reader::Recipe;
use seed_model::{PlanSet, Table, migrated, replicated};
use std::alloc::Global;

/// The bytes that a set of a table's files migrates and those that it replicates.
fn sums_in(table: &Table, set: &PlanSet) -> Option<(u64, u64)> {
    if set.files() != table.files() {
        return None;
    }
    Some((migrated(table, set), replicated(table, set)))
}

/// The same of a recipe's files.
fn sums_of(alloc: Global, recipe: &Recipe, set: &PlanSet) -> Option<(u64, u64)> {
    match table_in(alloc, recipe) {
        Some(table) => sums_in(&table, set),
        None => None,
    }
}

/// The set of another recipe that has the names of a set of files, where the two match.
fn carried_over(alloc: Global, from: &Recipe, to: &Recipe, set: &PlanSet) -> Option<PlanSet>
    requires { length set.now ≡ length from.now.files }
    ensures { IfSome result (λ set. length set ≡ length to.now.files) }
{
    match matches(alloc, from, to) {
        Ok(true) => (),
        _ => return None,
    }
    match carried(alloc, from, to, set) {
        Ok(set) => Some(set),
        Err(_) => None,
    }
}

/// Whether two sets of files have the same files.
fn are_same(one: &PlanSet, other: &PlanSet) -> bool {
    if one.files() != other.files() {
        return false;
    }
    (0..one.files()).all(|file| one.contains(file) == other.contains(file))
}

/// Whether a set and what it was carried to have the same sums, and it is the same once that is carried back.
fn comes_back(
    alloc: Global,
    from: &Recipe,
    to: &Recipe,
    set: &PlanSet,
    there: &PlanSet,
) -> Option<bool>
    requires { length there.now ≡ length to.now.files }
{
    if sums_of(alloc, from, set)? != sums_of(alloc, to, there)? {
        return Some(false);
    }
    match carried_over(alloc, to, from, there) {
        Some(back) => Some(are_same(set, &back)),
        None => None,
    }
}

/// Whether a set, carried to another recipe, has the same sums there, and is the same once it is carried back.
fn goes_over(alloc: Global, from: &Recipe, to: &Recipe, set: &PlanSet) -> Option<bool>
    requires { length set.now ≡ length from.now.files }
{
    match carried_over(alloc, from, to, set) {
        Some(there) => comes_back(alloc, from, to, set, &there),
        None => None,
    }
}

/// The same of the set of a mask.
fn is_carried(alloc: Global, from: &Recipe, to: &Recipe, mask: u32) -> Option<bool> {
    match set_of(alloc, from.files(), mask) {
        Some(set) => goes_over(alloc, from, to, &set),
        None => None,
    }
}

/// The recipe that is drawn from a number.
fn drawn(alloc: Global, number: u32) -> Option<Recipe>
    requires { number < 1000 }
{
    match generate(alloc, 64 * number, 1 + number % 8) {
        Ok(recipe) => Some(recipe),
        Err(_) => None,
    }
}

/// The recipe of rows, the last one first.
fn recipe_turned(alloc: Global, rows: &[u8]) -> Option<Recipe> {
    match turned(alloc, rows) {
        Some(rows) => recipe_of(alloc, &rows),
        None => None,
    }
}

/// The recipe of the same rows, the last one first.
fn shuffled(alloc: Global, recipe: &Recipe) -> Option<Recipe> {
    match rows_of(alloc, recipe) {
        Some(rows) => recipe_turned(alloc, &rows),
        None => None,
    }
}

/// Whether the set of a mask is carried to the recipe shuffled, and from there to it sorted.
fn is_carried_twice(alloc: Global, recipe: &Recipe, shuffled: &Recipe, mask: u32) -> Option<bool> {
    if !is_carried(alloc, recipe, shuffled, mask)? {
        return Some(false);
    }
    match sorted_of(alloc, recipe) {
        Some(sorted) => is_carried(alloc, shuffled, &sorted, mask),
        None => None,
    }
}

/// The same of a recipe.
fn is_carried_on(alloc: Global, recipe: &Recipe, mask: u32) -> Option<bool> {
    match shuffled(alloc, recipe) {
        Some(shuffled) => is_carried_twice(alloc, recipe, &shuffled, mask),
        None => None,
    }
}

/// The same of the recipe that is drawn from a number.
fn is_carried_at(alloc: Global, number: u32) -> Option<bool>
    requires { number < 1000 }
{
    match drawn(alloc, number) {
        Some(recipe) => is_carried_on(alloc, &recipe, number),
        None => None,
    }
}

#[test]
fn a_thousand_recipes_shuffled(rt: HostRuntime) {
    for number in 0..1000u32 {
        assert!(rt;
            is_carried_at(rt.alloc(), number) == Some(true),
            "drawn from {number}"
        );
    }
}
