// A thousand tables of at most five files: searched from no file decided, against the best of all sets, and from pins,
// against the best of all admitted sets. Each also with few branchings.
ghost use Rattle.std.specs.Prelude.{◌≡◌, ◌≤◌, length, IfSome};
ghost use Rattle.seed_model.specs.Nodes.{IsNode};
ghost use Rattle.seed_model.specs.Ranges.{IsRange};
ghost use Rattle.branch_bound.specs.Pinned.{pinned_node};

use crate::searches::judged;
use crate::tables::{bit, draw, node_at, set_of, table_of};
use bound_cert::{Answer, Document, NodeLine};
use seed_model::{
    Node, PlanSet, Range, Table, are_apart, in_range, is_within, range_of, replicated, try_all,
};
use std::alloc::{AllocError, Global};

/// Puts a text that was made behind another.
fn put(out: &mut String, text: Result<String, AllocError>) -> Option<()> {
    match text {
        Ok(text) => out.push_str(text.as_str()).ok(),
        Err(_) => None,
    }
}

/// Puts the rows of the users of a chunk, which are a mask of files.
fn put_users(alloc: Global, chunk: u32, size: u32, users: u32, out: &mut String) -> Option<()> {
    for file in 0..5u32 {
        if users & bit(file) != 0 {
            put(out, format!(in alloc; "f{file},0{chunk},{size}\n"))?;
        }
    }
    Some(())
}

/// The rows of so many files, at most five, and six chunks.
fn drawn_rows(alloc: Global, files: u32, state: &mut u64) -> Option<String> {
    let mut text = String::new(alloc);
    for file in 0..files {
        put(&mut text, format!(in alloc; "f{file},,0\n"))?;
    }
    for chunk in 0..6u32 {
        let size = draw(state, 30);
        let users = draw(state, 32) & bit(files).wrapping_sub(1);
        put_users(alloc, chunk, size, users, &mut text)?;
    }
    Some(text)
}

/// The table of rows that are drawn.
fn drawn_table(alloc: Global, state: &mut u64) -> Option<Table> {
    let files = 1 + draw(state, 5);
    match drawn_rows(alloc, files, state) {
        Some(rows) => table_of(alloc, rows.as_bytes()),
        None => None,
    }
}

/// What a set replicates, where it is admitted.
fn admitted(table: &Table, range: &Range, pins: &Node, set: &PlanSet) -> Option<u64>
    requires range { IsRange range.now }
    requires pins { IsNode table.now.files pins.now }
    requires set { length set.now ≡ table.now.files }
{
    let is_admitted = is_within(&pins.inside, set)
        && are_apart(set, &pins.outside)
        && in_range(table, set, range);
    if is_admitted {
        Some(replicated(table, set))
    } else {
        None
    }
}

/// The smaller of two numbers, where they are there.
fn least_of(one: Option<u64>, other: Option<u64>) -> Option<u64> {
    match (one, other) {
        (Some(one), Some(other)) => Some(one.min(other)),
        _ => one.or(other),
    }
}

/// The least that an admitted set replicates, of at most five files; none is want of memory.
fn least_admitted(alloc: Global, table: &Table, range: &Range, pins: &Node) -> Option<Option<u64>>
    requires range { IsRange range.now }
    requires pins { IsNode table.now.files pins.now }
{
    let mut least = None;
    for mask in 0..32u32 {
        let set = set_of(alloc, table.files(), mask)?;
        least = least_of(least, admitted(table, range, pins, &set));
    }
    Some(least)
}

/// The least that a set in range replicates; none is want of memory.
fn least_of_all(alloc: Global, table: &Table, range: &Range) -> Option<Option<u64>>
    requires range { IsRange range.now }
    requires files { table.now.files ≤ 5 }
{
    match try_all(alloc, table, range) {
        Ok(Some(set)) => Some(Some(replicated(table, &set))),
        Ok(None) => Some(None),
        Err(_) => None,
    }
}

/// How many branchings a certificate has.
fn branchings_of(document: &Document) -> usize {
    let lines = document.nodes.list().iter();
    lines
        .filter(|line| matches!(line, NodeLine::Branch { .. }))
        .count()
}

/// Whether a certificate is open, where it is what the least of all admitted plans allows of a search with so many
/// branchings.
fn told(document: &Document, nodes: u32, least: Option<u64>) -> Option<bool> {
    let made = branchings_of(document);
    let heading = &document.heading;
    let planned = match &heading.plan {
        Some(plan) => Some(plan.replicated),
        None => None,
    };
    let is_open = heading.answer == Answer::Open;
    let is_told = if is_open {
        let bound = heading.bound.unwrap_or(u64::MAX);
        made == nodes as usize
            && bound <= least.unwrap_or(bound)
            && bound < planned.unwrap_or(u64::MAX)
    } else {
        planned == least && heading.bound == least && made <= nodes as usize
    };
    if is_told { Some(is_open) } else { None }
}

/// Whether a search with so many branchings is left open, where it ends as the least of all admitted plans allows.
fn agrees(
    alloc: Global,
    table: &Table,
    range: &Range,
    pins: Option<&Node>,
    nodes: u32,
    least: Option<u64>,
) -> Option<bool>
    requires range { IsRange range.now }
    requires pins { IfSome (pinned_node pins) (IsNode table.now.files) }
    requires budget { nodes ≤ 65535 }
{
    match judged(alloc, table, range, pins, nodes) {
        Some(document) => told(&document, nodes, least),
        None => None,
    }
}

/// Searches with enough branchings, and with few. Whether few left it open.
fn agrees_twice(
    alloc: Global,
    table: &Table,
    range: &Range,
    pins: Option<&Node>,
    few: u32,
    least: Option<u64>,
) -> Option<bool>
    requires range { IsRange range.now }
    requires pins { IfSome (pinned_node pins) (IsNode table.now.files) }
    requires few { few ≤ 31 }
{
    if agrees(alloc, table, range, pins, 31, least)? {
        return None;
    }
    agrees(alloc, table, range, pins, few, least)
}

/// Searches a table from no file decided, and from pins. How many of the searches few branchings left open.
fn searches(alloc: Global, table: &Table, range: &Range, pins: &Node, few: u32) -> Option<u32>
    requires range { IsRange range.now }
    requires pins { IsNode table.now.files pins.now }
    requires files { table.now.files ≤ 5 }
    requires few { few ≤ 31 }
{
    let least = least_of_all(alloc, table, range)?;
    let open = agrees_twice(alloc, table, range, None, few, least)?;
    let least = least_admitted(alloc, table, range, pins)?;
    let pinned = agrees_twice(alloc, table, range, Some(pins), few, least)?;
    Some(open as u32 + pinned as u32)
}

/// Searches a table with a range and pins that are drawn.
fn drawn_searches(alloc: Global, table: &Table, state: &mut u64) -> Option<u32>
    requires files { table.now.files ≤ 5 }
{
    let most = table.total().min(1000) as u32;
    let target = draw(state, most + 1) as u64;
    let range = range_of(target, draw(state, 3) as u64);
    let inside = draw(state, 32) & draw(state, 32);
    let outside = draw(state, 32) & draw(state, 32);
    let few = draw(state, 4);
    match node_at(alloc, table, inside, outside & !inside) {
        Some(pins) => searches(alloc, table, &range, &pins, few),
        None => None,
    }
}

/// Draws a table and searches it.
fn searched(alloc: Global, state: &mut u64) -> Option<u32> {
    match drawn_table(alloc, state) {
        Some(table) if table.files() <= 5 => drawn_searches(alloc, &table, state),
        _ => None,
    }
}

#[test]
fn a_thousand_small_tables(rt: HostRuntime) {
    let mut state: u64 = 20260401;
    let mut open: u32 = 0;
    for round in 0..1000u32 {
        let more = searched(rt.alloc(), &mut state);
        assert!(rt; more.is_some(), "round {round}");
        open = open.saturating_add(more.unwrap_or(0));
    }
    assert!(rt; open > 100);
}
