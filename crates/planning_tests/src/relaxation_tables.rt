// A thousand tables of at most five files, each at a node, against all members of it.
ghost use Rattle.std.specs.Prelude.{◌≡◌, ◌^◌, ◌<◌, ◌≤◌, length};
ghost use Rattle.seed_model.specs.Nodes.{IsNode};
ghost use Rattle.seed_model.specs.Ranges.{IsRange};

use crate::relaxations::{value_in, won_and_lost};
use crate::tables::{draw, node_at, set_of, table_of, table_of_made};
use hull_bound::{NodeAnswer, multipliers_at, solve_node};
use seed_model::{
    NoMemory, Node, PlanSet, Range, Table, are_apart, is_within, migrated, range_of, replicated,
    write_number,
};
use std::alloc::Global;

/// A mask of five bits, of which few are set.
fn drawn_mask(state: &mut u64) -> u32 {
    draw(state, 32) & draw(state, 32) & draw(state, 32)
}

/// Adds the row of a file, with a chunk or with none.
fn push_row(text: &mut Vec<u8>, file: u32, chunk: Option<u32>, size: u32) -> Result<(), NoMemory> {
    text.push(b'f')?;
    write_number(file as u128, text)?;
    text.push(b',')?;
    if let Some(chunk) = chunk {
        write_number(10 + (chunk % 10) as u128, text)?;
    }
    text.push(b',')?;
    write_number(size as u128, text)?;
    text.push(b'\n')?;
    Ok(())
}

/// The rows of so many files, with up to 24 pairs of files and chunks. Each chunk has one size, some of none.
fn drawn_rows(alloc: Global, files: u32, round: u32, state: &mut u64) -> Option<Vec<u8>>
    requires some { 1 ≤ files }
    requires few { round < 1000 }
{
    let mut text = Vec::new(alloc);
    for file in 0..files {
        push_row(&mut text, file, None, 0).ok()?;
    }
    for _pair in 0..draw(state, 25) {
        let chunk = draw(state, 7);
        let file = draw(state, files);
        push_row(&mut text, file, Some(chunk), (chunk * 5 + round) % 11).ok()?;
    }
    Some(text)
}

/// The bytes that a set migrates and replicates, where it is a member of the node.
fn member_sums(table: &Table, node: &Node, set: &PlanSet) -> Option<(u64, u64)>
    requires inside { length node.now.inside ≡ table.now.files }
    requires outside { length node.now.outside ≡ table.now.files }
    requires set { length set.now ≡ table.now.files }
{
    if is_within(&node.inside, set) && are_apart(set, &node.outside) {
        Some((migrated(table, set), replicated(table, set)))
    } else {
        None
    }
}

/// Adds what a set migrates and replicates, where it is a member of the node and the mask has no other file.
fn push_sums(
    alloc: Global,
    table: &Table,
    node: &Node,
    mask: u32,
    sums: &mut Vec<(u64, u64)>,
) -> Option<()>
    requires inside { length node.now.inside ≡ table.now.files }
    requires outside { length node.now.outside ≡ table.now.files }
{
    let set = set_of(alloc, table.files(), mask)?;
    let is_known = table.files() <= 5 && mask < 1 << table.files();
    match member_sums(table, node, &set) {
        Some(both) if is_known => sums.push(both).ok(),
        _ => Some(()),
    }
}

/// The bytes that each member migrates, and those that it replicates.
fn sums_of(alloc: Global, table: &Table, node: &Node) -> Option<Vec<(u64, u64)>>
    requires inside { length node.now.inside ≡ table.now.files }
    requires outside { length node.now.outside ≡ table.now.files }
{
    let mut sums = Vec::new(alloc);
    for mask in 0..32u32 {
        push_sums(alloc, table, node, mask, &mut sums)?;
    }
    Some(sums)
}

/// The smaller of two fractions, of which the first may be none.
fn smaller(kept: Option<(u128, u128)>, over: u128, under: u128) -> Option<(u128, u128)> {
    match kept {
        Some((least, of)) if least.saturating_mul(under) <= over.saturating_mul(of) => kept,
        _ => Some((over, under)),
    }
}

/// The least that a mix of two members replicates whose mean of migrated bytes is the aim, if one is below and one above.
fn mixed_at(
    kept: Option<(u128, u128)>,
    aim: u64,
    lower: (u64, u64),
    upper: (u64, u64),
) -> Option<(u128, u128)> {
    if lower.0 >= aim || aim >= upper.0 {
        return kept;
    }
    let alpha = (upper.0 - aim) as u128;
    let beta = (aim - lower.0) as u128;
    let over = alpha
        .saturating_mul(lower.1 as u128)
        .saturating_add(beta.saturating_mul(upper.1 as u128));
    smaller(kept, over, alpha.saturating_add(beta))
}

/// The least that a mix replicates: some least mix is a member in range, or aims at an end of the range.
fn least_of(sums: &[(u64, u64)], range: &Range) -> Option<(u128, u128)> {
    let mut kept = None;
    for lower in sums {
        if range.low <= lower.0 && lower.0 <= range.high {
            kept = smaller(kept, lower.1 as u128, 1);
        }
        for upper in sums {
            kept = mixed_at(kept, range.low, *lower, *upper);
            kept = mixed_at(kept, range.high, *lower, *upper);
        }
    }
    kept
}

/// Whether gives bound what each member costs, where each byte touched costs `q` and each migrated one wins `p`, and some
/// member costs no more.
fn is_least_cost(sums: &[(u64, u64)], p: u64, q: u64, won: u128, lost: u128) -> bool {
    let mut all = true;
    let mut some = false;
    for (moved, copied) in sums {
        let touched = (*moved as u128).saturating_add(*copied as u128);
        let earns = won.saturating_add((p as u128).saturating_mul(*moved as u128));
        let costs = lost.saturating_add((q as u128).saturating_mul(touched));
        all &= earns <= costs;
        some |= earns == costs;
    }
    all && some
}

/// Whether the answer is the one that the members have: low where all migrate too little, high where all migrate too much,
/// and else the least of their mixes.
fn is_told(table: &Table, range: &Range, sums: &[(u64, u64)], answer: &NodeAnswer) -> bool {
    let low = sums.iter().all(|sum| sum.0 < range.low);
    let high = sums.iter().all(|sum| range.high < sum.0);
    match answer {
        NodeAnswer::Low => low,
        NodeAnswer::High => high && !low,
        NodeAnswer::Bound(_, mix) => {
            if mix.first.files() != table.files() || mix.second.files() != table.files() {
                return false;
            }
            match (value_in(table, mix), least_of(sums, range)) {
                (Some((over, under)), Some((least, of))) => {
                    least.saturating_mul(under) == over.saturating_mul(of)
                }
                _ => false,
            }
        }
    }
}

/// Whether an answer is the one that the members have, and its multipliers bound what they cost.
fn is_right(
    table: &Table,
    range: &Range,
    node: &Node,
    sums: &[(u64, u64)],
    answer: &NodeAnswer,
) -> bool
    requires { IsNode table.now.files node.now }
{
    let is_bound = match answer {
        NodeAnswer::Bound(multipliers, _) => {
            let (won, lost) = won_and_lost(node, multipliers.gives.list());
            is_least_cost(sums, multipliers.p, multipliers.q, won, lost)
        }
        _ => true,
    };
    is_bound && is_told(table, range, sums, answer)
}

/// Whether the answer at a node has another slope than 1, where it is what the members say.
fn solved(
    alloc: Global,
    table: &Table,
    range: &Range,
    node: &Node,
    sums: &[(u64, u64)],
) -> Option<bool>
    requires range { IsRange range.now }
    requires node { IsNode table.now.files node.now }
{
    let answer = solve_node(alloc, table, range, node).ok()?;
    if !is_right(table, range, node, sums, &answer) {
        return None;
    }
    match &answer {
        NodeAnswer::Bound(multipliers, _) => Some(multipliers.p != multipliers.q),
        _ => Some(false),
    }
}

/// Whether the multipliers of a slope at a node bound what the members cost.
fn is_bounded_at(
    alloc: Global,
    table: &Table,
    node: &Node,
    slope: (u64, u64),
    sums: &[(u64, u64)],
) -> bool
    requires node { IsNode table.now.files node.now }
    requires p { slope.0 ≤ 2 ^ 50 }
    requires some { 1 ≤ slope.1 }
    requires q { slope.1 ≤ 2 ^ 50 }
{
    match multipliers_at(alloc, table, node, slope.0, slope.1) {
        Ok(multipliers) => {
            let (won, lost) = won_and_lost(node, multipliers.gives.list());
            is_least_cost(sums, slope.0, slope.1, won, lost)
        }
        Err(_) => false,
    }
}

/// Whether the answer at a node has another slope than 1, where it and the multipliers of a slope are what the members say.
fn agrees(
    alloc: Global,
    table: &Table,
    range: &Range,
    node: &Node,
    slope: (u64, u64),
) -> Option<bool>
    requires range { IsRange range.now }
    requires node { IsNode table.now.files node.now }
    requires p { slope.0 ≤ 2 ^ 50 }
    requires some { 1 ≤ slope.1 }
    requires q { slope.1 ≤ 2 ^ 50 }
{
    let sums = sums_of(alloc, table, node)?;
    if !is_bounded_at(alloc, table, node, slope, &sums) {
        return None;
    }
    solved(alloc, table, range, node, &sums)
}

/// Draws the table of a round.
fn drawn_table(alloc: Global, round: u32, state: &mut u64) -> Option<Table>
    requires { round < 1000 }
{
    let files = 1 + draw(state, 5);
    table_of_made(alloc, drawn_rows(alloc, files, round, state))
}

/// Draws a range, a slope and a node, every tenth of them with no free file, and answers at it.
fn drawn_answer(alloc: Global, table: &Table, round: u32, state: &mut u64) -> Option<bool> {
    let most = table.total().min(1000) as u32;
    let target = draw(state, most + 1) as u64;
    let range = range_of(target, draw(state, 3) as u64);
    let inside = drawn_mask(state);
    let kept = if round % 10 == 0 {
        31
    } else {
        drawn_mask(state)
    };
    let p = draw(state, 6) as u64;
    let q = 1 + draw(state, 6) as u64;
    match node_at(alloc, table, inside, kept & !inside) {
        Some(node) => agrees(alloc, table, &range, &node, (p, q)),
        None => None,
    }
}

/// Draws a table and answers at a node of it.
fn answered(alloc: Global, round: u32, state: &mut u64) -> Option<bool>
    requires { round < 1000 }
{
    match drawn_table(alloc, round, state) {
        Some(table) => drawn_answer(alloc, &table, round, state),
        None => None,
    }
}

#[test]
fn a_thousand_small_tables(rt: HostRuntime) {
    let mut state: u64 = 20260202;
    let mut sought: u32 = 0;
    for round in 0..1000u32 {
        let is_sought = answered(rt.alloc(), round, &mut state);
        assert!(rt; is_sought.is_some(), "round {round}");
        if is_sought == Some(true) {
            sought = sought.saturating_add(1);
        }
    }
    assert!(rt; sought > 100);
}

/// Whether the answer at the node of no file decided has the slope 1, and is what the members say.
fn agrees_undecided(alloc: Global, table: &Table, target: u64) -> bool
    requires { target ≤ 9 }
{
    match node_at(alloc, table, 0, 0) {
        Some(node) => agrees(alloc, table, &range_of(target, 1), &node, (1, 1)) == Some(false),
        None => false,
    }
}

/// The same of rows.
fn agrees_of_rows(alloc: Global, rows: &[u8], target: u64) -> bool
    requires { target ≤ 9 }
{
    match table_of(alloc, rows) {
        Some(table) => agrees_undecided(alloc, &table, target),
        None => false,
    }
}

#[test]
fn a_recipe_without_chunks(rt: HostRuntime) {
    for rows in [b"".as_slice(), b"a,,0\n", b"a,01,0\nb,01,0\n"] {
        for target in 0..3u64 {
            assert!(rt; agrees_of_rows(rt.alloc(), rows, target));
        }
    }
}
