// Answers at nodes in words, and what gives win and lose there.
ghost use Rattle.std.specs.Prelude.{◌≡◌, length};
ghost use Rattle.seed_model.specs.Nodes.{IsNode};
ghost use Rattle.seed_model.specs.Ranges.{IsRange};

use hull_bound::{Give, Mix, Multipliers, NodeAnswer, solve_node, value_of};
use seed_model::{NoMemory, Node, PlanSet, Range, Table, write_number};
use seed_text::write_set;
use std::alloc::Global;

/// Adds a word and a space.
fn push_word(word: &[u8], text: &mut Vec<u8>) -> Result<(), NoMemory> {
    text.extend_from_slice(word)?;
    text.push(b' ')?;
    Ok(())
}

/// Adds a number and a space.
fn push_number(number: u128, text: &mut Vec<u8>) -> Result<(), NoMemory> {
    write_number(number, text)?;
    text.push(b' ')?;
    Ok(())
}

/// The value of a mix as a fraction; a mix without weight has none.
pub(crate) fn value_in(table: &Table, mix: &Mix) -> Option<(u128, u128)>
    requires first { length mix.now.first ≡ table.now.files }
    requires second { length mix.now.second ≡ table.now.files }
{
    if mix.alpha >= 1 << 51 || mix.beta >= 1 << 51 || (mix.alpha == 0 && mix.beta == 0) {
        return None;
    }
    Some(value_of(table, mix))
}

/// Adds the text of a set and a space.
fn push_set(alloc: Global, set: &PlanSet, text: &mut Vec<u8>) -> Result<(), NoMemory> {
    match write_set(alloc, set) {
        Ok(word) => push_word(&word, text),
        Err(_) => Err(NoMemory),
    }
}

/// Adds a value, the slope of multipliers, and a mix.
fn push_bound(
    alloc: Global,
    table: &Table,
    multipliers: &Multipliers,
    mix: &Mix,
    text: &mut Vec<u8>,
) -> Result<(), NoMemory>
    requires first { length mix.now.first ≡ table.now.files }
    requires second { length mix.now.second ≡ table.now.files }
{
    if let Some((over, under)) = value_in(table, mix) {
        push_word(b"value", text)?;
        push_number(over, text)?;
        push_number(under, text)?;
    }
    push_word(b"multipliers", text)?;
    push_number(multipliers.p as u128, text)?;
    push_number(multipliers.q as u128, text)?;
    push_word(b"mix", text)?;
    push_set(alloc, &mix.first, text)?;
    push_set(alloc, &mix.second, text)?;
    push_number(mix.alpha as u128, text)?;
    push_number(mix.beta as u128, text)?;
    Ok(())
}

/// Adds the words of an answer; a mix of other files has none.
fn push_answer(
    alloc: Global,
    table: &Table,
    answer: &NodeAnswer,
    text: &mut Vec<u8>,
) -> Result<(), NoMemory> {
    match answer {
        NodeAnswer::Low => push_word(b"low", text),
        NodeAnswer::High => push_word(b"high", text),
        NodeAnswer::Bound(multipliers, mix) => {
            if mix.first.files() != table.files() || mix.second.files() != table.files() {
                return Ok(());
            }
            push_bound(alloc, table, multipliers, mix, text)
        }
    }
}

/// Whether an answer has these words, each with a space behind it.
fn has_words(alloc: Global, table: &Table, answer: &NodeAnswer, words: &[u8]) -> bool {
    let mut text = Vec::new(alloc);
    push_answer(alloc, table, answer, &mut text).is_ok() && text.as_slice() == words
}

/// Whether the answer at a node has these words, each with a space behind it.
pub(crate) fn is_answered(
    alloc: Global,
    table: &Table,
    range: &Range,
    node: &Node,
    words: &[u8],
) -> bool
    requires range { IsRange range.now }
    requires node { IsNode table.now.files node.now }
{
    match solve_node(alloc, table, range, node) {
        Ok(answer) => has_words(alloc, table, &answer, words),
        Err(_) => false,
    }
}

/// What a file is charged and rewarded.
fn shares_at(gives: &[Give], file: u32) -> (u128, u128) {
    let mut charges: u128 = 0;
    let mut rewards: u128 = 0;
    for give in gives {
        if give.file == file {
            charges = charges.saturating_add(give.charge);
            rewards = rewards.saturating_add(give.reward);
        }
    }
    (charges, rewards)
}

/// What a node wins and what it loses by gives.
pub(crate) fn won_and_lost(node: &Node, gives: &[Give]) -> (u128, u128)
    requires { length node.now.inside ≡ length node.now.outside }
{
    let mut won: u128 = 0;
    let mut lost: u128 = 0;
    for file in 0..node.inside.files() {
        let (charges, rewards) = shares_at(gives, file);
        if node.inside.contains(file) {
            won = won.saturating_add(charges);
            lost = lost.saturating_add(rewards);
        } else if !node.outside.contains(file) {
            lost = lost.saturating_add(rewards.saturating_sub(charges));
        }
    }
    (won, lost)
}
