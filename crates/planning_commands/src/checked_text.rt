// The lines that `check` prints.
ghost use Rattle.std.specs.Prelude.{◌≡◌, ◌++◌, length, Some, option_map, IfOk, IfSome, OnOk};
ghost use Rattle.planning_commands.specs.Check.{failure_text, node_lines, shown_text, yes_text};
ghost use Rattle.planning_commands.specs.Texts.{answer_lines};

use crate::answer_text::{Findings, add_answer};
use cert_check::{Checked, Verdict};
use command_texts::lines::{add, add_numbers};
use recipe_reader::Recipe;
use seed_model::{NoMemory, Node};
use seed_text::write_set;
use std::alloc::Global;

/// What `check` prints of a checked certificate.
pub(crate) fn text_of_checked(
    alloc: Global,
    recipe: &Recipe,
    checked: &Checked,
) -> Result<Vec<u8>, NoMemory>
    requires { IfSome checked.now.plan (λ plan. length plan ≡ length recipe.now.files) }
    ensures { IfOk result (λ text. text.items ≡ shown_text recipe.now checked.now) }
{
    match checked.verdict {
        Verdict::Yes => text_of_valid(alloc, recipe, checked),
        Verdict::No { line, rule } => text_of_failure(alloc, line, rule),
    }
}

/// What `check` prints of the first judgement that fails.
pub fn text_of_failure(alloc: Global, line: u64, rule: u8) -> Result<Vec<u8>, NoMemory>
    ensures { IfOk result (λ text. text.items ≡ failure_text line rule) }
{
    let mut text = Vec::new(alloc);
    add_numbers(&mut text, b"check no", &[line, u64::from(rule)])?;
    Ok(text)
}

/// What `check` prints of a valid certificate.
fn text_of_valid(alloc: Global, recipe: &Recipe, checked: &Checked) -> Result<Vec<u8>, NoMemory>
    requires { IfSome checked.now.plan (λ plan. length plan ≡ length recipe.now.files) }
    ensures { IfOk result (λ text. text.items ≡ yes_text recipe.now checked.now) }
{
    let mut text = Vec::new(alloc);
    add(&mut text, b"check yes\n")?;
    add_numbers(
        &mut text,
        b"range",
        &[checked.range.low, checked.range.high],
    )?;
    add_pins(alloc, &mut text, checked.pins.as_ref())?;
    add_shown(alloc, &mut text, recipe, checked)?;
    Ok(text)
}

/// Puts the line of pins behind a text, if there are any.
pub(crate) fn add_pins(
    alloc: Global,
    text: &mut Vec<u8>,
    pins: Option<&Node>,
) -> Result<(), NoMemory>
    ensures { OnOk result (text.new.items ≡ text.old.items ++ node_lines (option_map (λ node. node.now) pins.entry)) }
{
    match pins {
        Some(pins) => add_node(alloc, text, pins),
        None => Ok(()),
    }
}

/// Puts the line of the files that must go and of those that must stay behind a text.
fn add_node(alloc: Global, text: &mut Vec<u8>, pins: &Node) -> Result<(), NoMemory>
    ensures { OnOk result (text.new.items ≡ text.old.items ++ node_lines (Some pins.now)) }
{
    let go = write_set(alloc, &pins.inside)?;
    let stay = write_set(alloc, &pins.outside)?;
    add(text, b"pins ")?;
    add(text, &go)?;
    add(text, b" ")?;
    add(text, &stay)?;
    add(text, b"\n")
}

/// Puts the lines of what is shown behind a text.
fn add_shown(
    alloc: Global,
    text: &mut Vec<u8>,
    recipe: &Recipe,
    checked: &Checked,
) -> Result<(), NoMemory>
    requires { IfSome checked.now.plan (λ plan. length plan ≡ length recipe.now.files) }
    ensures { OnOk result (text.new.items ≡ text.old.items ++ answer_lines recipe.now.files checked.now.answer checked.now.plan checked.now.migrated checked.now.replicated checked.now.bound checked.now.branchings) }
{
    let findings = Findings {
        answer: checked.answer,
        plan: checked.plan.as_ref(),
        migrated: checked.migrated,
        replicated: checked.replicated,
        bound: checked.bound,
        branchings: checked.branchings,
    };
    add_answer(alloc, text, recipe, &findings)
}
