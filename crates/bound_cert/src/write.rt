// Documents as text.
ghost use Rattle.std.specs.Prelude.{◌≡◌, ◌++◌, ◌∷◌, [], List, map, length, OnOk, IfOk};
ghost use Rattle.std.specs.List.{flat_map};
ghost use Rattle.std.specs.Fmt.{decimal};
ghost use Rattle.bound_cert.specs.Lines.{Title, Span, Answered, Branch, Leaf, Low, High, End, line_text, answer_word};
ghost use Rattle.bound_cert.specs.Grammar.{text_of};
ghost use Rattle.bound_cert.specs.Documents.{document_text, heading_entries, pins_entries, version_of, plan_entry, bound_entry, node_entries, give_entry};

use crate::document::Document;
use crate::heading::{Answer, Claimed, Heading, Pins};
use crate::multipliers::{Give, Multipliers};
use crate::node_line::NodeLine;
use seed_model::{NoMemory, Range, write_number};
use std::alloc::Global;

/// The one text of a document.
///
/// # Errors
///
/// `NoMemory` where memory runs out.
pub fn write_document(alloc: Global, document: &Document) -> Result<Vec<u8>, NoMemory>
    ensures { IfOk result (λ v. v.items ≡ document_text document.now.heading document.now.nodes) }
{
    let mut out = Vec::new(alloc);
    heading_text(&document.heading, &mut out)?;
    nodes_text(document.nodes.list(), &mut out)?;
    out.extend_from_slice(b"end\n")?;
    Ok(out)
}

/// Appends the lines of a heading: all of a document before its tree.
///
/// # Errors
///
/// `NoMemory` where memory runs out; a part of the lines may then have been appended.
pub fn heading_text(heading: &Heading, out: &mut Vec<u8>) -> Result<(), NoMemory>
    ensures { OnOk result (out.new.items ≡ out.old.items ++ text_of (heading_entries heading.now)) }
{
    push_title(&heading.pins, out)?;
    push_range(&heading.range, out)?;
    push_pins(&heading.pins, out)?;
    push_answer(heading.answer, out)?;
    push_plan(&heading.plan, out)?;
    push_bound(heading.bound, out)
}

/// Appends the lines of a node: one, and behind that of a leaf those of its gives.
///
/// # Errors
///
/// `NoMemory` where memory runs out; a part of the lines may then have been appended.
pub fn node_text(line: &NodeLine, out: &mut Vec<u8>) -> Result<(), NoMemory>
    ensures { OnOk result (out.new.items ≡ out.old.items ++ text_of (node_entries line.now)) }
{
    match line {
        NodeLine::Branch {
            file,
            first,
            second,
            alpha,
            beta,
        } => {
            out.extend_from_slice(b"branch")?;
            push_number(*file as u128, out)?;
            push_word(first.text(), out)?;
            push_word(second.text(), out)?;
            push_number(*alpha as u128, out)?;
            push_number(*beta as u128, out)?;
            Ok(out.push(b'\n')?)
        }
        NodeLine::Low => Ok(out.extend_from_slice(b"low\n")?),
        NodeLine::High => Ok(out.extend_from_slice(b"high\n")?),
        NodeLine::Leaf(multipliers) => {
            push_leaf(multipliers, out)?;
            push_gives(multipliers.gives.list(), out)
        }
    }
}

fn nodes_text(nodes: &[NodeLine], out: &mut Vec<u8>) -> Result<(), NoMemory>
    ensures { OnOk result (out.new.items ≡ out.old.items ++ text_of (flat_map node_entries nodes.now)) }
{
    for node in nodes {
        node_text(node, out)?;
    }
    Ok(())
}

fn push_title(pins: &Option<Pins>, out: &mut Vec<u8>) -> Result<(), NoMemory>
    ensures { OnOk result (out.new.items ≡ out.old.items ++ line_text (Title (version_of pins.now)) ++ 10 ∷ []) }
{
    out.extend_from_slice(b"goseed")?;
    push_number(version(pins) as u128, out)?;
    Ok(out.push(b'\n')?)
}

// The version of a document with these pins.
fn version(pins: &Option<Pins>) -> u8
    ensures { result ≡ version_of pins.now }
{
    match pins {
        None => 1,
        Some(_) => 2,
    }
}

fn push_range(range: &Range, out: &mut Vec<u8>) -> Result<(), NoMemory>
    ensures { OnOk result (out.new.items ≡ out.old.items ++ line_text (Span range.now.low range.now.high) ++ 10 ∷ []) }
{
    out.extend_from_slice(b"range")?;
    push_number(range.low as u128, out)?;
    push_number(range.high as u128, out)?;
    Ok(out.push(b'\n')?)
}

fn push_pins(pins: &Option<Pins>, out: &mut Vec<u8>) -> Result<(), NoMemory>
    ensures { OnOk result (out.new.items ≡ out.old.items ++ text_of (pins_entries pins.now)) }
{
    match pins {
        None => Ok(()),
        Some(pins) => {
            out.extend_from_slice(b"pins")?;
            push_word(pins.go.text(), out)?;
            push_word(pins.stay.text(), out)?;
            Ok(out.push(b'\n')?)
        }
    }
}

fn push_answer(answer: Answer, out: &mut Vec<u8>) -> Result<(), NoMemory>
    ensures { OnOk result (out.new.items ≡ out.old.items ++ line_text (Answered answer) ++ 10 ∷ []) }
{
    match answer {
        Answer::Optimal => Ok(out.extend_from_slice(b"answer optimal\n")?),
        Answer::Infeasible => Ok(out.extend_from_slice(b"answer infeasible\n")?),
        Answer::Open => Ok(out.extend_from_slice(b"answer open\n")?),
    }
}

fn push_plan(plan: &Option<Claimed>, out: &mut Vec<u8>) -> Result<(), NoMemory>
    ensures { OnOk result (out.new.items ≡ out.old.items ++ line_text (plan_entry plan.now) ++ 10 ∷ []) }
{
    match plan {
        None => Ok(out.extend_from_slice(b"plan none\n")?),
        Some(claimed) => {
            out.extend_from_slice(b"plan")?;
            push_word(claimed.set.text(), out)?;
            push_number(claimed.migrated as u128, out)?;
            push_number(claimed.replicated as u128, out)?;
            Ok(out.push(b'\n')?)
        }
    }
}

fn push_bound(bound: Option<u64>, out: &mut Vec<u8>) -> Result<(), NoMemory>
    ensures { OnOk result (out.new.items ≡ out.old.items ++ line_text (bound_entry bound) ++ 10 ∷ []) }
{
    match bound {
        None => Ok(out.extend_from_slice(b"bound none\n")?),
        Some(bound) => {
            out.extend_from_slice(b"bound")?;
            push_number(bound as u128, out)?;
            Ok(out.push(b'\n')?)
        }
    }
}

fn push_leaf(multipliers: &Multipliers, out: &mut Vec<u8>) -> Result<(), NoMemory>
    ensures { OnOk result (out.new.items ≡ out.old.items ++ line_text (Leaf multipliers.now.p multipliers.now.q (length multipliers.now.gives)) ++ 10 ∷ []) }
{
    out.extend_from_slice(b"bound")?;
    push_number(multipliers.p as u128, out)?;
    push_number(multipliers.q as u128, out)?;
    push_number(multipliers.gives.list().len() as u128, out)?;
    Ok(out.push(b'\n')?)
}

fn push_gives(gives: &[Give], out: &mut Vec<u8>) -> Result<(), NoMemory>
    ensures { OnOk result (out.new.items ≡ out.old.items ++ text_of (map give_entry gives.now)) }
{
    for give in gives {
        push_give(give, out)?;
    }
    Ok(())
}

fn push_give(give: &Give, out: &mut Vec<u8>) -> Result<(), NoMemory>
    ensures { OnOk result (out.new.items ≡ out.old.items ++ line_text (give_entry give.now) ++ 10 ∷ []) }
{
    out.extend_from_slice(b"give")?;
    push_number(give.class as u128, out)?;
    push_number(give.file as u128, out)?;
    push_number(give.charge, out)?;
    push_number(give.reward, out)?;
    Ok(out.push(b'\n')?)
}

// Appends a space and a word.
fn push_word(word: &[u8], out: &mut Vec<u8>) -> Result<(), NoMemory>
    ensures { OnOk result (out.new.items ≡ out.old.items ++ 32 ∷ word.now) }
{
    out.push(b' ')?;
    Ok(out.extend_from_slice(word)?)
}

// Appends a space and a number.
fn push_number(number: u128, out: &mut Vec<u8>) -> Result<(), NoMemory>
    ensures { OnOk result (out.new.items ≡ out.old.items ++ 32 ∷ decimal number) }
{
    out.push(b' ')?;
    write_number(number, out)
}
