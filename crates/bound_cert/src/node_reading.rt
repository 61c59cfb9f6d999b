// The nodes of a document's tree, from their lines.
ghost use Rattle.std.specs.Prelude.{◌≡◌, ◌≢◌, ◌<◌, ◌≤◌, ◌++◌, ◌∷◌, [], IfOk, IsTrue, ◌↔◌, All, length, drop, map};
ghost use Rattle.std.specs.List.{flat_map};
ghost use Rattle.bound_cert.specs.Lines.{End, entry_of};
ghost use Rattle.bound_cert.specs.Grammar.{LeadsOnNodes, LeadsOnGives, IsGiveLine, entries_of};
ghost use Rattle.bound_cert.specs.Documents.{node_entries, give_entry};

use crate::heading_reading::first_of;
use crate::multipliers::{Give, Gives, Multipliers};
use crate::node_line::{NodeLine, NodeLines};
use crate::set_text::SetText;
use crate::text_line::TextLine;
use seed_model::NoMemory;
use std::alloc::Global;

// The nodes that lines are, up to `end`.
pub(crate) fn nodes_of(alloc: Global, lines: &[TextLine<'_>]) -> Result<NodeLines, NoMemory>
    requires { LeadsOnNodes (entries_of lines.now) }
    ensures { IfOk result (λ nodes. entries_of lines.now ≡ flat_map node_entries nodes ++ End ∷ []) }
{
    let mut nodes = Vec::new(alloc);
    let mut place = 0;
    while !is_end(&lines[place..]) {
        let (node, count) = node_of(alloc, &lines[place..])?;
        nodes.push(node)?;
        place += count;
    }
    Ok(NodeLines::new(nodes))
}

// Whether no node is left.
fn is_end(lines: &[TextLine<'_>]) -> bool
    requires { LeadsOnNodes (entries_of lines.now) }
    ensures { IsTrue result ↔ (entries_of lines.now ≡ End ∷ []) }
{
    let (line, _) = first_of(lines);
    matches!(line, TextLine::End)
}

// The node at the front of lines, and the number of its lines.
fn node_of(alloc: Global, lines: &[TextLine<'_>]) -> Result<(NodeLine, usize), NoMemory>
    requires nodes { LeadsOnNodes (entries_of lines.now) }
    requires more { entries_of lines.now ≢ End ∷ [] }
    ensures some { IfOk result (λ x. 0 < x.1) }
    ensures within { IfOk result (λ x. x.1 ≤ length lines.now) }
    ensures lines { IfOk result (λ x. entries_of lines.now ≡ node_entries x.0 ++ entries_of (drop x.1 lines.now)) }
    ensures nodes { IfOk result (λ x. LeadsOnNodes (entries_of (drop x.1 lines.now))) }
{
    let (line, rest) = first_of(lines);
    match line {
        TextLine::Branch {
            file,
            first,
            second,
            alpha,
            beta,
        } => {
            let first = SetText::new(Vec::from_slice(alloc, first)?);
            let second = SetText::new(Vec::from_slice(alloc, second)?);
            let node = NodeLine::Branch {
                file,
                first,
                second,
                alpha,
                beta,
            };
            Ok((node, 1))
        }
        TextLine::Low => Ok((NodeLine::Low, 1)),
        TextLine::High => Ok((NodeLine::High, 1)),
        TextLine::Leaf { p, q, gives } => {
            let count = gives as usize;
            let gives = gives_of(alloc, count, rest)?;
            Ok((NodeLine::Leaf(Multipliers { p, q, gives }), count + 1))
        }
        _ => unreachable!(),
    }
}

// So many gives at the front of lines.
fn gives_of(alloc: Global, count: usize, lines: &[TextLine<'_>]) -> Result<Gives, NoMemory>
    requires { LeadsOnGives count (entries_of lines.now) }
    ensures within { IfOk result (λ g. count ≤ length lines.now) }
    ensures many { IfOk result (λ g. length g ≡ count) }
    ensures lines { IfOk result (λ g. entries_of lines.now ≡ map give_entry g ++ entries_of (drop count lines.now)) }
    ensures nodes { IfOk result (λ g. LeadsOnNodes (entries_of (drop count lines.now))) }
{
    let gives = give_list(alloc, &lines[..count])?;
    Ok(Gives::new(gives))
}

// The gives that lines are.
fn give_list(alloc: Global, lines: &[TextLine<'_>]) -> Result<Vec<Give>, NoMemory>
    requires { All IsGiveLine lines.now }
    ensures { IfOk result (λ v. map give_entry v.items ≡ entries_of lines.now) }
{
    let mut gives = Vec::new(alloc);
    for line in lines {
        gives.push(give_of(*line))?;
    }
    Ok(gives)
}

// The give that a line is.
fn give_of(line: TextLine<'_>) -> Give
    requires { IsGiveLine line }
    ensures { give_entry result ≡ entry_of line.entry }
{
    let TextLine::Give {
        class,
        file,
        charge,
        reward,
    } = line
    else {
        unreachable!()
    };
    Give {
        class,
        file,
        charge,
        reward,
    }
}
