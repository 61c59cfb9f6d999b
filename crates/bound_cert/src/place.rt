// Which line may stand where.
ghost use Rattle.std.specs.Prelude.{◌≡◌, ◌+◌, ◌<◌, ◌^◌};
ghost use Rattle.bound_cert.specs.Lines.{entry_of};
ghost use Rattle.bound_cert.specs.Grammar.{after, after_title, after_span, after_pins, after_answer, after_plan, after_bound, after_end, after_node, after_give, at_gives, is_above, nodes_at};

use crate::text_line::TextLine;

/// What is to come next. In a tree stand how many nodes are still to be read; behind a leaf also how many of its gives,
/// and class and file of the last one.
#[derive(Clone, Copy, Debug, PartialEq, Eq)]
pub enum Place {
    AtTitle,
    AtSpan {
        version: u8,
    },
    AtPins,
    AtAnswer,
    AtPlan,
    AtBound,
    AtNode {
        nodes: u64,
    },
    AtGive {
        nodes: u64,
        gives: u32,
        last: Option<(u32, u32)>,
    },
    Past,
}

impl Place {
    /// The place behind a line. `None` where the line may not stand here.
    pub fn after(self, line: &TextLine<'_>) -> Option<Place>
        requires { nodes_at self + 1 < 2 ^ 64 }
        ensures { result ≡ after self (entry_of line.now) }
    {
        match self {
            Place::AtTitle => behind_title(line),
            Place::AtSpan { version } => behind_span(version, line),
            Place::AtPins => behind_pins(line),
            Place::AtAnswer => behind_answer(line),
            Place::AtPlan => behind_plan(line),
            Place::AtBound => behind_bound(line),
            Place::AtNode { nodes: 0 } => behind_tree(line),
            Place::AtNode { nodes } => behind_node(nodes - 1, line),
            Place::AtGive { gives: 0, .. } => None,
            Place::AtGive { nodes, gives, last } => behind_give(nodes, gives - 1, last, line),
            Place::Past => None,
        }
    }
}

fn behind_title(line: &TextLine<'_>) -> Option<Place>
    ensures { result ≡ after_title (entry_of line.now) }
{
    match line {
        TextLine::Title { version } => Some(Place::AtSpan { version: *version }),
        _ => None,
    }
}

fn behind_span(version: u8, line: &TextLine<'_>) -> Option<Place>
    ensures { result ≡ after_span version (entry_of line.now) }
{
    match line {
        TextLine::Span { .. } if version == 1 => Some(Place::AtAnswer),
        TextLine::Span { .. } => Some(Place::AtPins),
        _ => None,
    }
}

fn behind_pins(line: &TextLine<'_>) -> Option<Place>
    ensures { result ≡ after_pins (entry_of line.now) }
{
    match line {
        TextLine::Pinned { .. } => Some(Place::AtAnswer),
        _ => None,
    }
}

fn behind_answer(line: &TextLine<'_>) -> Option<Place>
    ensures { result ≡ after_answer (entry_of line.now) }
{
    match line {
        TextLine::Answered(_) => Some(Place::AtPlan),
        _ => None,
    }
}

fn behind_plan(line: &TextLine<'_>) -> Option<Place>
    ensures { result ≡ after_plan (entry_of line.now) }
{
    match line {
        TextLine::Planned { .. } => Some(Place::AtBound),
        TextLine::NoPlan => Some(Place::AtBound),
        _ => None,
    }
}

fn behind_bound(line: &TextLine<'_>) -> Option<Place>
    ensures { result ≡ after_bound (entry_of line.now) }
{
    match line {
        TextLine::Bounded { .. } => Some(Place::AtNode { nodes: 1 }),
        TextLine::NoBound => Some(Place::AtNode { nodes: 1 }),
        _ => None,
    }
}

fn behind_tree(line: &TextLine<'_>) -> Option<Place>
    ensures { result ≡ after_end (entry_of line.now) }
{
    match line {
        TextLine::End => Some(Place::Past),
        _ => None,
    }
}

// Behind a node that is followed by so many others.
fn behind_node(nodes: u64, line: &TextLine<'_>) -> Option<Place>
    requires { nodes + 2 < 2 ^ 64 }
    ensures { result ≡ after_node nodes (entry_of line.now) }
{
    match line {
        TextLine::Branch { .. } => Some(Place::AtNode { nodes: nodes + 2 }),
        TextLine::Low => Some(Place::AtNode { nodes }),
        TextLine::High => Some(Place::AtNode { nodes }),
        TextLine::Leaf { gives, .. } => Some(with_gives(nodes, *gives, None)),
        _ => None,
    }
}

// Behind a give that is followed by so many others of its leaf.
fn behind_give(
    nodes: u64,
    gives: u32,
    last: Option<(u32, u32)>,
    line: &TextLine<'_>,
) -> Option<Place>
    ensures { result ≡ after_give nodes gives last (entry_of line.now) }
{
    match line {
        TextLine::Give { class, file, .. } if rises(*class, *file, last) => {
            Some(with_gives(nodes, gives, Some((*class, *file))))
        }
        _ => None,
    }
}

fn with_gives(nodes: u64, gives: u32, last: Option<(u32, u32)>) -> Place
    ensures { result ≡ at_gives nodes gives last }
{
    if gives == 0 {
        Place::AtNode { nodes }
    } else {
        Place::AtGive { nodes, gives, last }
    }
}

// Whether a give may follow the last one.
fn rises(class: u32, file: u32, last: Option<(u32, u32)>) -> bool
    ensures { result ≡ is_above class file last }
{
    match last {
        None => true,
        Some(last) => last.0 < class || (last.0 == class && last.1 < file),
    }
}
