// The heading of a document, from its lines.
ghost use Rattle.std.specs.Prelude.{◌≡◌, ◌≢◌, ◌<◌, ◌++◌, ◌∷◌, IfOk, length};
ghost use Rattle.bound_cert.specs.declared.place.Place.TheVariants.{AtTitle, AtSpan, AtPins, AtAnswer, AtPlan, AtBound, AtNode};
ghost use Rattle.bound_cert.specs.Lines.{Title, Span, Answered};
ghost use Rattle.bound_cert.specs.Grammar.{LeadsOn, entries_of, behind_span, IsVersion};
ghost use Rattle.bound_cert.specs.Documents.{heading_entries, pins_entries, version_of, plan_entry, bound_entry};

use crate::heading::{Answer, Claimed, Heading, Pins};
use crate::set_text::SetText;
use crate::text_line::TextLine;
use seed_model::{NoMemory, Range};
use std::alloc::Global;

// The heading at the front of lines, and the lines behind it.
pub(crate) fn heading_of<'b, 'a>(
    alloc: Global,
    lines: &'b [TextLine<'a>],
) -> Result<(Heading, &'b [TextLine<'a>]), NoMemory>
    requires { LeadsOn AtTitle (entries_of lines.now) }
    ensures lines { IfOk result (λ x. entries_of lines.now ≡ heading_entries x.0 ++ entries_of x.1.now) }
    ensures rest { IfOk result (λ x. LeadsOn (AtNode 1) (entries_of x.1.now)) }
{
    let (version, rest) = title_of(lines);
    let (range, rest) = range_of(version, rest);
    let (pins, rest) = pins_of(alloc, version, rest)?;
    let (answer, rest) = answer_of(rest);
    let (plan, rest) = plan_of(alloc, rest)?;
    let (bound, rest) = bound_of(rest);
    let heading = Heading {
        range,
        pins,
        answer,
        plan,
        bound,
    };
    Ok((heading, rest))
}

// The first of some lines, and those behind it.
pub(crate) fn first_of<'b, 'a>(lines: &'b [TextLine<'a>]) -> (TextLine<'a>, &'b [TextLine<'a>])
    requires { 0 < length lines.now }
    ensures { lines.now ≡ result.0 ∷ result.1.now }
{
    (lines[0], &lines[1..])
}

fn title_of<'b, 'a>(lines: &'b [TextLine<'a>]) -> (u8, &'b [TextLine<'a>])
    requires { LeadsOn AtTitle (entries_of lines.now) }
    ensures line { entries_of lines.now ≡ Title result.0 ∷ entries_of result.1.now }
    ensures rest { LeadsOn (AtSpan result.0) (entries_of result.1.now) }
    ensures version { IsVersion result.0 }
{
    let (line, rest) = first_of(lines);
    let TextLine::Title { version } = line else {
        unreachable!()
    };
    (version, rest)
}

fn range_of<'b, 'a>(version: u8, lines: &'b [TextLine<'a>]) -> (Range, &'b [TextLine<'a>])
    requires { LeadsOn (AtSpan version) (entries_of lines.now) }
    ensures line { entries_of lines.now ≡ Span result.0.low result.0.high ∷ entries_of result.1.now }
    ensures rest { LeadsOn (behind_span version) (entries_of result.1.now) }
{
    let (line, rest) = first_of(lines);
    let TextLine::Span { low, high } = line else {
        unreachable!()
    };
    (Range { low, high }, rest)
}

fn pins_of<'b, 'a>(
    alloc: Global,
    version: u8,
    lines: &'b [TextLine<'a>],
) -> Result<(Option<Pins>, &'b [TextLine<'a>]), NoMemory>
    requires version { IsVersion version }
    requires lines { LeadsOn (behind_span version) (entries_of lines.now) }
    ensures version { IfOk result (λ x. version_of x.0 ≡ version) }
    ensures lines { IfOk result (λ x. entries_of lines.now ≡ pins_entries x.0 ++ entries_of x.1.now) }
    ensures rest { IfOk result (λ x. LeadsOn AtAnswer (entries_of x.1.now)) }
{
    if version == 1 {
        return Ok((None, lines));
    }
    let (line, rest) = first_of(lines);
    let TextLine::Pinned { go, stay } = line else {
        unreachable!()
    };
    let go = SetText::new(Vec::from_slice(alloc, go)?);
    let stay = SetText::new(Vec::from_slice(alloc, stay)?);
    Ok((Some(Pins { go, stay }), rest))
}

fn answer_of<'b, 'a>(lines: &'b [TextLine<'a>]) -> (Answer, &'b [TextLine<'a>])
    requires { LeadsOn AtAnswer (entries_of lines.now) }
    ensures line { entries_of lines.now ≡ Answered result.0 ∷ entries_of result.1.now }
    ensures rest { LeadsOn AtPlan (entries_of result.1.now) }
{
    let (line, rest) = first_of(lines);
    let TextLine::Answered(answer) = line else {
        unreachable!()
    };
    (answer, rest)
}

fn plan_of<'b, 'a>(
    alloc: Global,
    lines: &'b [TextLine<'a>],
) -> Result<(Option<Claimed>, &'b [TextLine<'a>]), NoMemory>
    requires { LeadsOn AtPlan (entries_of lines.now) }
    ensures line { IfOk result (λ x. entries_of lines.now ≡ plan_entry x.0 ∷ entries_of x.1.now) }
    ensures rest { IfOk result (λ x. LeadsOn AtBound (entries_of x.1.now)) }
{
    let (line, rest) = first_of(lines);
    match line {
        TextLine::NoPlan => Ok((None, rest)),
        TextLine::Planned {
            set,
            migrated,
            replicated,
        } => {
            let set = SetText::new(Vec::from_slice(alloc, set)?);
            let claimed = Claimed {
                set,
                migrated,
                replicated,
            };
            Ok((Some(claimed), rest))
        }
        _ => unreachable!(),
    }
}

fn bound_of<'b, 'a>(lines: &'b [TextLine<'a>]) -> (Option<u64>, &'b [TextLine<'a>])
    requires { LeadsOn AtBound (entries_of lines.now) }
    ensures line { entries_of lines.now ≡ bound_entry result.0 ∷ entries_of result.1.now }
    ensures rest { LeadsOn (AtNode 1) (entries_of result.1.now) }
{
    let (line, rest) = first_of(lines);
    match line {
        TextLine::NoBound => (None, rest),
        TextLine::Bounded { bound } => (Some(bound), rest),
        _ => unreachable!(),
    }
}
