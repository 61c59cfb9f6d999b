// The lines of a document's text, up to the first that breaks its form.
ghost use Rattle.std.specs.Prelude.{◌≡◌, ◌≢◌, ◌<◌, ◌^◌, ◌+◌, ◌↔◌, IsTrue, ◌++◌, ℕ, List, ◌∷◌, IfSome, IfNone, IfOk, IfErr, length, slice_index, true, false, All};
ghost use Rattle.bound_cert.specs.Lines.{Entry, IsLine, entry_of, line_text};
ghost use Rattle.bound_cert.specs.Grammar.{AreLines, IsFirstBadLine, entries_of, text_of, is_lf};
ghost use Rattle.bound_cert.specs.Errors.{IsBadAt};
ghost use Rattle.bound_cert.specs.declared.place.Place.TheVariants.{Past};
ghost use Rattle.bound_cert.specs.declared.doc_error.DocError.TheVariants.{Bad};

use crate::doc_error::DocError;
use crate::line_reading::read_line;
use crate::place::Place;
use crate::text_line::TextLine;
use std::alloc::Global;

// The lines of a document's text.
pub(crate) fn lines_of<'a>(alloc: Global, text: &'a [u8]) -> Result<Vec<TextLine<'a>>, DocError>
    ensures found { IfOk result (λ v. AreLines (entries_of v.items) × (text.now ≡ text_of (entries_of v.items))) }
    ensures bad { IfErr result (IsBadAt text.now) }
{
    let mut lines = Vec::new(alloc);
    let mut place = Place::AtTitle;
    let mut rest = text;
    while !is_past(place) {
        let Some((line, behind)) = first_line(rest) else {
            return Err(bad_line(lines.len()));
        };
        let Some(next) = place.after(&line) else {
            return Err(bad_line(lines.len()));
        };
        lines.push(line)?;
        place = next;
        rest = behind;
    }
    if !rest.is_empty() {
        return Err(bad_line(lines.len()));
    }
    Ok(lines)
}

// The line behind so many is the first that breaks the form.
fn bad_line(before: usize) -> DocError
    requires { before + 1 < 2 ^ 64 }
    ensures { result ≡ Bad (before + 1) }
{
    DocError::Bad {
        line: before as u64 + 1,
    }
}

fn is_past(place: Place) -> bool
    ensures { IsTrue result ↔ (place ≡ Past) }
{
    matches!(place, Place::Past)
}

// The first line of a text and what stands behind its LF. `None` where the text begins with no line of a document.
pub(crate) fn first_line(text: &[u8]) -> Option<(TextLine<'_>, &[u8])>
    ensures found { IfSome result (λ x. IsLine (entry_of x.0) × (text.now ≡ line_text (entry_of x.0) ++ 10 ∷ x.1.now)) }
    ensures none { IfNone result ((e : Entry) (more : List ℕ) → IsLine e → text.now ≢ line_text e ++ 10 ∷ more) }
{
    let place = first_lf(text)?;
    let line = read_line(&text[..place])?;
    Some((line, &text[place + 1..]))
}

// Where the first LF stands.
fn first_lf(text: &[u8]) -> Option<usize>
    ensures some { IfSome result (λ i. (i < length text.now) × (is_lf (slice_index text.now i) ≡ true) × ((k : ℕ) → k < i → is_lf (slice_index text.now k) ≡ false)) }
    ensures none { IfNone result (All (λ b. is_lf b ≡ false) text.now) }
{
    text.iter().position(|b| *b == b'\n')
}
