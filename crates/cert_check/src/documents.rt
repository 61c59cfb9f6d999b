// Documents checked whole.
ghost use Rattle.std.specs.Prelude.{◌≡◌, ◌↔◌, [], IfOk, IfSome, IfNone};
ghost use Rattle.seed_io.specs.Answered.{line_text};
ghost use Rattle.seed_model.specs.Tables.{IsTable};
ghost use Rattle.bound_cert.specs.Documents.{document_text};
ghost use Rattle.bound_cert.specs.Laws.{FailureIsNotValid, OneDocument, ValidIsSo, Says, plan_named};
ghost use Rattle.bound_cert.specs.Sets.{root_of};
ghost use Rattle.bound_cert.specs.Valid.{IsValid};
ghost use Rattle.cert_check.specs.Checking.{IsVerdict};
ghost use Rattle.cert_check.specs.Texts.{FirstLine};

use crate::judge::Judge;
use crate::judged::{Judged, Verdict};
use bound_cert::{Document, certificate_laws, write_document};
use memchr::memchr;
use seed_io::{LONGEST_LINE, Line};
use seed_model::{NoMemory, Table};
use std::alloc::Global;

/// The first line of a text, and what stands behind its LF. `None` where the text is empty.
fn first_line(text: &[u8]) -> Option<(Line<'_>, &[u8])>
    ensures some { IfSome result (λ x. FirstLine text.now (line_text x.0) x.1.now) }
    ensures none { IfNone result (text.now ≡ []) }
{
    if text.is_empty() {
        return None;
    }
    let front = &text[..text.len().min(LONGEST_LINE + 1)];
    match memchr(b'\n', front) {
        Some(length) => Some((Line::Whole(&text[..length]), &text[length + 1..])),
        None if front.len() > LONGEST_LINE => Some((Line::Wide, text)),
        None => Some((Line::Unended, text)),
    }
}

/// Judges a text to its end, or to the first judgement that fails.
fn check_lines(alloc: Global, table: &Table, text: &[u8]) -> Result<Verdict, NoMemory>
    ensures { IfOk result (IsVerdict table.now text.now) }
{
    certificate_laws();
    let mut judge = Judge::new(alloc, table)?;
    let mut rest = text;
    'judging: while let Some((line, behind)) = first_line(rest) {
        let Judged::More = judge.take(Some(line)) else {
            return Ok(judge.into_checked().verdict);
        };
        rest = behind;
    }
    judge.take(None);
    Ok(judge.into_checked().verdict)
}

/// The laws on which it stands that a verdict is that on the document itself, and that what a valid one says is so.
fn laws_of(table: &Table)
    ensures table { IsTable table.now }
    ensures failed { FailureIsNotValid }
    ensures one { OneDocument }
    ensures sound { ValidIsSo }
{
    certificate_laws();
    let _files = table.files();
}

/// Judges a document by its text, which it writes into memory: yes exactly where it is valid, else the first judgement
/// that fails. Where it says yes, what the document says of all admitted plans is so.
///
/// # Errors
///
/// `NoMemory` where memory runs out.
pub fn check(alloc: Global, table: &Table, document: &Document) -> Result<Verdict, NoMemory>
    ensures verdict { IfOk result (IsVerdict table.now (document_text document.now.heading document.now.nodes)) }
    ensures valid { IfOk result (λ v. (v ≡ Verdict.Yes) ↔ IsValid table.now document.now.heading document.now.nodes) }
    ensures sound { IfOk result (λ v. v ≡ Verdict.Yes → Says table.now document.now.heading.range
        (root_of table.now.files document.now.heading.pins) document.now.heading.answer
        (plan_named table.now.files document.now.heading.plan) document.now.heading.bound) }
{
    laws_of(table);
    let text = write_document(alloc, document)?;
    check_lines(alloc, table, &text)
}
