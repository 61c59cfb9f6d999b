// The judge of the lines of a text.
ghost use Rattle.std.specs.Prelude.{◌≡◌, ◌≢◌, ◌+◌, ◌<◌, ◌≤◌, ◌^◌, ◌++◌, [], List, false, IfOk, option_map, is_none};
ghost use Rattle.bound_cert.specs.Grammar.{nodes_at};
ghost use Rattle.bound_cert.specs.Lines.{IsLine, entry_of};
ghost use Rattle.seed_io.specs.Answered.{line_text};
ghost use Rattle.seed_io.specs.Lines.{LineText, Whole, listed};
ghost use Rattle.cert_check.specs.Histories.{whole_line};
ghost use Rattle.cert_check.specs.Keeping.{IsKept};
ghost use Rattle.cert_check.specs.Judging.{StandsFor, TakesLine, TakesNext, said_of, judged_end, checked_by};
ghost use Rattle.cert_check.specs.declared.judged.Judged.TheVariants.{More, Failed};

use crate::judged::{Checked, Judged, none_checked};
use crate::kept::{Broken, Kept};
use bound_cert::{Place, TextLine, read_line};
use seed_io::Line;
use seed_model::{NoMemory, Table};
use std::alloc::Global;
use std::marker::Model;

/// The rule on the form of a line.
const FORM: u8 = 1;

/// A judge of the lines of a text, which stores none of them. All its memory is taken when it is made. A clause sees it as
/// its table, the number of lines that it took, what it last said, and what it keeps of the lines.
#[derive(Drop)]
pub struct Judge<'t> {
    table: &'t Table,
    lines: u64,
    judged: Judged,
    kept: Kept,
}

impl<'t> Model for Judge<'t> {
    ghost use Rattle.cert_check.specs.Judging.{JudgeValue, IsJudge};

    ghost Value = { JudgeValue };

    ghost view = { λ j. record { table = j.table.now; lines = j.lines; judged = j.judged; kept = j.kept } };

    ghost invariant = { λ j. IsJudge j.table.now j.lines j.judged j.kept };
}

/// A line of this number breaks the form.
fn no_line(number: u64) -> Judged
    ensures { result ≡ Failed number FORM }
{
    Judged::Failed {
        line: number,
        rule: FORM,
    }
}

/// What is said of a line of this number that is judged.
fn said(number: u64, broken: Option<Broken>) -> Judged
    ensures { result ≡ said_of number broken }
{
    match broken {
        None => Judged::More,
        Some(broken) => Judged::Failed {
            line: number.saturating_sub(u64::from(broken.back)),
            rule: broken.rule,
        },
    }
}

/// Judges what a line of this number says, behind those that are kept, and keeps it.
fn take_read(kept: &mut Kept, table: &Table, number: u64, line: &TextLine<'_>) -> Judged
    requires kept { IsKept table.now kept.old }
    requires lawful { IsLine (entry_of line.now) }
    requires few { kept.old.branchings + 1 < 2 ^ 64 }
    requires nodes { nodes_at kept.old.place + 1 < 2 ^ 64 }
    ensures { TakesLine table.now number kept.old kept.new (whole_line (entry_of line.now)) result }
{
    match kept.place.after(line) {
        Some(next) => said(number, kept.take(table, line, next)),
        None => no_line(number),
    }
}

/// Judges the text of a line of this number behind those that are kept, and keeps what it says.
fn take_text(kept: &mut Kept, table: &Table, number: u64, text: &[u8]) -> Judged
    requires kept { IsKept table.now kept.old }
    requires few { kept.old.branchings + 1 < 2 ^ 64 }
    requires nodes { nodes_at kept.old.place + 1 < 2 ^ 64 }
    ensures { TakesLine table.now number kept.old kept.new (Whole text.now) result }
{
    match read_line(text) {
        Some(line) => take_read(kept, table, number, &line),
        None => no_line(number),
    }
}

/// Judges a line of this number behind those that are kept, and keeps it.
fn take_line(kept: &mut Kept, table: &Table, number: u64, line: Line<'_>) -> Judged
    requires kept { IsKept table.now kept.old }
    requires few { kept.old.branchings + 1 < 2 ^ 64 }
    requires nodes { nodes_at kept.old.place + 1 < 2 ^ 64 }
    ensures { TakesLine table.now number kept.old kept.new (line_text line.entry) result }
{
    match line {
        Line::Whole(text) => take_text(kept, table, number, text),
        Line::Wide => no_line(number),
        Line::Unended => no_line(number),
    }
}

/// Judges the end of the text, in place of a line of this number.
fn take_end(place: Place, number: u64) -> Judged
    ensures { result ≡ judged_end place number }
{
    match place {
        Place::Past => Judged::Valid,
        _ => no_line(number),
    }
}

/// Judges a line of this number, or the end of the text in its place.
fn take_next(kept: &mut Kept, table: &Table, number: u64, line: Option<Line<'_>>) -> Judged
    requires kept { IsKept table.now kept.old }
    requires few { kept.old.branchings + 1 < 2 ^ 64 }
    requires nodes { nodes_at kept.old.place + 1 < 2 ^ 64 }
    ensures { TakesNext table.now number kept.old kept.new (option_map line_text line.entry) result }
{
    match line {
        Some(line) => take_line(kept, table, number, line),
        None => take_end(kept.place, number),
    }
}

impl<'t> Judge<'t> {
    /// A judge that has taken no line yet.
    ///
    /// # Errors
    ///
    /// `NoMemory` where memory runs out.
    pub fn new(alloc: Global, table: &'t Table) -> Result<Judge<'t>, NoMemory>
        ensures table { IfOk result (λ j. j.table ≡ table.now) }
        ensures none { IfOk result (λ j. j.lines ≡ 0) }
        ensures goes { IfOk result (λ j. j.judged ≡ More) }
        ensures stands { IfOk result (λ j. StandsFor j [] false) }
    {
        Ok(Judge {
            table,
            lines: 0,
            judged: Judged::More,
            kept: Kept::new(alloc, table)?,
        })
    }

    /// Judges one more line, without its LF, or the end of the text, which is `None`. It takes no memory. Behind `Failed` and
    /// `Valid` it says the same again, and stays as it is.
    pub fn take(&mut self, line: Option<Line<'_>>) -> Judged
        requires few { self.old.lines < 2 ^ 62 }
        ensures answer { result ≡ self.new.judged }
        ensures table { self.new.table ≡ self.old.table }
        ensures lines { self.new.lines ≤ self.old.lines + 1 }
        ensures over { self.old.judged ≢ More → self.new ≡ self.old }
        ensures taken { let given = option_map line_text line.entry in
            (before : List LineText) → StandsFor self.old before false → StandsFor self.new (before ++ listed given) (is_none given) }
    {
        let Judged::More = self.judged else {
            return self.judged;
        };
        self.lines += 1;
        self.judged = take_next(&mut self.kept, self.table, self.lines, line);
        self.judged
    }

    /// The verdict on the text, and what a valid text says, once a judgement has failed or the text has ended.
    pub fn into_checked(self) -> Checked
        requires { self.judged ≢ More }
        ensures { result ≡ checked_by self.entry }
    {
        match self.judged {
            Judged::Failed { line, rule } => none_checked(line, rule),
            _ => self.kept.into_checked(),
        }
    }
}
