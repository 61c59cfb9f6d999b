// Certificates checked whole, as texts under a name.
ghost use Rattle.std.specs.Prelude.{◌≡◌, ℕ, List, true, Some, None, IsSome, IfOk, OnOk, IsErrOf};
ghost use Rattle.fault_count.specs.Counts.{HandsOn};
ghost use Rattle.seed_io.specs.Shelf.{GaveMore};
ghost use Rattle.seed_model.specs.Tables.{IsTable};
ghost use Rattle.bound_cert.specs.Laws.{LinesTellDocuments, ValidIsSo};
ghost use Rattle.bound_cert.specs.Within.{RunsOn};
ghost use Rattle.cert_check.specs.Checking.{IsChecked, IsSound, check_error};

use crate::judge::Judge;
use crate::judged::{Checked, Judged};
use bound_cert::certificate_laws;
use seed_io::{LineError, Lines, Shelf};
use seed_model::Table;
use std::alloc::Global;

/// The most bytes of a text that are taken: 2^47.
pub const LONGEST_TEXT: u64 = 1 << 47;

/// Why a text was not checked.
#[derive(Clone, Copy, Debug, PartialEq, Eq)]
pub enum CheckError {
    /// A call of the shelf failed.
    Fault,
    /// The shelf answered that the name is not there.
    NotThere,
    /// As many bytes as are taken showed no judgement that fails, and another was given.
    TooLong,
    /// Memory ran out.
    Memory,
}

/// An error of a reader of lines, handed on.
fn error_of(error: LineError) -> CheckError
    ensures { result ≡ check_error error }
{
    match error {
        LineError::Fault => CheckError::Fault,
        LineError::NotThere => CheckError::NotThere,
        LineError::TooLong => CheckError::TooLong,
        LineError::Memory => CheckError::Memory,
    }
}

/// The laws on which it stands that what a valid text says is so.
fn laws_of(table: &Table)
    ensures table { IsTable table.now }
    ensures told { LinesTellDocuments }
    ensures sound { ValidIsSo }
{
    certificate_laws();
    let _files = table.files();
}

/// Judges the text under a name, line by line, to its end or to the first judgement that fails. It keeps no more of the
/// text than 64 KiB and a line, and takes at most [`LONGEST_TEXT`] bytes of it. The shelf stays as it is, but for its
/// count of faults.
///
/// # Errors
///
/// `Fault`, `NotThere` and `Memory` as the shelf answers them, `Memory` also where memory runs out, and `TooLong` where
/// the text has more bytes than are taken, and no judgement fails on what is seen of it.
pub fn check_text<F: Shelf>(
    alloc: Global,
    table: &Table,
    shelf: &mut F,
    name: &str,
) -> Result<Checked, CheckError>
    ensures judged { F.tells shelf.old ≡ true → (text : List ℕ) → F.map shelf.old name.now ≡ Some text → IfOk result (IsChecked table.now LONGEST_TEXT text) }
    ensures sound { IfOk result (IsSound table.now) }
    ensures there { F.tells shelf.old ≡ true → OnOk result (IsSome (F.map shelf.old name.now)) }
    ensures lacks { F.tells shelf.old ≡ true → IsErrOf result CheckError.NotThere → F.map shelf.old name.now ≡ None }
    ensures long { IsErrOf result CheckError.TooLong → GaveMore (F.tells shelf.old) (F.map shelf.old) name.now LONGEST_TEXT }
    ensures runs_on { F.tells shelf.old ≡ true → (text : List ℕ) → F.map shelf.old name.now ≡ Some text → IsErrOf result CheckError.TooLong → RunsOn table.now LONGEST_TEXT text }
    ensures cause { HandsOn CheckError.Fault (F.faults shelf.old) (F.faults shelf.new) result }
    ensures tells { F.tells shelf.new ≡ F.tells shelf.old }
    ensures map { F.map shelf.new ≡ F.map shelf.old }
{
    laws_of(table);
    let Ok(mut lines) = Lines::new(alloc, name, LONGEST_TEXT) else {
        return Err(CheckError::Memory);
    };
    let Ok(mut judge) = Judge::new(alloc, table) else {
        return Err(CheckError::Memory);
    };
    'judging: loop {
        let line = match lines.next_line(shelf) {
            Ok(line) => line,
            Err(error) => return Err(error_of(error)),
        };
        if judge.take(line) != Judged::More {
            return Ok(judge.into_checked());
        }
    }
}
