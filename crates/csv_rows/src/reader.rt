// The rows of a text, one at a time.
ghost use Rattle.std.specs.Prelude.{◌≡◌, ◌≤◌, ◌∷◌, [], length, true, false, Some, IfOk, OnErr};
ghost use Rattle.csv.specs.Reading.{error_kind};
ghost use Rattle.csv.specs.Records.{fields_of};
ghost use Rattle.csv_rows.specs.Found.{RowTaken};
ghost use Rattle.csv_rows.specs.Left.{IsBetween, rows_left};
ghost use Rattle.csv_rows.specs.Rows.{rows_of};
ghost use Rattle.csv_rows.specs.Wants.{IsWantOfMemory};

use crate::plain::{skip_line_feeds, take_fields, without_mark};
use csv::{ByteRecord, Error, ErrorKind, Reader, ReaderBuilder};
use seed_model::NoMemory;
use std::alloc::Global;
use std::marker::Model;

/// The rows of a text that are left: no header row, rows of any lengths, no trimming. Rows with no quote and no CR are
/// told by their commas and line feeds; from the first other row on, `csv` reads.
#[derive(Drop)]
pub struct RowReader<'t> {
    plain: Option<&'t [u8]>,
    reader: Reader<&'t [u8]>,
    alloc: Global,
    done: bool,
}

impl<'t> Model for RowReader<'t> {
    ghost use Rattle.std.specs.Prelude.{◌≡◌, [], List, ℕ, false, if◌then◌else◌};

    ghost Value = { List (List (List ℕ)) };

    ghost use Rattle.csv_rows.specs.Left.{rows_of_both, IsBetween};

    ghost view = { λ a. if a.done then [] else rows_of_both a.plain a.reader };

    ghost invariant = { λ a. a.done ≡ false → IsBetween a.reader };
}

impl<'t> RowReader<'t> {
    /// All rows of a text are left, each of which takes a byte of it at least.
    pub fn new(alloc: Global, text: &'t [u8]) -> Self
        ensures rows { result ≡ rows_of text.now }
        ensures few { length result ≤ length text.now }
    {
        RowReader {
            plain: Some(text),
            reader: reader_of(alloc, text),
            alloc,
            done: false,
        }
    }

    /// Puts the next row into `row`, in place of what it held, and says whether there was one. After an error none is
    /// left.
    pub fn next_row(&mut self, row: &mut ByteRecord) -> Result<bool, NoMemory>
        ensures ok { IfOk result (λ found. RowTaken found self.old self.new (fields_of row.new)) }
        ensures err { OnErr result (self.new ≡ []) }
    {
        let Some(text) = self.plain else {
            return self.read_on(row);
        };
        if self.done {
            return Ok(false);
        }
        let left = skip_line_feeds(without_mark(text));
        if left.is_empty() {
            self.done = true;
            return Ok(false);
        }
        match take_fields(left, row) {
            Ok(Some(behind)) => {
                self.plain = Some(behind);
                Ok(true)
            }
            Ok(None) => self.read_on(row),
            Err(NoMemory) => {
                self.done = true;
                Err(NoMemory)
            }
        }
    }

    // The same by `csv`, which reads from here on.
    fn read_on(&mut self, row: &mut ByteRecord) -> Result<bool, NoMemory>
        ensures ok { IfOk result (λ found. RowTaken found self.old self.new (fields_of row.new)) }
        ensures err { OnErr result (self.new ≡ []) }
    {
        if self.done {
            return Ok(false);
        }
        if let Some(text) = self.plain {
            self.reader = reader_of(self.alloc, text);
            self.plain = None;
        }
        let Ok(found) = read_row(&mut self.reader, row) else {
            self.done = true;
            return Err(NoMemory);
        };
        self.done = !found;
        Ok(found)
    }
}

// Puts the next row of a reader into `row`, in place of what it held, and says whether there was one.
fn read_row(reader: &mut Reader<&[u8]>, row: &mut ByteRecord) -> Result<bool, NoMemory>
    requires { IsBetween reader.old }
    ensures row { IfOk result (λ found. found ≡ true → rows_left (λ s. Some s.now) reader.old ≡ fields_of row.new ∷ rows_left (λ s. Some s.now) reader.new) }
    ensures none { IfOk result (λ found. found ≡ false → rows_left (λ s. Some s.now) reader.old ≡ []) }
    ensures between { IfOk result (λ found. found ≡ true → IsBetween reader.new) }
{
    match reader.read_byte_record(row) {
        Ok(found) => Ok(found),
        Err(error) => Err(no_memory(error)),
    }
}

// A reader of a text by `csv`.
fn reader_of(alloc: Global, text: &[u8]) -> Reader<&[u8]>
    ensures rows { rows_left (λ s. Some s.now) result ≡ rows_of text.now }
    ensures between { IsBetween result }
{
    ReaderBuilder::new()
        .has_headers(false)
        .flexible(true)
        .from_reader(alloc, text)
}

// The only error there is where rows may have any lengths and any bytes.
fn no_memory(error: Error) -> NoMemory
    requires { IsWantOfMemory (error_kind error) }
{
    match error.into_kind() {
        ErrorKind::OutOfMemory | ErrorKind::Io(_) => NoMemory,
        _ => unreachable!(),
    }
}
