// Rows as text, one at a time.
ghost use Rattle.std.specs.Prelude.{◌≡◌, [], Some, None, IfOk, IsErr, OnOk, OnErr, map};
ghost use Rattle.csv.specs.Writing.{default_writer, row_text};
ghost use Rattle.csv_rows.specs.Written.{with_more};

use csv::{Writer, WriterBuilder};
use seed_model::NoMemory;
use std::alloc::Global;
use std::marker::Model;

/// The text of the rows so far, of any lengths: commas between fields, a line feed behind each row, and quotes where a
/// field needs them. A row of no fields is written as one empty field. Where memory ran out, the text is given up.
#[derive(Drop)]
pub struct RowWriter {
    writer: Writer<Vec<u8>>,
    given_up: bool,
}

impl Model for RowWriter {
    ghost use Rattle.std.specs.Prelude.{◌≡◌, List, ℕ, Option, Some, None, false, if◌then◌else◌};

    ghost Value = { Option (List ℕ) };

    ghost use Rattle.csv_rows.specs.Written.{text_of, IsFresh};

    ghost view = { λ a. if a.given_up then None else Some (text_of a.writer) };

    ghost invariant = { λ a. a.given_up ≡ false → IsFresh a.writer };
}

impl RowWriter {
    /// No rows yet.
    pub fn new(alloc: Global) -> Self
        ensures { result ≡ Some [] }
    {
        let writer = WriterBuilder::new()
            .flexible(true)
            .from_writer(Vec::new(alloc));
        RowWriter {
            writer,
            given_up: false,
        }
    }

    /// Adds a row of any number of fields. After an error the text is given up: no more rows are taken, and `finish`
    /// answers an error too.
    pub fn row(&mut self, fields: &[&[u8]]) -> Result<(), NoMemory>
        ensures ok { OnOk result (self.new ≡ with_more self.old (row_text default_writer (map (λ f. f.now) fields.now))) }
        ensures err { OnErr result (self.new ≡ None) }
        ensures given_up { self.old ≡ None → IsErr result }
    {
        if self.given_up {
            return Err(NoMemory);
        }
        let Ok(()) = self.writer.write_fields(fields) else {
            self.given_up = true;
            return Err(NoMemory);
        };
        Ok(())
    }

    /// The whole text; an error where it was given up.
    pub fn finish(self) -> Result<Vec<u8>, NoMemory>
        ensures ok { IfOk result (λ text. self ≡ Some text.items) }
        ensures given_up { self ≡ None → IsErr result }
    {
        let RowWriter { writer, given_up } = self;
        if given_up {
            return Err(NoMemory);
        }
        match writer.into_inner() {
            Ok(text) => Ok(text),
            Err(_) => Err(NoMemory),
        }
    }
}
