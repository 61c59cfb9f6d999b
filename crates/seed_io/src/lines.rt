// The lines of a name's bytes, one after the other.
ghost use Rattle.std.specs.Prelude.{◌≡◌, ◌+◌, ◌<◌, ◌≤◌, ℕ, List, [], ◌++◌, true, false, length, drop, Some, None, IsSome, IfOk, OnOk, IsErrOf};
ghost use Rattle.std.specs.Borrow.{sem};
ghost use Rattle.std.specs.Io.BufRead.{Rests};
ghost use Rattle.fault_count.specs.Counts.{HasCause, HandsOn};
ghost use Rattle.seed_io.specs.Ahead.{IsLonger};
ghost use Rattle.seed_io.specs.Answered.{Shows, SamePlace, ReadsOn, EndsWithin, line_error, line_answer, kind_line, lines_behind};
ghost use Rattle.seed_io.specs.Lines.{StandsIn, GivesLine, NextLine, IsFull, lines_of, listed, line_size, is_unended};
ghost use Rattle.seed_io.specs.Shelf.{GaveMore};
ghost use Rattle.seed_io.specs.contracts.lines.Lines.{the_row};

use crate::read_ahead::{PIECE, ReadAhead};
use crate::{Shelf, ShelfError};
use memchr::memchr;
use seed_model::NoMemory;
use std::alloc::Global;
use std::marker::Model;

/// The most bytes of a line, its LF not counted.
pub const LONGEST_LINE: usize = 16384;

/// A line of a name's bytes.
#[derive(Clone, Copy, Debug)]
pub enum Line<'a> {
    /// The bytes up to an LF, without it: at most 16,384.
    Whole(&'a [u8]),
    /// More than 16,384 bytes with no LF among them.
    Wide,
    /// The bytes ended behind one or more that are no whole line.
    Unended,
}

/// Why no line was given.
#[derive(Clone, Copy, Debug, PartialEq, Eq)]
pub enum LineError {
    /// A call of the shelf failed.
    Fault,
    /// The shelf answered that the name is not there.
    NotThere,
    /// As many bytes as the limit were taken, and another was given.
    TooLong,
    /// The shelf had no memory.
    Memory,
}

/// What a line is.
#[derive(Clone, Copy)]
enum Kind {
    Whole,
    Wide,
    Unended,
}

/// What some bytes show of their first line: how many bytes it has before its LF, that it is too wide, or neither yet.
#[derive(Clone, Copy)]
enum Shown {
    Whole(usize),
    Wide,
    Open,
}

/// A reader of the lines of a name, which reads the shelf by pieces of 64 KiB. All its memory is taken when it is made.
/// A clause sees it as where it stands in the bytes of the name.
#[derive(Drop)]
pub struct Lines {
    name: String,
    limit: u64,
    place: u64,
    ahead: ReadAhead,
    is_over: bool,
}

impl Model for Lines {
    ghost use Rattle.std.specs.Prelude.{◌-◌, ◌+◌, ◌≤◌, length, take, string_bytes};
    ghost use Rattle.seed_io.specs.Lines.{Reading};

    ghost Value = { Reading };

    ghost view = { λ l. record { name = string_bytes l.name; limit = l.limit; place = l.place; held = l.ahead.held; last = take (length l.ahead.given - 1) l.ahead.given; over = l.is_over } };

    ghost invariant = { λ l. l.place + length l.ahead.held ≤ l.limit };
}

/// What bytes show of their first line.
fn line_in(bytes: &[u8]) -> Shown
    ensures { Shows result bytes.now }
{
    let front = &bytes[..bytes.len().min(LONGEST_LINE + 1)];
    match memchr(b'\n', front) {
        Some(length) => Shown::Whole(length),
        None if front.len() > LONGEST_LINE => Shown::Wide,
        None => Shown::Open,
    }
}

/// Shows that the bytes of a name end at a place, or that they are too long.
fn end_at<F: Shelf>(shelf: &mut F, name: &str, at: u64) -> Result<(), LineError>
    ensures told { F.tells shelf.old ≡ true → OnOk result (EndsWithin (F.map shelf.old) name.now at) }
    ensures long { IsErrOf result LineError.TooLong → GaveMore (F.tells shelf.old) (F.map shelf.old) name.now at }
    ensures lacks { F.tells shelf.old ≡ true → IsErrOf result LineError.NotThere → F.map shelf.old name.now ≡ None }
    ensures cause { HasCause LineError.Fault (F.faults shelf.old) (F.faults shelf.new) result }
    ensures tells { F.tells shelf.new ≡ F.tells shelf.old }
    ensures map { F.map shelf.new ≡ F.map shelf.old }
{
    let mut byte = [0u8; 1];
    match shelf.read_at(name, at, &mut byte) {
        Ok(0) => Ok(()),
        Ok(_) => Err(LineError::TooLong),
        Err(error) => Err(error_of(error)),
    }
}

/// An error of a shelf, handed on.
fn error_of(error: ShelfError) -> LineError
    ensures { result ≡ line_error error }
{
    match error {
        ShelfError::Fault => LineError::Fault,
        ShelfError::NotThere => LineError::NotThere,
        ShelfError::Memory => LineError::Memory,
    }
}

impl Lines {
    /// A reader at the beginning of a name's bytes, which takes at most `limit` of them. It calls no shelf.
    pub fn new(alloc: Global, name: &str, limit: u64) -> Result<Lines, NoMemory>
        ensures { IfOk result (λ l. l ≡ record { name = name.now; limit = limit; place = 0; held = []; last = []; over = false }) }
    {
        Ok(Lines {
            name: String::from_str(alloc, name)?,
            limit,
            place: 0,
            ahead: ReadAhead::new(alloc)?,
            is_over: false,
        })
    }

    /// Reads more bytes behind those held, at most a piece and none beyond the limit, and answers how many.
    fn fill<F: Shelf>(&mut self, shelf: &mut F) -> Result<usize, LineError>
        requires { length self.old.held ≤ LONGEST_LINE }
        ensures place { SamePlace self.old self.new }
        ensures more { IfOk result (IsLonger self.old.held self.new.held) }
        ensures told { F.tells shelf.old ≡ true → (file : List ℕ) → F.map shelf.old self.old.name ≡ Some file → StandsIn file self.old → IfOk result (λ n. ReadsOn file self.new (n ≡ 0)) }
        ensures there { F.tells shelf.old ≡ true → OnOk result (IsSome (F.map shelf.old self.old.name)) }
        ensures lacks { F.tells shelf.old ≡ true → IsErrOf result LineError.NotThere → F.map shelf.old self.old.name ≡ None }
        ensures long { IsErrOf result LineError.TooLong → GaveMore (F.tells shelf.old) (F.map shelf.old) self.old.name self.old.limit }
        ensures full { IsErrOf result LineError.TooLong → (self.new.held ≡ self.old.held) × (self.old.place + length self.old.held ≡ self.old.limit) }
        ensures cause { HasCause LineError.Fault (F.faults shelf.old) (F.faults shelf.new) result }
        ensures tells { F.tells shelf.new ≡ F.tells shelf.old }
        ensures map { F.map shelf.new ≡ F.map shelf.old }
    {
        let at = self.place + self.ahead.held().len() as u64;
        if at == self.limit {
            end_at(shelf, self.name.as_str(), at)?;
            return Ok(0);
        }
        let most = (self.limit - at).min(PIECE as u64) as usize;
        match self.ahead.read_more(shelf, self.name.as_str(), at, most) {
            Ok(count) => return Ok(count),
            Err(error) => return Err(error_of(error)),
        }
    }

    /// Reads until the bytes held show their first line, or the name's bytes end.
    fn read_line<F: Shelf>(&mut self, shelf: &mut F) -> Result<Shown, LineError>
        ensures place { SamePlace self.old self.new }
        ensures shows { IfOk result (λ s. Shows s self.new.held) }
        ensures told { F.tells shelf.old ≡ true → (file : List ℕ) → F.map shelf.old self.old.name ≡ Some file → StandsIn file self.old → IfOk result (λ s. ReadsOn file self.new (s ≡ Shown.Open)) }
        ensures there { F.tells shelf.old ≡ true → self.old.held ≡ [] → OnOk result (IsSome (F.map shelf.old self.old.name)) }
        ensures lacks { F.tells shelf.old ≡ true → IsErrOf result LineError.NotThere → F.map shelf.old self.old.name ≡ None }
        ensures long { IsErrOf result LineError.TooLong → GaveMore (F.tells shelf.old) (F.map shelf.old) self.old.name self.old.limit }
        ensures full { IsErrOf result LineError.TooLong → IsFull self.new }
        ensures stays { F.tells shelf.old ≡ true → (file : List ℕ) → F.map shelf.old self.old.name ≡ Some file → StandsIn file self.old → IsErrOf result LineError.TooLong → StandsIn file self.new }
        ensures cause { HandsOn LineError.Fault (F.faults shelf.old) (F.faults shelf.new) result }
        ensures tells { F.tells shelf.new ≡ F.tells shelf.old }
        ensures map { F.map shelf.new ≡ F.map shelf.old }
    {
        'reading: loop {
            let shown = line_in(self.ahead.held());
            match shown {
                Shown::Open => {}
                _ => return Ok(shown),
            }
            if self.fill(shelf)? == 0 {
                return Ok(Shown::Open);
            }
        }
    }

    /// Gives the line that the bytes held show; where they show none, they are the last.
    fn settle(&mut self, shown: Shown) -> Option<Kind>
        requires shows { Shows shown self.old.held }
        requires goes_on { self.old.over ≡ false }
        ensures name { self.new.name ≡ self.old.name }
        ensures limit { self.new.limit ≡ self.old.limit }
        ensures gives { GivesLine self.old self.new (kind_line self.new.last result) }
        ensures left { self.new.held ≡ drop (line_size (kind_line self.new.last result)) self.old.held }
        ensures within { line_size (kind_line self.new.last result) ≤ length self.old.held }
        ensures room { self.old.place + length self.old.held ≤ self.old.limit }
        ensures ends { is_unended (kind_line self.new.last result) ≡ true → shown ≡ Shown.Open }
        ensures lines { (more : List ℕ) → (shown ≡ Shown.Open → more ≡ []) → lines_of (self.old.held ++ more) ≡ listed (kind_line self.new.last result) ++ lines_behind self.new more }
    {
        match shown {
            Shown::Whole(length) => {
                self.ahead.give(length + 1);
                self.place += length as u64 + 1;
                Some(Kind::Whole)
            }
            Shown::Wide => {
                self.is_over = true;
                Some(Kind::Wide)
            }
            Shown::Open => {
                self.is_over = true;
                if self.ahead.held().is_empty() {
                    None
                } else {
                    Some(Kind::Unended)
                }
            }
        }
    }

    /// The last whole line, without its LF.
    fn last_line(&self) -> &[u8]
        ensures { result.now ≡ self.now.last }
    {
        let given = self.ahead.given();
        &given[..given.len().saturating_sub(1)]
    }

    /// The next line of the name's bytes. None comes at their end, and for ever after that, after a line that is not
    /// whole and after an error. It takes no memory but the shelf's, and leaves the shelf as it was, but for its count
    /// of faults.
    pub fn next_line<F: Shelf>(&mut self, shelf: &mut F) -> Result<Option<Line<'_>>, LineError>
        ensures* next { sem 𝓛 (Rests the_row self.entry (λ new. NextLine (F.tells shelf.old) (F.map shelf.old) self.old new (line_answer result))) }
        ensures there { F.tells shelf.old ≡ true → self.old.held ≡ [] → self.old.over ≡ false → OnOk result (IsSome (F.map shelf.old self.old.name)) }
        ensures lacks { F.tells shelf.old ≡ true → IsErrOf result LineError.NotThere → F.map shelf.old self.old.name ≡ None }
        ensures long { IsErrOf result LineError.TooLong → GaveMore (F.tells shelf.old) (F.map shelf.old) self.old.name self.old.limit }
        ensures cause { HandsOn LineError.Fault (F.faults shelf.old) (F.faults shelf.new) result }
        ensures tells { F.tells shelf.new ≡ F.tells shelf.old }
        ensures map { F.map shelf.new ≡ F.map shelf.old }
    {
        if self.is_over {
            return Ok(None);
        }
        let shown = match self.read_line(shelf) {
            Ok(shown) => shown,
            Err(error) => {
                self.is_over = true;
                return Err(error);
            }
        };
        match self.settle(shown) {
            None => Ok(None),
            Some(Kind::Wide) => Ok(Some(Line::Wide)),
            Some(Kind::Unended) => Ok(Some(Line::Unended)),
            Some(Kind::Whole) => Ok(Some(Line::Whole(self.last_line()))),
        }
    }
}
