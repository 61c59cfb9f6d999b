// Bytes that are read ahead of what is asked for.
ghost use Rattle.std.specs.Prelude.{◌≡◌, ◌+◌, ◌≤◌, [], true, ◌-◌, length, take, drop, slice_range, None, IfOk, OnErr, IsErrOf};
ghost use Rattle.fault_count.specs.Counts.{HasCause};
ghost use Rattle.seed_io.specs.Ahead.{IsLonger, Grows};
ghost use Rattle.seed_io.specs.Shelf.{Gives};
ghost use Rattle.seed_io.specs.declared.shelf.ShelfError.TheVariants.{Fault, NotThere};

use crate::{Shelf, ShelfError};
use seed_model::NoMemory;
use std::alloc::Global;
use std::marker::Model;

/// The most bytes that are asked for in one call of a shelf.
pub(crate) const PIECE: usize = 65536;

/// The most bytes that may be held where more are asked for.
pub(crate) const MOST_HELD: usize = 16384;

/// Room for the bytes held and a piece behind them.
const ROOM: usize = MOST_HELD + PIECE;

/// The bytes that were given last, and those that are held behind them, in one room that is never made larger.
#[derive(Drop)]
pub(crate) struct ReadAhead {
    room: Vec<u8>,
    start: usize,
    split: usize,
    end: usize,
}

impl Model for ReadAhead {
    ghost use Rattle.std.specs.Prelude.{◌≡◌, ◌≤◌, length, slice_range};
    ghost use Rattle.seed_io.specs.Ahead.{Ahead};

    ghost Value = { Ahead };

    ghost view = { λ a. record { given = slice_range a.room.items a.start a.split; held = slice_range a.room.items a.split a.end } };

    ghost invariant = { λ a. (a.start ≤ a.split) × (a.split ≤ a.end) × (a.end ≤ length a.room.items) × (length a.room.items ≡ 81920) };
}

impl ReadAhead {
    /// Nothing given and nothing held. All memory is taken here.
    pub(crate) fn new(alloc: Global) -> Result<Self, NoMemory>
        ensures { IfOk result (λ a. a ≡ record { given = []; held = [] }) }
    {
        Ok(ReadAhead {
            room: vec![in alloc; 0u8; ROOM]?,
            start: 0,
            split: 0,
            end: 0,
        })
    }

    /// The bytes held.
    pub(crate) fn held(&self) -> &[u8]
        ensures { result.now ≡ self.now.held }
    {
        &self.room[self.split..self.end]
    }

    /// The bytes given last.
    pub(crate) fn given(&self) -> &[u8]
        ensures { result.now ≡ self.now.given }
    {
        &self.room[self.start..self.split]
    }

    /// Gives the first bytes of those held.
    pub(crate) fn give(&mut self, count: usize)
        requires { count ≤ length self.old.held }
        ensures { self.new ≡ record { given = take count self.old.held; held = drop count self.old.held } }
    {
        self.start = self.split;
        self.split += count;
    }

    /// Reads bytes of a name from a place on, at most `most`, behind those held, and answers how many.
    pub(crate) fn read_more<F: Shelf>(
        &mut self,
        shelf: &mut F,
        name: &str,
        at: u64,
        most: usize,
    ) -> Result<usize, ShelfError>
        requires held { length self.old.held ≤ MOST_HELD }
        requires most { most ≤ PIECE }
        ensures bound { IfOk result (λ n. n ≤ most) }
        ensures more { IfOk result (IsLonger self.old.held self.new.held) }
        ensures same { OnErr result (self.new.held ≡ self.old.held) }
        ensures told { F.tells shelf.old ≡ true → IfOk result (Grows (F.map shelf.old) name.now at most self.old.held self.new.held) }
        ensures lacks { F.tells shelf.old ≡ true → IsErrOf result NotThere → F.map shelf.old name.now ≡ None }
        ensures cause { HasCause Fault (F.faults shelf.old) (F.faults shelf.new) result }
        ensures tells { F.tells shelf.new ≡ F.tells shelf.old }
        ensures map { F.map shelf.new ≡ F.map shelf.old }
    {
        to_front(&mut self.room, self.split, self.end);
        self.end -= self.split;
        self.start = 0;
        self.split = 0;
        let count = read_into(shelf, name, at, &mut self.room, self.end, most)?;
        self.end += count;
        Ok(count)
    }
}

/// Moves a part of a room to its front.
fn to_front(room: &mut [u8], start: usize, end: usize)
    requires order { start ≤ end }
    requires within { end ≤ length room.old }
    ensures { take (end - start) room.new ≡ slice_range room.old start end }
{
    room.copy_within(start..end, 0);
}

/// Reads bytes of a name from a place on into a room from `end` on, at most `most`, and answers how many.
fn read_into<F: Shelf>(
    shelf: &mut F,
    name: &str,
    at: u64,
    room: &mut [u8],
    end: usize,
    most: usize,
) -> Result<usize, ShelfError>
    requires { end + most ≤ length room.old }
    ensures bound { IfOk result (λ n. n ≤ most) }
    ensures same { take end room.new ≡ take end room.old }
    ensures part { length (slice_range room.new end (end + most)) ≡ most }
    ensures told { F.tells shelf.old ≡ true → IfOk result (Gives (F.map shelf.old) name.now at (slice_range room.new end (end + most))) }
    ensures lacks { F.tells shelf.old ≡ true → IsErrOf result NotThere → F.map shelf.old name.now ≡ None }
    ensures cause { HasCause Fault (F.faults shelf.old) (F.faults shelf.new) result }
    ensures tells { F.tells shelf.new ≡ F.tells shelf.old }
    ensures map { F.map shelf.new ≡ F.map shelf.old }
{
    shelf.read_at(name, at, &mut room[end..end + most])
}
