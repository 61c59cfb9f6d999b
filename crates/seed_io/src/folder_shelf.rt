// Names as paths from the current folder.
ghost use Rattle.std.specs.Prelude.{◌≡◌, ◌≤◌, ◌+◌, false, None, IfOk, IfSome, OnErr};
ghost use Rattle.std.specs.Io.{ReadsAtMost};
ghost use Rattle.fault_count.specs.Counts.{counted_up};
ghost use Rattle.seed_io.specs.declared.shelf.ShelfError.TheVariants.{Fault};

use crate::open_file::OpenFile;
use crate::streams::{read_some, write_front};
use crate::{Shelf, ShelfError};
use fault_count::FaultTally;
use std::fs::{File, OpenOptions};
use std::io;
use std::io::{Error, ErrorKind, Seek, SeekFrom};
use std::rt::Files;

/// The files of the machine, each name a path from the current folder. It tells nothing: that the files do what they
/// are told is trusted. Only a missing file is not there; an empty name, and anything else that the host refuses, is a
/// fault. A call that a signal interrupted is tried again.
///
/// A read that begins where the last one of this shelf, of the same name, ended goes on in the same open file, and seeks
/// nothing. So what is read piece by piece is one file to its end, also where another takes its name meanwhile, and may
/// be a pipe. Each other read opens the name anew.
#[derive(Drop)]
pub struct FolderShelf<'r, R: Files> {
    rt: &'r R,
    kept: Option<OpenFile<R::File>>,
    tally: FaultTally,
}

impl<'r, R: Files> FolderShelf<'r, R> {
    ghost use Rattle.seed_io.specs.Held.{folder_faults};

    /// A shelf with no fault yet. It touches nothing outside.
    pub fn new(rt: &'r R) -> Self
        ensures { folder_faults result ≡ 0 }
    {
        FolderShelf {
            rt,
            kept: None,
            tally: FaultTally::new(),
        }
    }

    /// A call that the host refused.
    fn fault(&mut self) -> ShelfError
        ensures fault { result ≡ Fault }
        ensures counted { self.new.tally ≡ counted_up self.old.tally }
    {
        self.tally.raise();
        ShelfError::Fault
    }
}

/// The file of a name, at a place. A file that is read from its beginning need not be one that can be sought in.
fn open_at<R: Files>(rt: &R, name: &str, at: u64) -> io::Result<R::File> {
    if name.is_empty() {
        return Err(Error::from(ErrorKind::InvalidInput));
    }
    let mut file = File::open(rt, name)?;
    if 0 < at {
        file.seek(SeekFrom::Start(at))?;
    }
    Ok(file)
}

/// Reads bytes of a name from a place on, in the file that is open where the reading goes on in it, and keeps the file
/// that was read open. After an error none is.
fn read_piece<R: Files>(
    rt: &R,
    kept: &mut Option<OpenFile<R::File>>,
    name: &str,
    at: u64,
    into: &mut [u8],
) -> io::Result<usize>
    ensures bound { ReadsAtMost result into.new }
    ensures name { IfOk result (λ n. IfSome kept.new (λ f. f.name.bytes ≡ name.now)) }
    ensures place { IfOk result (λ n. IfSome kept.new (λ f. f.place ≡ at + n)) }
    ensures none { OnErr result (kept.new ≡ None) }
{
    let mut file = match kept.take() {
        Some(last) if last.goes_on(name, at) => last.file,
        _ => open_at(rt, name, at)?,
    };
    let count = read_some(&mut file, into)?;
    *kept = OpenFile::behind(name, at, count, file);
    Ok(count)
}

/// Adds bytes to the file of a name, or makes it, and says whether all were taken.
fn append_to<R: Files>(rt: &R, name: &str, bytes: &[u8]) -> bool {
    let opened = OpenOptions::new().append(true).create(true).open(rt, name);
    match opened {
        Ok(mut file) => write_front(&mut file, bytes) == bytes.len(),
        Err(_) => false,
    }
}

impl<'r, R: Files> Shelf for FolderShelf<'r, R> {
    ghost use Rattle.seed_io.specs.Held.{folder_faults};

    ghost tells = { λ s. false };

    ghost map = { λ s name. None };

    ghost faults = { folder_faults };

    fn read_at(&mut self, name: &str, at: u64, into: &mut [u8]) -> Result<usize, ShelfError> {
        if self.tally.is_over() {
            return Err(ShelfError::Fault);
        }
        match read_piece(self.rt, &mut self.kept, name, at, into) {
            Ok(count) => Ok(count),
            Err(e) if e.kind() == ErrorKind::NotFound => Err(ShelfError::NotThere),
            Err(_) => Err(self.fault()),
        }
    }

    fn create(&mut self, name: &str) -> Result<(), ShelfError> {
        if self.tally.is_over() {
            return Err(ShelfError::Fault);
        }
        self.kept = None;
        match File::create(self.rt, name) {
            Ok(_) => Ok(()),
            Err(_) => Err(self.fault()),
        }
    }

    fn append(&mut self, name: &str, bytes: &[u8]) -> Result<(), ShelfError> {
        if self.tally.is_over() {
            return Err(ShelfError::Fault);
        }
        self.kept = None;
        if append_to(self.rt, name, bytes) {
            Ok(())
        } else {
            Err(self.fault())
        }
    }
}
