// What commands are carried out over, and what the last one gave.
use crate::turned_shelf::TurnedShelf;
use goseed_top::{Status, run};
use seed_io::MemSink;
use seed_model::NoMemory;
use std::alloc::Global;
use volume_disk::MemRack;

/// A shelf, the calls of the sink that fail, and what the last command answered and printed.
#[derive(Drop)]
pub(crate) struct World {
    shelf: TurnedShelf,
    sink_fails: Vec<u64>,
    status: u8,
    printed: Vec<u8>,
}

/// The exit status for how a command ended.
fn code_of(status: Status) -> u8 {
    match status {
        Status::Done => 0,
        Status::No => 1,
        Status::Unfinished => 2,
        Status::Refused(_) => 3,
        Status::Outside => 4,
        Status::Memory => 5,
    }
}

impl World {
    /// An empty shelf, where these calls of it and of the sink fail.
    pub(crate) fn new(alloc: Global, shelf_fails: Vec<u64>, sink_fails: Vec<u64>) -> Self {
        World {
            shelf: TurnedShelf::new(alloc, shelf_fails),
            sink_fails,
            status: 255,
            printed: Vec::new(alloc),
        }
    }

    /// Gives a name these bytes.
    pub(crate) fn put(&mut self, name: &str, bytes: &[u8]) -> Result<(), NoMemory> {
        self.shelf.set(name, bytes)
    }

    /// Has reads of a name give these bytes, whatever is written there, or find nothing where there are none.
    pub(crate) fn turn(&mut self, name: String, bytes: &[u8]) -> Result<(), NoMemory> {
        self.shelf.turn(name, bytes)
    }

    /// The bytes of a name.
    pub(crate) fn bytes(&self, name: &str) -> Option<&[u8]> {
        self.shelf.bytes(name)
    }

    /// Carries out the command of these words.
    pub(crate) fn run(&mut self, alloc: Global, words: &[String]) -> Result<(), NoMemory> {
        let fails = Vec::from_slice(alloc, self.sink_fails.as_slice())?;
        let mut sink = MemSink::new(alloc, fails);
        let mut rack = MemRack::new(alloc, 0, 0, 0, Vec::new(alloc)).ok_or(NoMemory)?;
        self.status = code_of(run(alloc, words, &mut self.shelf, &mut sink, &mut rack));
        self.printed = Vec::from_slice(alloc, sink.taken())?;
        Ok(())
    }

    /// Whether the last command ended with this status.
    fn has_status(&self, status: &str) -> bool {
        status.parse::<u8>() == Ok(self.status)
    }

    /// Whether the last command ended with this status and printed these bytes.
    pub(crate) fn ended(&self, status: &str, printed: &[u8]) -> bool {
        self.has_status(status) && self.printed.as_slice() == printed
    }

    /// Whether the last command ended with this status and printed these bytes last.
    pub(crate) fn ended_in(&self, status: &str, printed: &[u8]) -> bool {
        self.has_status(status) && self.printed.as_slice().ends_with(printed)
    }

    /// Whether the last command ended with this status and printed these bytes first.
    pub(crate) fn began(&self, status: &str, printed: &[u8]) -> bool {
        self.has_status(status) && self.printed.as_slice().starts_with(printed)
    }
}
