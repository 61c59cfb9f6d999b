// A shelf that may give back another text than was written.
use seed_io::{MemShelf, Shelf, ShelfError};
use seed_model::NoMemory;
use std::alloc::Global;

/// The name whose bytes are read in place of those of the turned name.
const GIVEN: &str = "given instead";

/// Byte strings in memory, but that reads of one name may give what another has. What it gives, it does not tell.
#[derive(Drop)]
pub(crate) struct TurnedShelf {
    files: MemShelf,
    turned: Option<String>,
}

impl TurnedShelf {
    /// No names yet; these calls of the shelf fail.
    pub(crate) fn new(alloc: Global, fails: Vec<u64>) -> Self {
        TurnedShelf {
            files: MemShelf::new(alloc, fails),
            turned: None,
        }
    }

    /// Gives a name these bytes. It is no call of the shelf.
    pub(crate) fn set(&mut self, name: &str, bytes: &[u8]) -> Result<(), NoMemory> {
        self.files.set(name, bytes)
    }

    /// The bytes of a name.
    pub(crate) fn bytes(&self, name: &str) -> Option<&[u8]> {
        self.files.bytes(name)
    }

    /// Has reads of a name give these bytes, whatever is written there, or find nothing where there are none.
    pub(crate) fn turn(&mut self, name: String, bytes: &[u8]) -> Result<(), NoMemory> {
        if !bytes.is_empty() {
            self.files.set(GIVEN, bytes)?;
        }
        self.turned = Some(name);
        Ok(())
    }

    /// Whether reads of a name give what another has.
    fn turns(&self, name: &str) -> bool {
        match &self.turned {
            Some(turned) => turned.as_str() == name,
            None => false,
        }
    }
}

impl Shelf for TurnedShelf {
    ghost use Rattle.std.specs.Prelude.{false};
    ghost use Rattle.seed_io.specs.Held.{shelf_map, shelf_plan};

    ghost tells = { λ s. false };

    ghost map = { λ s. shelf_map s.files };

    ghost faults = { λ s. (shelf_plan s.files).faults };

    fn read_at(&mut self, name: &str, at: u64, into: &mut [u8]) -> Result<usize, ShelfError> {
        if self.turns(name) {
            return self.files.read_at(GIVEN, at, into);
        }
        self.files.read_at(name, at, into)
    }

    fn create(&mut self, name: &str) -> Result<(), ShelfError> {
        self.files.create(name)
    }

    fn append(&mut self, name: &str, bytes: &[u8]) -> Result<(), ShelfError> {
        self.files.append(name, bytes)
    }
}
