// A file that stays open while a reading goes on in it.
ghost use Rattle.std.specs.Prelude.{◌≡◌, ◌+◌, ◌<◌, ◌≤◌, ◌^◌, ◌↔◌, IsTrue, IsSome, IfSome, length};

use arrayvec::ArrayString;
use std::io::{Read, Seek};

/// The longest name that the machine takes, in bytes.
pub(crate) const LONGEST_NAME: usize = 4095;

/// An open file, the name that it was opened by, and the place that its next read begins at.
#[derive(Drop)]
pub(crate) struct OpenFile<F: Read + Seek + Drop> {
    pub(crate) name: ArrayString<LONGEST_NAME>,
    pub(crate) place: u64,
    pub(crate) file: F,
}

impl<F: Read + Seek + Drop> OpenFile<F> {
    /// A file in which some bytes were read from a place on; none where the name or the next place has no room.
    pub(crate) fn behind(name: &str, at: u64, count: usize, file: F) -> Option<Self>
        ensures some { IsSome result ↔ ((length name.now ≤ LONGEST_NAME) × (at + count < 2 ^ 64)) }
        ensures name { IfSome result (λ f. f.name.bytes ≡ name.now) }
        ensures place { IfSome result (λ f. f.place ≡ at + count) }
    {
        let place = at.checked_add(count as u64)?;
        match ArrayString::from(name) {
            Ok(name) => Some(OpenFile { name, place, file }),
            Err(_) => None,
        }
    }

    /// Whether reading a name from a place on goes on where the last read ended. A reading from place 0 never does.
    pub(crate) fn goes_on(&self, name: &str, at: u64) -> bool
        ensures { IsTrue result ↔ ((0 < at) × (self.now.place ≡ at) × (self.now.name.bytes ≡ name.now)) }
    {
        0 < at && self.place == at && self.name.as_str() == name
    }
}
