// Places of bodies.

/// Where a body stands in a log.
#[derive(Clone, Copy, Debug, PartialEq, Eq)]
pub struct Place {
    /// The place of its first byte.
    pub at: u64,
    /// Its length in bytes, from 1 to 16,777,216.
    pub len: u32,
    /// The place of the gate behind it.
    pub next: u64,
}
