// Which of its crash images a device becomes.

/// What a crash leaves at each place that is free, because a write or a cut since the last sync covered it. A place
/// with no byte of the wanted kind holds 0.
#[derive(Clone, Copy, Debug, PartialEq, Eq)]
pub enum Pick {
    /// The synced byte, and the least size since the last sync.
    Old,
    /// The newest written byte, and the greatest size.
    New,
    /// This byte, and the greatest size.
    Junk(u8),
}
