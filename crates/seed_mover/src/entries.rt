// Records on their way to a volume or to the journal.

/// A record for a volume.
#[derive(Drop)]
pub(crate) enum Entry<'e> {
    /// A chunk with its name and its bytes.
    Chunk(&'e [u8; 32], &'e [u8]),
    /// A file with its name and its chunks.
    File(String, Vec<[u8; 32]>),
    /// A file that is dropped.
    DropFile(&'e str),
    /// A chunk that is dropped.
    DropChunk(&'e [u8; 32]),
}

/// A record for the journal that is its kind alone.
#[derive(Clone, Copy)]
pub(crate) enum Mark {
    Moved,
    UndoBegin,
    Undone,
    Accepted,
}

/// One of the two volumes.
#[derive(Clone, Copy)]
pub(crate) enum Side {
    A,
    B,
}
