// The actions of a migration.

/// One action of a migration: one record, appended to A, to B or to the journal. A file is named by its place among the
/// names of the phase, counted from 0.
#[derive(Clone, Copy, Debug, PartialEq, Eq)]
pub enum Action {
    /// Copies a chunk of A to B.
    CopyToB([u8; 32]),
    /// Adds a file of A to B.
    AddToB(u32),
    /// Drops a file from A.
    DropFromA(u32),
    /// Drops a chunk from A.
    DropChunkA([u8; 32]),
    /// Records that all files have moved.
    Moved,
    /// Copies a chunk of B to A.
    CopyToA([u8; 32]),
    /// Adds a file of B to A.
    AddToA(u32),
    /// Drops a file from B.
    DropFromB(u32),
    /// Drops a chunk from B.
    DropChunkB([u8; 32]),
    /// Records that all files are back.
    Undone,
}
