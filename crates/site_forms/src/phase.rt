// The phases of a migration.
use crate::names::Names;

/// How far a migration has come, with the names of the files that move.
#[derive(Drop)]
pub enum Phase {
    /// No migration is open.
    Idle,
    /// The named files move from A to B.
    Moving(Names),
    /// The named files have moved.
    Moved(Names),
    /// The named files move back.
    Undoing(Names),
}
