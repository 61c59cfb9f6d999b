// How a command ended.

/// How a command ended.
#[derive(Clone, Copy, Debug, PartialEq, Eq)]
pub enum Status {
    /// The command did what it is for.
    Done,
    /// The command's answer is no.
    No,
    /// The budget was spent before the answer was found.
    Unfinished,
    /// The command was refused, for the cause with this number.
    Refused(u8),
    /// A call of the shelf or of the sink failed.
    Outside,
    /// Memory ran out.
    Memory,
}
