// Pipes, and how a path uses them.

/// A pipe from one node to another, and how much it can carry.
#[derive(Clone, Copy, Debug, PartialEq, Eq)]
pub struct Pipe {
    pub from: u32,
    pub to: u32,
    pub room: u128,
}

/// One use of a pipe in a path: along it, or back.
#[derive(Clone, Copy, Debug, PartialEq, Eq)]
pub struct Use {
    pub pipe: u32,
    pub back: bool,
}
