// Lists that a run writes.
ghost use Rattle.std.specs.Prelude.{◌≡◌, length, IfOk};
ghost use Rattle.flow_net.specs.Runs.{IsScratchFor};

use crate::pipes::Use;
use seed_model::NoMemory;
use std::alloc::Global;

/// Lists that searches and walks write, with one place for each node.
#[derive(Drop)]
pub(crate) struct Scratch {
    /// The level of each node, by the last search.
    pub levels: Vec<u32>,
    /// The nodes that a search reached, in the order in which it did.
    pub queue: Vec<u32>,
    /// How many of each node's links were passed.
    pub next: Vec<u32>,
    /// The uses of a path, by level.
    pub path: Vec<Use>,
}

impl Scratch {
    /// Lists for so many nodes, of zeros.
    pub fn of(alloc: Global, nodes: usize) -> Result<Scratch, NoMemory>
        ensures { IfOk result (λ made. IsScratchFor nodes made) }
    {
        let unused = Use {
            pipe: 0,
            back: false,
        };
        Ok(Scratch {
            levels: vec![in alloc; 0u32; nodes]?,
            queue: vec![in alloc; 0u32; nodes]?,
            next: vec![in alloc; 0u32; nodes]?,
            path: vec![in alloc; unused; nodes]?,
        })
    }
}
