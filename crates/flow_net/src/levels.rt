// Levels by breadth.
ghost use Rattle.std.specs.Prelude.{◌≡◌, ◌≢◌, ℕ, ◌+◌, ◌-◌, ◌*◌, ◌^◌, ◌<◌, ◌≤◌, Bool, length, slice_index, slice_index_or};
ghost use Rattle.flow_net.specs.Nets.{IsNet, pipe_at};
ghost use Rattle.flow_net.specs.Links.{link_at};
ghost use Rattle.flow_net.specs.Levels.{IsQueue, IsReached, Spreads, LeadsFar, IsNext, IsSearched, level_of, unreached};
ghost use Rattle.flow_net.specs.Runs.{IsProblem};

use crate::amounts::{Filling, left};
use crate::links::Link;
use crate::pipes::{Pipe, Use};
use crate::problem::Problem;

/// What a search looks at: uses that can carry at least so much more than the amounts, along their way or, backward,
/// against it.
#[derive(Clone, Copy)]
pub(crate) struct Sought<'a> {
    pub filling: &'a Filling,
    pub power: u128,
    pub backward: bool,
}

/// The level of a node that no search reached.
pub(crate) const UNREACHED: u32 = u32::MAX;

/// Forgets all levels.
fn clear(levels: &mut [u32])
    ensures { (v : ℕ) → level_of levels.new v ≡ unreached }
{
    for level in levels.iter_mut() {
        *level = UNREACHED;
    }
}

/// Reaches at one level above a node's own the far nodes of its links that lead on with enough left and that are new,
/// and answers how many nodes are in the queue.
fn spread(
    pipes: &[Pipe],
    sought: &Sought,
    row: &[Link],
    level: u32,
    levels: &mut [u32],
    queue: &mut [u32],
    count: usize,
) -> usize
    requires of_net { length sought.now.filling.now.amounts ≡ length pipes.now }
    requires links { (k : ℕ) → k < length row.now →
        ((link_at row.now k).pipe < length pipes.now) × ((link_at row.now k).far < length levels.old) }
    requires few { length levels.old < unreached }
    requires each { length queue.old ≡ length levels.old }
    requires level { level + 1 ≤ count }
    requires queue { IsQueue (length levels.old) levels.old queue.old count }
    ensures queue { IsQueue (length levels.old) levels.new queue.new result }
    ensures spreads { Spreads
        (IsNext pipes.now sought.now.filling.now.amounts sought.now.power sought.now.backward
        row.now (length row.now))
        level levels.old levels.new queue.old queue.new count result }
    ensures crossed { (k : ℕ) → k < length row.now →
        LeadsFar pipes.now sought.now.filling.now.amounts sought.now.power sought.now.backward
        (link_at row.now k) →
        IsReached levels.new (link_at row.now k).far }
{
    let mut filled = count;
    for link in row {
        let across = Use {
            pipe: link.pipe,
            back: link.back != sought.backward,
        };
        if levels[link.far as usize] == UNREACHED
            && sought.power <= left(pipes, sought.filling, across)
        {
            levels[link.far as usize] = level + 1;
            queue[filled] = link.far;
            filled += 1;
        }
    }
    filled
}

/// Searches by breadth from the source over links with enough left, and says whether the sink was reached. The sink's
/// own links are not followed. A search back from the sink takes the problem with source and sink changed over.
pub(crate) fn search(
    problem: &Problem,
    sought: &Sought,
    levels: &mut [u32],
    queue: &mut [u32],
) -> bool
    requires of_net { length sought.now.filling.now.amounts ≡ length problem.now.net.now.pipes }
    requires lawful { IsProblem problem.now }
    requires levels { length levels.old ≡ problem.now.net.now.nodes }
    requires queue { length queue.old ≡ problem.now.net.now.nodes }
    ensures { IsSearched problem.now.net.now.pipes sought.now.filling.now.amounts
        sought.now.power sought.now.backward problem.now.source problem.now.sink levels.new result }
{
    let pipes = problem.net.pipes();
    clear(levels);
    levels[problem.source as usize] = 0;
    queue[0] = problem.source;
    let mut count = 1;
    let mut head = 0;
    while head < count {
        let node = queue[head];
        head += 1;
        if node != problem.sink {
            let level = levels[node as usize];
            let row = problem.adjacency.list(node);
            count = spread(pipes, sought, row, level, levels, queue, count);
        }
    }
    levels[problem.sink as usize] != UNREACHED
}
