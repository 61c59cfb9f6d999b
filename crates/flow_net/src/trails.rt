// Paths along rising levels.
ghost use Rattle.std.specs.Prelude.{◌≡◌, ◌≢◌, ℕ, ◌+◌, ◌-◌, ◌*◌, ◌^◌, ◌<◌, ◌≤◌, Bool, true, false, length, slice_index, slice_index_or};
ghost use Rattle.flow_net.specs.Nets.{IsNet, pipe_at};
ghost use Rattle.flow_net.specs.Paths.{end_of};
ghost use Rattle.flow_net.specs.Links.{row_of, link_at};
ghost use Rattle.flow_net.specs.Levels.{level_of, unreached};
ghost use Rattle.flow_net.specs.Runs.{IsProblem};
ghost use Rattle.flow_net.specs.Trails.{IsGood, IsTrail, IsLevelled, IsLifted, IsWalk, AreBounded, HaveWays};

use crate::amounts::left;
use crate::levels::{Sought, UNREACHED};
use crate::links::Link;
use crate::pipes::{Pipe, Use};
use crate::problem::Problem;

/// The place, from one on, of the first link of a node against which a use leads to it from one level below with
/// enough left; the number of links where there is none.
fn next_place(
    pipes: &[Pipe],
    sought: &Sought,
    levels: &[u32],
    level: u32,
    row: &[Link],
    from: usize,
) -> usize
    requires of_net { length sought.now.filling.now.amounts ≡ length pipes.now }
    requires links { (k : ℕ) → k < length row.now →
        ((link_at row.now k).pipe < length pipes.now) × ((link_at row.now k).far < length levels.now) }
    requires level { 1 ≤ level }
    requires from { from ≤ length row.now }
    ensures behind { from ≤ result }
    ensures within { result ≤ length row.now }
    ensures good { result < length row.now →
        IsGood pipes.now sought.now.filling.now.amounts sought.now.power levels.now level
        (link_at row.now result) }
    ensures first { (k : ℕ) → from ≤ k → k < result →
        ¬ IsGood pipes.now sought.now.filling.now.amounts sought.now.power levels.now level
        (link_at row.now k) }
{
    for place in from..row.len() {
        let link = row[place];
        let against = Use {
            pipe: link.pipe,
            back: !link.back,
        };
        if levels[link.far as usize] == level - 1
            && sought.power <= left(pipes, sought.filling, against)
        {
            return place;
        }
    }
    row.len()
}

/// The node at which a use ends.
fn end_node(pipes: &[Pipe], last: Use) -> u32
    requires { last.pipe < length pipes.now }
    ensures { result ≡ end_of pipes.now last }
{
    let pipe = pipes[last.pipe as usize];
    if last.back { pipe.from } else { pipe.to }
}

/// One level above the least from which a use with enough left leads to a node, whose row this is.
fn level_above(pipes: &[Pipe], sought: &Sought, levels: &[u32], row: &[Link]) -> u32
    requires of_net { length sought.now.filling.now.amounts ≡ length pipes.now }
    requires links { (k : ℕ) → k < length row.now →
        ((link_at row.now k).pipe < length pipes.now) × ((link_at row.now k).far < length levels.now) }
    ensures { 1 ≤ result }
{
    let mut least = UNREACHED;
    for link in row {
        let against = Use {
            pipe: link.pipe,
            back: !link.back,
        };
        let level = levels[link.far as usize];
        if level < least && sought.power <= left(pipes, sought.filling, against) {
            least = level;
        }
    }
    least.saturating_add(1)
}

/// Lifts a node one level above the least from which it can be reached, and puts its pointer back. This is one step of
/// the work, and one more for each eight links of its row.
pub(crate) fn lift(
    problem: &Problem,
    sought: &Sought,
    levels: &mut [u32],
    next: &mut [u32],
    node: u32,
    work: &mut u64,
)
    requires of_net { length sought.now.filling.now.amounts ≡ length problem.now.net.now.pipes }
    requires lawful { IsProblem problem.now }
    requires levels { length levels.old ≡ problem.now.net.now.nodes }
    requires next { length next.old ≡ problem.now.net.now.nodes }
    requires node { node < problem.now.net.now.nodes }
    requires bounded { AreBounded problem.now.net.now.nodes problem.now.adjacency.now next.old }
    requires work { 1 ≤ work.old }
    ensures lifted { IsLifted node levels.old levels.new }
    ensures bounded { AreBounded problem.now.net.now.nodes problem.now.adjacency.now next.new }
    ensures work { work.new < work.old }
{
    let row = problem.adjacency.list(node);
    levels[node as usize] = level_above(problem.net.pipes(), sought, levels, row);
    next[node as usize] = 0;
    *work = work.saturating_sub(row.len() as u64 / 8 + 1);
}

/// Walks from a node back towards the source along falling levels, and answers where the walk ends: at the source, or at
/// a node no link of which leads on. Links that a node's pointer has passed are not tried again.
fn descend(
    problem: &Problem,
    sought: &Sought,
    levels: &[u32],
    next: &mut [u32],
    path: &mut [Use],
    from: u32,
) -> u32
    requires of_net { length sought.now.filling.now.amounts ≡ length problem.now.net.now.pipes }
    requires lawful { IsProblem problem.now }
    requires levels { IsLevelled problem.now.net.now.nodes problem.now.source levels.now }
    requires next { length next.old ≡ problem.now.net.now.nodes }
    requires few { length path.old < unreached }
    requires bounded { AreBounded problem.now.net.now.nodes problem.now.adjacency.now next.old }
    requires walk { IsWalk problem.now.net.now sought.now.filling.now.amounts sought.now.power levels.now
        problem.now.sink path.old from }
    ensures bounded { AreBounded problem.now.net.now.nodes problem.now.adjacency.now next.new }
    ensures walk { IsWalk problem.now.net.now sought.now.filling.now.amounts sought.now.power levels.now
        problem.now.sink path.new result }
    ensures ways { HaveWays problem.now.net.now.pipes sought.now.filling.now.amounts sought.now.power levels.now
        problem.now.adjacency.now problem.now.net.now.nodes problem.now.source next.old →
        (result ≡ problem.now.source)
        × HaveWays problem.now.net.now.pipes sought.now.filling.now.amounts sought.now.power levels.now
        problem.now.adjacency.now problem.now.net.now.nodes problem.now.source next.new }
{
    let pipes = problem.net.pipes();
    let mut node = from;
    while node != problem.source {
        let level = levels[node as usize];
        let row = problem.adjacency.list(node);
        let from = next[node as usize] as usize;
        let place = next_place(pipes, sought, levels, level, row, from);
        next[node as usize] = place as u32;
        if place == row.len() {
            return node;
        }
        let link = row[place];
        path[level as usize - 1] = Use {
            pipe: link.pipe,
            back: !link.back,
        };
        node = link.far;
    }
    node
}

/// Seeks a path from the source to the sink along rising levels on which each use has enough left, backward from the
/// sink. Where no link of a node leads on, the node is lifted and the walk goes on one node nearer to the sink, until
/// the work is used up or no link of the sink leads on.
pub(crate) fn find_path(
    problem: &Problem,
    sought: &Sought,
    levels: &mut [u32],
    next: &mut [u32],
    path: &mut [Use],
    work: &mut u64,
) -> bool
    requires of_net { length sought.now.filling.now.amounts ≡ length problem.now.net.now.pipes }
    requires lawful { IsProblem problem.now }
    requires levels { IsLevelled problem.now.net.now.nodes problem.now.source levels.old }
    requires next { length next.old ≡ problem.now.net.now.nodes }
    requires depth { level_of levels.old problem.now.sink ≡ length path.old }
    requires few { length path.old < unreached }
    requires bounded { AreBounded problem.now.net.now.nodes problem.now.adjacency.now next.old }
    requires work { 1 ≤ work.old }
    ensures levels { IsLevelled problem.now.net.now.nodes problem.now.source levels.new }
    ensures bounded { AreBounded problem.now.net.now.nodes problem.now.adjacency.now next.new }
    ensures work { work.new ≤ work.old }
    ensures trail { result ≡ true →
        IsTrail problem.now.net.now.pipes sought.now.filling.now.amounts sought.now.power levels.new
        problem.now.source problem.now.sink path.new }
    ensures ways { HaveWays problem.now.net.now.pipes sought.now.filling.now.amounts sought.now.power levels.old
        problem.now.adjacency.now problem.now.net.now.nodes problem.now.source next.old →
        result ≡ true }
{
    let pipes = problem.net.pipes();
    let mut node = problem.sink;
    while *work > 0 {
        node = descend(problem, sought, levels, next, path, node);
        if node == problem.source {
            return true;
        }
        if node == problem.sink {
            return false;
        }
        let behind = end_node(pipes, path[levels[node as usize] as usize]);
        lift(problem, sought, levels, next, node, work);
        node = behind;
    }
    false
}
