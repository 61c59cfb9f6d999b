// Many pushes from one search.
ghost use Rattle.std.specs.Prelude.{◌≡◌, ◌≢◌, ℕ, ◌+◌, ◌-◌, ◌*◌, ◌^◌, ◌<◌, ◌≤◌, Bool, true, false, length, slice_index, slice_index_or};
ghost use Rattle.flow_net.specs.Paths.{IsPath, LeadsOn, HaveLeft};
ghost use Rattle.flow_net.specs.Pushes.{IsCarried, Augments};
ghost use Rattle.flow_net.specs.Runs.{IsRun, HasLevels, GoesOn};
ghost use Rattle.flow_net.specs.Trails.{use_at};

use crate::amounts::{Filling, left};
use crate::counter::Steps;
use crate::levels::{Sought, search};
use crate::network::Net;
use crate::pipes::{Pipe, Use};
use crate::problem::Problem;
use crate::run::Run;
use crate::trails::{find_path, lift};
use std::sync::ledger::Ledger;

/// The most that every use of a path can carry.
fn least_left(pipes: &[Pipe], filling: &Filling, path: &[Use]) -> u128
    requires of_net { length filling.now.amounts ≡ length pipes.now }
    requires known { (k : ℕ) → k < length path.now → (use_at path.now k).pipe < length pipes.now }
    ensures left { HaveLeft pipes.now filling.now.amounts result path.now }
    ensures most { (w : ℕ) → w < 2 ^ 128 → HaveLeft pipes.now filling.now.amounts w path.now → w ≤ result }
{
    let mut least = u128::MAX;
    for along in path {
        least = least.min(left(pipes, filling, *along));
    }
    least
}

/// Pushes along a path as much as it can carry.
fn push_path<L: Ledger>(net: &Net, path: &[Use], filling: &mut Filling, steps: &mut Steps<L>)
    requires of_net { length filling.old.amounts ≡ length net.now.pipes }
    requires few { filling.old.pushes < 2 ^ 62 }
    requires path { LeadsOn net.now.pipes path.now }
    requires left { HaveLeft net.now.pipes filling.old.amounts 1 path.now }
    ensures carried { (a b : ℕ) → IsPath net.now.pipes a b path.now → IsCarried net.now.pipes a b filling.old.amounts →
        IsCarried net.now.pipes a b filling.new.amounts }
    ensures augments { (a b w : ℕ) → w < 2 ^ 128 → IsPath net.now.pipes a b path.now →
        IsCarried net.now.pipes a b filling.old.amounts →
        HaveLeft net.now.pipes filling.old.amounts w path.now →
        Augments net.now.pipes a b w filling.old filling.new }
    ensures one { filling.new.pushes ≡ filling.old.pushes + 1 }
    ensures step { steps.new ≡ steps.old + 1 }
{
    let amount = least_left(net.pipes(), filling, path);
    filling.push(net, path, amount, steps);
}

/// Puts every pointer back to the start of its row.
fn rewind(next: &mut [u32])
    ensures { (v : ℕ) → slice_index next.new v ≡ 0 }
{
    for pointer in next.iter_mut() {
        *pointer = 0;
    }
}

/// Finds the levels over uses with at least the power left, and says whether the sink has one.
fn find_levels(problem: &Problem, power: u128, run: &mut Run) -> bool
    requires run { IsRun problem.now run.old }
    ensures run { IsRun problem.now run.new }
    ensures filling { run.new.filling ≡ run.old.filling }
    ensures levels { HasLevels problem.now power run.new result }
{
    let sought = Sought {
        filling: &run.filling,
        power,
        backward: false,
    };
    let scratch = &mut run.scratch;
    search(problem, &sought, &mut scratch.levels, &mut scratch.queue)
}

/// Pushes along paths of rising levels until the sink is lifted out of reach, the pushes reach the limit, or the work is
/// used up, which is a step for each two pipes. The sink is lifted where no path ends at its level.
fn phase<L: Ledger>(problem: &Problem, power: u128, limit: u64, run: &mut Run, steps: &mut Steps<L>)
    requires run { IsRun problem.now run.old }
    requires levels { HasLevels problem.now power run.old true }
    requires power { 1 ≤ power }
    requires few { limit ≤ 2 ^ 62 }
    requires left { run.old.filling.pushes < limit }
    ensures goes_on { GoesOn problem.now power run.old run.new steps.old steps.new }
    ensures more { run.old.filling.pushes < run.new.filling.pushes }
    ensures upto { run.new.filling.pushes ≤ limit }
{
    let filling = &mut run.filling;
    let levels: &mut [u32] = &mut run.scratch.levels;
    let next: &mut [u32] = &mut run.scratch.next;
    let path: &mut [Use] = &mut run.scratch.path;
    let mut work = problem.net.pipes().len() as u64 / 2 + 1;
    rewind(next);
    'paths: while filling.pushes() < limit && work > 0 {
        let depth = levels[problem.sink as usize] as usize;
        if depth > path.len() {
            return;
        }
        let path = &mut path[..depth];
        let sought = Sought {
            filling,
            power,
            backward: false,
        };
        if find_path(problem, &sought, levels, next, path, &mut work) {
            push_path(problem.net, path, filling, steps);
        } else if work > 0 {
            lift(problem, &sought, levels, next, problem.sink, &mut work);
        }
    }
}

/// Searches and pushes over uses with at least the power left, until a search misses the sink, which it answers by
/// true, or the pushes reach the limit.
pub(crate) fn turn<L: Ledger>(
    problem: &Problem,
    power: u128,
    limit: u64,
    run: &mut Run,
    steps: &mut Steps<L>,
) -> bool
    requires run { IsRun problem.now run.old }
    requires power { 1 ≤ power }
    requires few { limit ≤ 2 ^ 62 }
    requires left { run.old.filling.pushes ≤ limit }
    ensures goes_on { GoesOn problem.now power run.old run.new steps.old steps.new }
    ensures upto { run.new.filling.pushes ≤ limit }
    ensures closed { result ≡ true → HasLevels problem.now power run.new false }
    ensures open { result ≡ false → limit ≤ run.new.filling.pushes }
{
    'searches: while run.filling.pushes() < limit {
        if !find_levels(problem, power, run) {
            return true;
        }
        phase(problem, power, limit, run, steps);
    }
    false
}

/// The first pushes, at most two for each pipe, along any paths. True says that no path is left.
pub(crate) fn begin<L: Ledger>(problem: &Problem, run: &mut Run, steps: &mut Steps<L>) -> bool
    requires run { IsRun problem.now run.old }
    requires none { run.old.filling.pushes ≡ 0 }
    ensures goes_on { GoesOn problem.now 1 run.old run.new steps.old steps.new }
    ensures upto { run.new.filling.pushes ≤ 2 * length problem.now.net.now.pipes }
    ensures closed { result ≡ true → HasLevels problem.now 1 run.new false }
{
    let limit = 2 * problem.net.pipes().len() as u64;
    turn(problem, 1, limit, run, steps)
}
