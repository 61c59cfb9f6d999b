// Turns by falling powers of two.
ghost use Rattle.std.specs.Prelude.{◌≡◌, ◌≢◌, ℕ, ◌+◌, ◌-◌, ◌*◌, ◌^◌, ◌<◌, ◌≤◌, Bool, true, false, length};
ghost use Rattle.flow_net.specs.Nets.{pipe_at};
ghost use Rattle.flow_net.specs.Flows.{AreRoomsBelow};
ghost use Rattle.flow_net.specs.Runs.{IsRun, HasLevels, GoesOn};

use crate::counter::Steps;
use crate::phases::turn;
use crate::pipes::Pipe;
use crate::problem::Problem;
use crate::run::Run;
use std::sync::ledger::Ledger;

/// The greatest room, or 0 without pipes.
fn greatest_room(pipes: &[Pipe]) -> u128
    ensures upper { (i : ℕ) → i < length pipes.now → (pipe_at pipes.now i).room ≤ result }
    ensures least { (limit : ℕ) → 0 < limit → AreRoomsBelow limit pipes.now → result < limit }
{
    let mut greatest = 0;
    for pipe in pipes {
        greatest = pipe.room.max(greatest);
    }
    greatest
}

/// A power of two.
fn power_of_two(exponent: u32) -> u128
    requires { exponent < 128 }
    ensures { result ≡ 2 ^ exponent }
{
    1 << exponent
}

/// The least number, from 1 on, of binary digits for every room.
fn turn_count(pipes: &[Pipe]) -> u32
    requires { AreRoomsBelow (2 ^ 104) pipes.now }
    ensures some { 1 ≤ result }
    ensures few { result ≤ 104 }
    ensures enough { AreRoomsBelow (2 ^ result) pipes.now }
    ensures least { (k : ℕ) → 1 ≤ k → AreRoomsBelow (2 ^ k) pipes.now → result ≤ k }
{
    let greatest = greatest_room(pipes);
    for digits in 1..104 {
        if greatest < power_of_two(digits) {
            return digits;
        }
    }
    104
}

/// Turns by powers of two, from the greatest room down to 1. At the end no path is left.
pub(crate) fn powers<L: Ledger>(problem: &Problem, run: &mut Run, steps: &mut Steps<L>)
    requires run { IsRun problem.now run.old }
    requires few { run.old.filling.pushes ≤ 2 ^ 32 }
    ensures goes_on { GoesOn problem.now 1 run.old run.new steps.old steps.new }
    ensures upto { (k : ℕ) → 1 ≤ k → AreRoomsBelow (2 ^ k) problem.now.net.now.pipes →
        run.new.filling.pushes ≤ run.old.filling.pushes + 2 * length problem.now.net.now.pipes * k }
    ensures closed { HasLevels problem.now 1 run.new false }
{
    let pipes = problem.net.pipes();
    let count = pipes.len() as u64;
    let mut turns = turn_count(pipes);
    'turns: while turns > 0 {
        turns -= 1;
        let power = power_of_two(turns);
        let limit = run.filling.pushes() + 2 * count + 1;
        turn(problem, power, limit, run, steps);
    }
}
