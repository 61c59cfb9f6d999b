// How the next call of a rack in memory is answered.
ghost use Rattle.std.specs.Prelude.{◌≡◌, ◌<◌, ◌↔◌, IsTrue, true, false};
ghost use Rattle.fault_count.specs.Counts.{last_count};
ghost use Rattle.volume_disk.specs.Memory.{IsStopped, TurnMeans, is_failure, plan_after};

use crate::RackError;
use fault_count::FaultPlan;

/// How a call is answered.
#[derive(Clone, Copy)]
pub enum Turn {
    /// With a fault, and nothing is done.
    Refused,
    /// With a fault, after it was done, but a sync, which is then not done.
    Fails,
    /// It is done.
    Runs,
}

impl Turn {
    ghost use Rattle.std.specs.Prelude.{◌≡◌, is_err};
    ghost use Rattle.volume_disk.specs.Memory.{is_failure};

    /// What is answered.
    pub fn answer(self) -> Result<(), RackError>
        ensures { is_err result ≡ is_failure self }
    {
        match self {
            Turn::Refused | Turn::Fails => Err(RackError::Fault),
            Turn::Runs => Ok(()),
        }
    }
}

/// Whether the calls of this number and later ones are to fail.
fn is_stopped(stop: Option<u64>, number: u64) -> bool
    ensures { IsTrue result ↔ IsStopped stop number }
{
    match stop {
        Some(call) => call <= number,
        None => false,
    }
}

/// Counts a call that fails in any case.
fn fail_next(plan: &mut FaultPlan)
    requires { plan.old.faults < last_count }
    ensures { plan.new ≡ plan_after plan.old true }
{
    if !plan.fails_next() {
        plan.raise();
    }
}

/// Counts a call, and says how it is answered.
pub fn next_turn(plan: &mut FaultPlan, stop: Option<u64>, fits: bool) -> Turn
    ensures turn { TurnMeans plan.old stop fits result }
    ensures plan { plan.new ≡ plan_after plan.old (is_failure result) }
{
    if plan.is_over() {
        return Turn::Refused;
    }
    if !fits {
        fail_next(plan);
        return Turn::Refused;
    }
    if plan.fails_next() {
        return Turn::Fails;
    }
    if is_stopped(stop, plan.calls()) {
        plan.raise();
        return Turn::Fails;
    }
    Turn::Runs
}
