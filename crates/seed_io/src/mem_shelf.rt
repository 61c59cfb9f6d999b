// A shelf in memory, that fails where it is told to.
ghost use Rattle.std.specs.Prelude.{◌≡◌, ◌-◌, ℕ, List, IsTrue, true, false, min, length, take, drop, Some, None, IfOk, IsErrOf, OnOk, OnErr, option_map};
ghost use Rattle.std.specs.Io.{ReadsAtMost};
ghost use Rattle.fault_count.specs.Counts.{HasCause, IsOver};
ghost use Rattle.fault_count.specs.Plans.{NextCall};
ghost use Rattle.seed_io.specs.Failing.{is_shelf_fault};
ghost use Rattle.seed_io.specs.Memory.{files_told};
ghost use Rattle.seed_io.specs.Shelf.{OthersStay, Gives, Creates, Appends};

use crate::{Shelf, ShelfError, SureShelf};
use fault_count::FaultPlan;
use seed_model::NoMemory;
use std::alloc::Global;

/// Byte strings by name. Calls of the shelf are numbered from 1.
#[derive(Drop)]
pub struct MemShelf {
    files: SureShelf,
    plan: FaultPlan,
}

impl MemShelf {
    ghost use Rattle.seed_io.specs.Held.{shelf_map, shelf_plan};

    /// No names yet; the calls whose numbers are listed will fail, and change nothing.
    pub fn new(alloc: Global, fails: Vec<u64>) -> Self
        ensures map { (name : List ℕ) → shelf_map result name ≡ None }
        ensures plan { shelf_plan result ≡ record { fails = fails.items; calls = 0; faults = 0 } }
    {
        MemShelf {
            files: SureShelf::new(alloc),
            plan: FaultPlan::new(fails),
        }
    }

    /// Gives a name these bytes. It is no call of the shelf.
    pub fn set(&mut self, name: &str, bytes: &[u8]) -> Result<(), NoMemory>
        ensures set { OnOk result (shelf_map self.new name.now ≡ Some bytes.now) }
        ensures others { OnOk result (OthersStay (shelf_map self.old) (shelf_map self.new) name.now) }
        ensures err { OnErr result (shelf_map self.new ≡ shelf_map self.old) }
        ensures plan { shelf_plan self.new ≡ shelf_plan self.old }
    {
        self.files.set(name, bytes)
    }

    /// The bytes of a name.
    pub fn bytes(&self, name: &str) -> Option<&[u8]>
        ensures { option_map (λ bytes. bytes.now) result ≡ shelf_map self.now name.now }
    {
        self.files.bytes(name)
    }
}

impl Shelf for MemShelf {
    ghost use Rattle.std.specs.Prelude.{true};
    ghost use Rattle.seed_io.specs.Held.{shelf_map, shelf_plan};

    ghost tells = { λ s. true };

    ghost map = { shelf_map };

    ghost faults = { λ s. (shelf_plan s).faults };

    fn read_at(&mut self, name: &str, at: u64, into: &mut [u8]) -> Result<usize, ShelfError>
        ensures bound { ReadsAtMost result into.new }
        ensures cause { HasCause ShelfError.Fault (shelf_plan self.old).faults (shelf_plan self.new).faults result }
        ensures tells { true ≡ true }
        ensures same { shelf_map self.new ≡ shelf_map self.old }
        ensures bytes { true ≡ true → IfOk result (Gives (shelf_map self.old) name.now at into.new) }
        ensures lacks { true ≡ true → IsErrOf result ShelfError.NotThere → shelf_map self.old name.now ≡ None }
        ensures listed { NextCall (shelf_plan self.old) (shelf_plan self.new) (is_shelf_fault result) }
        ensures over { IsOver (shelf_plan self.old).faults → self.new ≡ self.old }
    {
        if self.plan.fails_next() {
            return Err(ShelfError::Fault);
        }
        self.files.read_at(name, at, into)
    }

    fn create(&mut self, name: &str) -> Result<(), ShelfError>
        ensures cause { HasCause ShelfError.Fault (shelf_plan self.old).faults (shelf_plan self.new).faults result }
        ensures there { ¬ IsErrOf result ShelfError.NotThere }
        ensures tells { true ≡ true }
        ensures map { true ≡ true → Creates (shelf_map self.old) (shelf_map self.new) name.now result }
        ensures listed { NextCall (shelf_plan self.old) (shelf_plan self.new) (is_shelf_fault result) }
        ensures over { IsOver (shelf_plan self.old).faults → self.new ≡ self.old }
        ensures none { IsErrOf result ShelfError.Fault → shelf_map self.new ≡ shelf_map self.old }
    {
        // A call that fails empties nothing.
        if self.plan.fails_next() {
            return Err(ShelfError::Fault);
        }
        self.files.create(name)
    }

    fn append(&mut self, name: &str, bytes: &[u8]) -> Result<(), ShelfError>
        ensures cause { HasCause ShelfError.Fault (shelf_plan self.old).faults (shelf_plan self.new).faults result }
        ensures there { ¬ IsErrOf result ShelfError.NotThere }
        ensures tells { true ≡ true }
        ensures map { true ≡ true → Appends (shelf_map self.old) (shelf_map self.new) name.now bytes.now result }
        ensures listed { NextCall (shelf_plan self.old) (shelf_plan self.new) (is_shelf_fault result) }
        ensures over { IsOver (shelf_plan self.old).faults → self.new ≡ self.old }
        ensures none { IsErrOf result ShelfError.Fault → shelf_map self.new ≡ shelf_map self.old }
    {
        // A call that fails adds nothing.
        if self.plan.fails_next() {
            return Err(ShelfError::Fault);
        }
        self.files.append(name, bytes)
    }
}
