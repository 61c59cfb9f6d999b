// A set with its sums, and for each file what moving it changes.
ghost use Rattle.std.specs.Prelude.{◌≡◌, ◌<◌, length, IfOk};
ghost use Rattle.greedy_seed.specs.Greedy.{flipped};
ghost use Rattle.greedy_seed.specs.Inside.{IsTally, AreSums};

use crate::sharing::Shares;
use crate::uses::uses_of;
use list_facts::KeyedLists;
use seed_model::{NoMemory, PlanSet, Table, migrated, replicated};
use std::alloc::Global;

/// What a set migrates and replicates, in bytes.
#[derive(Clone, Copy)]
pub struct Sums {
    pub migrated: u64,
    pub replicated: u64,
}

/// A set of a table's files with its sums, the classes that each file uses, and what moving a file changes.
#[derive(Drop)]
pub struct Tally {
    pub set: PlanSet,
    pub sums: Sums,
    uses: KeyedLists<u32>,
    shares: Shares,
}

impl Tally {
    /// The tally of a set.
    pub fn of(alloc: Global, table: &Table, set: PlanSet) -> Result<Tally, NoMemory>
        requires { length set ≡ table.now.files }
        ensures set { IfOk result (λ tally. tally.set ≡ set) }
        ensures tally { IfOk result (λ tally. IsTally table.now tally) }
    {
        let sums = Sums {
            migrated: migrated(table, &set),
            replicated: replicated(table, &set),
        };
        let uses = uses_of(alloc, table)?;
        let shares = Shares::of(alloc, table, &set)?;
        Ok(Tally {
            set,
            sums,
            uses,
            shares,
        })
    }

    /// The sums of the set with a file flipped.
    pub fn sums_flipped(&self, table: &Table, file: u32) -> Sums
        requires tally { IsTally table.now self.now }
        requires file { file < table.now.files }
        ensures { AreSums table.now (flipped self.now.set file) result }
    {
        let gain = self.shares.gains[file as usize];
        let reach = self.shares.reaches[file as usize];
        if self.set.contains(file) {
            let migrated = self.sums.migrated - gain;
            let left = self.sums.replicated + gain;
            let replicated = left - reach;
            Sums {
                migrated,
                replicated,
            }
        } else {
            let migrated = self.sums.migrated + gain;
            let touched = self.sums.replicated + reach;
            let replicated = touched - gain;
            Sums {
                migrated,
                replicated,
            }
        }
    }

    /// Puts a file on the other side.
    pub fn flip(&mut self, table: &Table, file: u32)
        requires tally { IsTally table.now self.old }
        requires file { file < table.now.files }
        ensures set { self.new.set ≡ flipped self.old.set file }
        ensures tally { IsTally table.now self.new }
    {
        self.sums = self.sums_flipped(table, file);
        self.shares
            .move_file(table, self.uses.list(file), &self.set, file);
        if self.set.contains(file) {
            self.set.remove(file);
        } else {
            self.set.insert(file);
        }
    }
}
