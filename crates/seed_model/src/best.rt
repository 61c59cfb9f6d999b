// The best set of files, found by trying every set. A set is a mask here: file f is bit f.
ghost use Rattle.std.specs.Prelude.{◌≡◌, ◌<◌, ◌≤◌, ◌^◌, ◌+◌, ℕ, All, IfOk, IfSome, IfNone, Some, None, length, slice_index, true, false};
ghost use Rattle.seed_model.specs.Files.{holds};
ghost use Rattle.seed_model.specs.Ranges.{IsRange};
ghost use Rattle.seed_model.specs.Best.{IsFirstBest, NoneInRange};
ghost use Rattle.seed_model.specs.SumLaws.{AgreesBelow};
ghost use Rattle.seed_model.specs.Masks.{in_mask, mask_of, HasExactBytes, HasMigrated, AddsSubsets};
ghost use Rattle.seed_model.specs.Candidates.{lighter};

use crate::limits::{MOST_BYTES, MOST_TRIED_FILES};
use crate::memory::NoMemory;
use crate::plan_set::PlanSet;
use crate::range::Range;
use crate::table::Table;
use std::alloc::Global;

/// A mask whose set is in range, and what moving it replicates.
#[derive(Clone, Copy)]
struct Candidate {
    mask: usize,
    replicated: u64,
}

/// The set in range that replicates the fewest bytes; among several the one with the least sum of 2^file over its
/// files. None where no set is in range. The table has at most `MOST_TRIED_FILES` files.
///
/// # Errors
///
/// `NoMemory` where memory runs out.
pub fn try_all(alloc: Global, table: &Table, range: &Range) -> Result<Option<PlanSet>, NoMemory>
    requires few { table.now.files ≤ MOST_TRIED_FILES }
    requires range { IsRange range.now }
    ensures found { IfOk result (λ o. IfSome o (λ set. (length set ≡ table.now.files) × IsFirstBest table.now range.now (holds set))) }
    ensures none { IfOk result (λ o. IfNone o (NoneInRange table.now range.now)) }
{
    let migrated = migrated_by_mask(alloc, table)?;
    match best_mask(table, &migrated, range) {
        Some(mask) => {
            let set = set_of_mask(alloc, table.files(), mask)?;
            Ok(Some(set))
        }
        None => Ok(None),
    }
}

/// The first mask whose set is in range and replicates least, from the migrated bytes of every mask.
fn best_mask(table: &Table, migrated: &[u64], range: &Range) -> Option<usize>
    requires few { table.now.files ≤ MOST_TRIED_FILES }
    requires migrated { HasMigrated table.now migrated.now }
    ensures found { IfSome result (λ mask. IsFirstBest table.now range.now (in_mask mask)) }
    ensures none { IfNone result (NoneInRange table.now range.now) }
{
    let total = table.total();
    let every_file = (1usize << table.files()) - 1;
    let mut best = None;
    for (mask, bytes) in migrated.iter().enumerate() {
        if range.low <= *bytes && *bytes <= range.high {
            let touched = total - migrated[every_file & !mask];
            let replicated = touched - *bytes;
            best = Some(first_lightest(best, Candidate { mask, replicated }));
        }
    }
    match best {
        Some(candidate) => Some(candidate.mask),
        None => None,
    }
}

/// The one that replicates less; the one kept so far where both replicate the same.
fn first_lightest(kept: Option<Candidate>, next: Candidate) -> Candidate
    ensures { result ≡ lighter kept next }
{
    match kept {
        Some(kept) if kept.replicated <= next.replicated => kept,
        _ => next,
    }
}

/// The set of a mask, as a set of `files` files.
fn set_of_mask(alloc: Global, files: u32, mask: usize) -> Result<PlanSet, NoMemory>
    requires { files ≤ MOST_TRIED_FILES }
    ensures files { IfOk result (λ set. length set ≡ files) }
    ensures same { IfOk result (λ set. AgreesBelow files (holds set) (in_mask mask)) }
{
    let mut set = PlanSet::empty(alloc, files)?;
    for file in 0..files {
        if mask >> file & 1 == 1 {
            set.insert(file);
        }
    }
    Ok(set)
}

/// The bytes that each mask's set migrates: those of the classes whose users are all in it.
fn migrated_by_mask(alloc: Global, table: &Table) -> Result<Vec<u64>, NoMemory>
    requires { table.now.files ≤ MOST_TRIED_FILES }
    ensures { IfOk result (λ sums. HasMigrated table.now sums.items) }
{
    let files = table.files();
    let mut sums = bytes_by_mask(alloc, table)?;
    for file in 0..files {
        add_subsets(&mut sums, file);
    }
    Ok(sums)
}

/// The bytes of the classes whose users are exactly each mask's set.
fn bytes_by_mask(alloc: Global, table: &Table) -> Result<Vec<u64>, NoMemory>
    requires { table.now.files ≤ MOST_TRIED_FILES }
    ensures { IfOk result (λ sums. HasExactBytes table.now sums.items) }
{
    let files = table.files();
    let mut sums = match vec![in alloc; 0u64; 1usize << files] {
        Ok(sums) => sums,
        Err(_) => return Err(NoMemory),
    };
    for class in table.class_list() {
        let mask = users_mask(class.users.list());
        sums[mask] += class.size;
    }
    Ok(sums)
}

/// The mask of these files.
fn users_mask(users: &[u32]) -> usize
    requires { All (λ file. file < MOST_TRIED_FILES) users.now }
    ensures { result ≡ mask_of users.now }
{
    let mut mask = 0;
    for user in users {
        mask |= 1 << *user;
    }
    mask
}

/// Adds to each mask with the file the sum of the mask without it.
fn add_subsets(sums: &mut [u64], file: u32)
    requires file { file < MOST_TRIED_FILES }
    requires bounded { All (λ bytes. bytes ≤ MOST_BYTES) sums.old }
    ensures { AddsSubsets file sums.old sums.new }
{
    for mask in 0..sums.len() {
        if mask >> file & 1 == 1 {
            sums[mask] += sums[mask & !(1 << file)];
        }
    }
}
