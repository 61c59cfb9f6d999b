// What moving a set of files moves, and what it leaves on both volumes.
ghost use Rattle.std.specs.Prelude.{◌≡◌, ◌<◌, ◌≤◌, ◌↔◌, All, length, IsTrue};
ghost use Rattle.seed_model.specs.Files.{holds};
ghost use Rattle.seed_model.specs.Parts.{counts};
ghost use Rattle.seed_model.specs.Sums.{bytes_where, migrated_of, touched_of, replicated_of};
ghost use Rattle.seed_model.specs.Ranges.{IsRange, InRange};
ghost use Rattle.seed_model.specs.SumLaws.{Splits, Grows, DependsOnFiles, StaysWithinTotal};

use crate::limits::MOST_BYTES;
use crate::plan_set::PlanSet;
use crate::range::Range;
use crate::table::{Table, Users};

/// Which classes a sum counts, by the users that a set has of them.
#[derive(Clone, Copy)]
enum Part {
    Migrated,
    Touched,
    Replicated,
}

/// The bytes that leave the old volume where the set moves: those of the chunks whose users are all in the set.
pub fn migrated(table: &Table, set: &PlanSet) -> u64
    requires { length set.now ≡ table.now.files }
    ensures sum { result ≡ migrated_of (holds set.now) table.now }
    ensures within { result ≤ MOST_BYTES }
{
    bytes_of(table, set, Part::Migrated)
}

/// The bytes that the new volume gets where the set moves: those of the chunks with a user in the set.
pub fn touched(table: &Table, set: &PlanSet) -> u64
    requires { length set.now ≡ table.now.files }
    ensures sum { result ≡ touched_of (holds set.now) table.now }
    ensures within { result ≤ MOST_BYTES }
{
    bytes_of(table, set, Part::Touched)
}

/// The bytes that stand on both volumes where the set moves: those of the chunks with a user in the set and a user
/// outside it.
pub fn replicated(table: &Table, set: &PlanSet) -> u64
    requires { length set.now ≡ table.now.files }
    ensures sum { result ≡ replicated_of (holds set.now) table.now }
    ensures within { result ≤ MOST_BYTES }
{
    bytes_of(table, set, Part::Replicated)
}

/// The bytes of the classes that count.
fn bytes_of(table: &Table, set: &PlanSet, part: Part) -> u64
    requires { length set.now ≡ table.now.files }
    ensures sum { result ≡ bytes_where (counts part (holds set.now)) table.now.classes }
    ensures within { result ≤ MOST_BYTES }
{
    let mut total = 0;
    for class in table.class_list() {
        if is_counted(&class.users, set, part) {
            total += class.size;
        }
    }
    total
}

/// Whether a class with these users counts.
fn is_counted(users: &Users, set: &PlanSet, part: Part) -> bool
    requires { All (λ file. file < length set.now) users.now }
    ensures { result ≡ counts part (holds set.now) users.now }
{
    match part {
        Part::Migrated => users.all_in(set),
        Part::Touched => users.any_in(set),
        Part::Replicated => users.split_by(set),
    }
}

/// Whether moving the set migrates as many bytes as the range asks for.
pub fn in_range(table: &Table, set: &PlanSet, range: &Range) -> bool
    requires files { length set.now ≡ table.now.files }
    requires range { IsRange range.now }
    ensures { IsTrue result ↔ InRange table.now range.now (holds set.now) }
{
    let bytes = migrated(table, set);
    range.low <= bytes && bytes <= range.high
}

/// The laws of the three sums, for every table that keeps to the limits and every set of files.
pub fn sum_laws()
    ensures splits { Splits }
    ensures grows { Grows }
    ensures files_alone { DependsOnFiles }
    ensures total { StaysWithinTotal }
{}
