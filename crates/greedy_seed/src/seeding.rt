// The greedy choice.
ghost use Rattle.std.specs.Prelude.{◌≡◌, ◌<◌, ◌≤◌, ◌⊎◌, ℕ, IfOk, IfSome};
ghost use Rattle.seed_model.specs.Nodes.{IsNode};
ghost use Rattle.greedy_seed.specs.Admitted.{IsChoice};
ghost use Rattle.greedy_seed.specs.Greedy.{IsGreedy, MayAdd, MayFlip, Turns, Rounds, migrates};
ghost use Rattle.greedy_seed.specs.Inside.{IsTally};

use crate::choice::{next_added, next_flipped};
use crate::tally::Tally;
use crate::tried::Tried;
use seed_model::{NoMemory, Node, Range, Table};
use std::alloc::Global;

/// A set in range of those that have all files of `pins.inside` and none of `pins.outside`, found greedily. The set begins
/// as `pins.inside`. While it migrates too little, a turn adds a file: of those with which it does not migrate too much,
/// the one with which it replicates least, then the one with which it migrates most, then the first. Once the set is in
/// range, a round flips a file that is in neither pin: of the flips that leave the set in range and less replicated, the
/// one that leaves the least, then that of the first file. The rounds end where there is no such flip, or where as many
/// were made as there are files.
///
/// No set is found where `pins.inside` migrates too much, or where a turn may add no file; then there are no rounds. That
/// says nothing of whether there is one.
///
/// # Errors
///
/// `NoMemory` where memory runs out.
pub fn greedy(alloc: Global, table: &Table, range: &Range, pins: &Node) -> Result<Tried, NoMemory>
    requires range { range.now.low ≤ range.now.high }
    requires pins { IsNode table.now.files pins.now }
    ensures tried { IfOk result (λ tried. IsGreedy table.now range.now pins.now tried) }
    ensures admitted { IfOk result (λ tried. IfSome tried.set (IsChoice table.now range.now pins.now)) }
{
    let set = pins.inside.copy()?;
    let mut tally = Tally::of(alloc, table, set)?;
    if tally.sums.migrated > range.high {
        return Ok(none_after(0));
    }
    let turns = add_files(&mut tally, table, range, pins);
    if tally.sums.migrated < range.low {
        return Ok(none_after(turns));
    }
    let rounds = flip_files(&mut tally, table, range, pins);
    Ok(Tried {
        set: Some(tally.set),
        turns,
        rounds,
    })
}

/// No set was found, after so many turns.
fn none_after(turns: u32) -> Tried
    ensures { result ≡ record { set = None; turns = turns; rounds = 0 } }
{
    Tried {
        set: None,
        turns,
        rounds: 0,
    }
}

/// Adds files turn by turn until the set migrates enough, or no file may be added; how many turns there were.
fn add_files(tally: &mut Tally, table: &Table, range: &Range, pins: &Node) -> u32
    requires tally { IsTally table.now tally.old }
    requires pins { IsNode table.now.files pins.now }
    ensures turns { Turns table.now range.now pins.now result tally.old.set tally.new.set }
    ensures ended { (range.now.low ≤ migrates table.now tally.new.set) ⊎ ((file : ℕ) → ¬ MayAdd table.now range.now pins.now tally.new.set file) }
    ensures tally { IsTally table.now tally.new }
{
    let mut turns = 0;
    while tally.sums.migrated < range.low {
        let Some(file) = next_added(tally, table, range, pins) else {
            return turns;
        };
        tally.flip(table, file);
        turns += 1;
    }
    turns
}

/// Flips files round by round until no flip is better, or as many rounds as files were made; how many rounds there were.
fn flip_files(tally: &mut Tally, table: &Table, range: &Range, pins: &Node) -> u32
    requires tally { IsTally table.now tally.old }
    requires pins { IsNode table.now.files pins.now }
    ensures rounds { Rounds table.now range.now pins.now result tally.old.set tally.new.set }
    ensures few { result ≤ table.now.files }
    ensures ended { (result ≡ table.now.files) ⊎ ((file : ℕ) → ¬ MayFlip table.now range.now pins.now tally.new.set file) }
    ensures tally { IsTally table.now tally.new }
{
    let files = table.files();
    for rounds in 0..files {
        let Some(file) = next_flipped(tally, table, range, pins) else {
            return rounds;
        };
        tally.flip(table, file);
    }
    files
}
