//! Times the greedy choice on a recipe.
//!
//! `greedy_bench RECIPE TARGET SLACK`: the set is found for so many percent of the recipe's bytes, more or less so many
//! percent, with empty pins. What was found goes to the standard output, and the seconds of the choice alone to the
//! standard error. Without a recipe it only says how it is called.
#![tactic(auto)]

ghost use Rattle.std.specs.Prelude.{◌≤◌};
ghost use Rattle.seed_model.specs.Ranges.{IsRange};

use anyhow::{Context, Result, bail};
use chunk_merge::merge;
use greedy_seed::{Tried, greedy};
use incidence::Incidence;
use recipe_reader::{Recipe, read_recipe};
use seed_model::limits::MOST_BYTES;
use seed_model::{NoMemory, Range, Table, migrated, range_of, replicated, undecided};
use std::alloc::Global;
use std::time::Instant;
use std::{env, fs};

/// What was found, and in how many milliseconds.
#[derive(Clone, Copy)]
struct Outcome {
    found: bool,
    migrated: u64,
    replicated: u64,
    turns: u32,
    rounds: u32,
    milliseconds: u128,
}

/// The table of a recipe, with a class for each set of users.
fn table_of(alloc: Global, recipe: &Recipe) -> std::result::Result<Table, NoMemory> {
    let incidence = Incidence::of(alloc, recipe)?;
    merge(alloc, &incidence)
}

/// The table of the rows of a recipe; None where they are none, or where memory runs out.
fn table_read(alloc: Global, rows: &[u8]) -> Option<Table> {
    match read_recipe(alloc, rows) {
        Ok(recipe) => table_of(alloc, &recipe).ok(),
        Err(_) => None,
    }
}

/// So many percent of a number of bytes, rounded down.
fn part_of(total: u64, percent: u8) -> u64
    requires total { total ≤ MOST_BYTES }
    requires percent { percent ≤ 100 }
    ensures { result ≤ MOST_BYTES }
{
    total * u64::from(percent) / 100
}

/// The range of a table for percents of its bytes.
fn range_within(table: &Table, target: u8, slack: u8) -> Range
    requires target { target ≤ 100 }
    requires slack { slack ≤ 100 }
    ensures { IsRange result }
{
    let total = table.total().min(MOST_BYTES);
    range_of(part_of(total, target), part_of(total, slack))
}

/// The greedy set for a range.
fn chosen(alloc: Global, table: &Table, range: &Range) -> std::result::Result<Tried, NoMemory>
    requires { IsRange range.now }
{
    let pins = undecided(alloc, table.files())?;
    greedy(alloc, table, range, &pins)
}

/// The sums of a set that was found, in so many milliseconds.
fn outcome_of(table: &Table, tried: &Tried, milliseconds: u128) -> Outcome {
    let mut outcome = Outcome {
        found: false,
        migrated: 0,
        replicated: 0,
        turns: tried.turns,
        rounds: tried.rounds,
        milliseconds,
    };
    if let Some(set) = &tried.set
        && set.files() == table.files()
    {
        outcome.found = true;
        outcome.migrated = migrated(table, set);
        outcome.replicated = replicated(table, set);
    }
    outcome
}

/// Times the choice on a table.
fn timed(rt: &HostRuntime, table: &Table, range: &Range) -> Option<Outcome>
    requires { IsRange range.now }
{
    let start = Instant::now(rt).ok()?;
    let tried = chosen(rt.alloc(), table, range).ok()?;
    let taken = start.elapsed(rt).ok()?;
    Some(outcome_of(table, &tried, taken.as_millis()))
}

/// Reads a recipe by its name, and times the choice for percents of its bytes.
fn measured(rt: &HostRuntime, name: &str, target: u8, slack: u8) -> Option<Outcome>
    requires target { target ≤ 100 }
    requires slack { slack ≤ 100 }
{
    let rows = fs::read(rt, name).ok()?;
    let table = table_read(rt.alloc(), &rows)?;
    let range = range_within(&table, target, slack);
    timed(rt, &table, &range)
}

fn main(rt: HostRuntime) -> Result<()> {
    let mut words = env::args(&rt)?;
    let _program = words.next();
    let Some(name) = words.next() else {
        println!(rt; "greedy_bench RECIPE TARGET SLACK")?;
        return Ok(());
    };
    let target: u8 = words.next().context("no target")?.parse()?;
    let slack: u8 = words.next().context("no slack")?.parse()?;
    if target > 100 || slack > 100 {
        bail!("at most 100 percent");
    }
    let outcome = measured(&rt, name.as_str(), target, slack).context("no recipe, or no memory")?;
    println!(rt;
        "found {} migrated {} replicated {} turns {} rounds {}",
        outcome.found, outcome.migrated, outcome.replicated, outcome.turns, outcome.rounds
    )?;
    eprintln!(rt; "milliseconds {}", outcome.milliseconds)?;
    Ok(())
}
