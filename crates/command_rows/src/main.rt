//! Carries out worked commands, and names each that does not end as told.
//!
//! `command_rows FILE ..`: each file has rows, whose form `data/best.rows` shows.
#![tactic(auto)]

mod rows;
mod turned_shelf;
mod world;

use anyhow::{Context, Result};
use rows::Rows;
use seed_model::NoMemory;
use std::alloc::Global;
use std::{env, fs};

/// Carries out the rows of a text.
fn carried_out(alloc: Global, text: &str) -> std::result::Result<Rows, NoMemory> {
    let mut rows = Rows::new(alloc)?;
    for line in text.lines() {
        rows.take(line)?;
    }
    rows.close()?;
    Ok(rows)
}

fn main(rt: HostRuntime) -> Result<()> {
    for name in env::args(&rt)?.skip(1) {
        let text = fs::read_to_string(&rt, name.as_str())?;
        let rows = carried_out(rt.alloc(), text.as_str())
            .ok()
            .context("want of memory")?;
        for line in rows.others() {
            println!(rt; "{name}, line {line}: not as told")?;
        }
        println!(rt; "{name}: {} rows", rows.count())?;
    }
    Ok(())
}
