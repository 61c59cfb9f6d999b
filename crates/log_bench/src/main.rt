//! Appends bodies of 4,129 bytes, those of chunks of 4,096 bytes, to a log on files in the folder where it runs.
//!
//! `log_bench RECORDS`; without a number it only says how it is called.
#![tactic(auto)]

use anyhow::{Context, Result, bail};
use chunk_log::{Frame, Log};
use std::env;
use volume_disk::FolderRack;

fn main(rt: HostRuntime) -> Result<()> {
    let mut words = env::args(&rt)?;
    let _program = words.next();
    let Some(number) = words.next() else {
        println!(rt; "log_bench RECORDS")?;
        return Ok(());
    };
    let records: u32 = number.parse().context("no number of records")?;
    let Ok(mut frame) = Frame::room(rt.alloc(), 4129) else {
        bail!("want of memory");
    };
    frame.set(&[0x5a; 4129]);
    let mut rack = FolderRack::new(&rt);
    let Ok(mut log) = Log::open(&mut rack, 0, 1 << 40) else {
        bail!("no log on the first device");
    };
    for _ in 0..records {
        if log.append(&mut rack, &frame).is_err() {
            bail!("a record was refused");
        }
    }
    println!(rt; "end {}", log.end())?;
    Ok(())
}
