//! Puts chunks into a volume, drops them, opens it and digests chunks, on files in the folder where it runs.
//!
//! `volume_bench TASK FROM TO SIZE`: the chunks have SIZE bytes, from 4 to 1,048,576, and the numbers from FROM up to TO. `put`
//! puts them into the volume of A, `drop` drops them there, and `open` only opens it; `digest` only digests them. Without
//! words it only says how it is called.
#![tactic(auto)]

use anyhow::{Context, Result, bail};
use chunk_volume::{VolError, Volume};
use sha2::{Digest, Sha256};
use std::alloc::Global;
use std::env;
use volume_disk::FolderRack;

/// Puts a chunk, where it may be one.
fn put(
    volume: &mut Volume,
    rack: &mut FolderRack<'_>,
    bytes: &[u8],
) -> std::result::Result<(), VolError> {
    if bytes.is_empty() || 1_048_576 < bytes.len() {
        return Err(VolError::Memory);
    }
    let name = Sha256::digest(bytes);
    volume.put_chunk(rack, &name, bytes)?;
    Ok(())
}

/// Drops a chunk, where it is held and no file uses it.
fn drop_chunk(
    volume: &mut Volume,
    rack: &mut FolderRack<'_>,
    bytes: &[u8],
) -> std::result::Result<(), VolError> {
    let name = Sha256::digest(bytes);
    let holding = volume.holding();
    if holding.chunk_len(&name).is_none() || holding.is_used(&name) {
        return Err(VolError::NoSuchFile);
    }
    volume.drop_chunk(rack, &name)
}

/// Makes the bytes those of the chunk of a number.
fn number_chunk(bytes: &mut [u8], number: u32) {
    if 4 <= bytes.len() {
        bytes[..4].copy_from_slice(&number.to_be_bytes());
    }
}

/// Puts the chunks of some numbers; false at the first that is refused.
fn put_all(
    volume: &mut Volume,
    rack: &mut FolderRack<'_>,
    bytes: &mut [u8],
    from: u32,
    to: u32,
) -> bool {
    for number in from..to {
        number_chunk(bytes, number);
        if put(volume, rack, bytes).is_err() {
            return false;
        }
    }
    true
}

/// Drops the chunks of some numbers; false at the first that is refused.
fn drop_all(
    volume: &mut Volume,
    rack: &mut FolderRack<'_>,
    bytes: &mut [u8],
    from: u32,
    to: u32,
) -> bool {
    for number in from..to {
        number_chunk(bytes, number);
        if drop_chunk(volume, rack, bytes).is_err() {
            return false;
        }
    }
    true
}

/// The first byte of each digest of the chunks of some numbers, summed modulo 256.
fn digest_all(bytes: &mut [u8], from: u32, to: u32) -> u8 {
    let mut sum: u8 = 0;
    for number in from..to {
        number_chunk(bytes, number);
        sum = sum.wrapping_add(Sha256::digest(&bytes[..])[0]);
    }
    sum
}

/// Opens the volume, does a task on the chunks of some numbers, and says how many chunks it holds then; none where
/// something was refused.
fn run(
    alloc: Global,
    rack: &mut FolderRack<'_>,
    task: &str,
    bytes: &mut [u8],
    from: u32,
    to: u32,
) -> Option<u64> {
    let mut volume = Volume::open(alloc, rack, 0, 1 << 40).ok()?;
    let is_done = match task {
        "put" => put_all(&mut volume, rack, bytes, from, to),
        "drop" => drop_all(&mut volume, rack, bytes, from, to),
        _ => task == "open",
    };
    if is_done {
        Some(volume.holding().chunk_count())
    } else {
        None
    }
}

/// The number of a word.
fn number_of(word: Option<String>) -> Result<u32> {
    let Some(word) = word else {
        bail!("a number is lacking");
    };
    word.parse().context("no number")
}

fn main(rt: HostRuntime) -> Result<()> {
    let mut words = env::args(&rt)?;
    let _program = words.next();
    let Some(task) = words.next() else {
        println!(rt; "volume_bench put|drop|open|digest FROM TO SIZE")?;
        return Ok(());
    };
    let from = number_of(words.next())?;
    let to = number_of(words.next())?;
    let size = number_of(words.next())?;
    let mut bytes = vec![in rt.alloc(); 0x5au8; size as usize]?;
    if task.as_str() == "digest" {
        println!(rt; "digests {}", digest_all(&mut bytes, from, to))?;
        return Ok(());
    }
    let mut rack = FolderRack::new(&rt);
    let Some(count) = run(rt.alloc(), &mut rack, task.as_str(), &mut bytes, from, to) else {
        bail!("the volume was refused");
    };
    println!(rt; "chunks {count}")?;
    Ok(())
}
