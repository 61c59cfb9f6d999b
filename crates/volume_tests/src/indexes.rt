// What a volume holds, without a volume.
use crate::images::ABC;
use file_names::is_file_name;
use seed_model::NoMemory;
use std::test::Fail;
use volume_index::{Holding, Index};

/// Adds a chunk of 3 bytes, where it is lacking.
fn add_chunk(index: &mut Index, name: &[u8; 32]) -> Result<(), NoMemory> {
    if index.extent(name).is_some() {
        return Ok(());
    }
    index.add_chunk(name, 38, 3)
}

/// Adds a file, where it may be added.
fn add_file(index: &mut Index, name: String, chunks: Vec<[u8; 32]>) -> Result<bool, NoMemory> {
    if !is_file_name(name.as_str()) {
        return Ok(false);
    }
    if !index.may_add_file(name.as_str(), chunks.as_slice()) {
        return Ok(false);
    }
    index.add_file(name, chunks)?;
    Ok(true)
}

/// Adds a file of one chunk.
fn add_short_file(
    rt: &HostRuntime,
    index: &mut Index,
    name: &str,
    chunk: &[u8; 32],
) -> Result<bool, Fail> {
    let mut chunks = Vec::new(rt.alloc());
    chunks.push(*chunk)?;
    let name = String::from_str(rt.alloc(), name)?;
    let is_added = add_file(index, name, chunks)?;
    Ok(is_added)
}

/// Whether no file uses this chunk before the file of it is added, and one does then.
fn counts(rt: &HostRuntime, index: &mut Index, chunk: &[u8; 32]) -> Result<bool, Fail> {
    add_chunk(index, chunk)?;
    let is_free = index.may_drop_chunk(chunk);
    let is_added = add_short_file(rt, index, "n", chunk)?;
    Ok(is_free && is_added && is_used(index, chunk))
}

/// Whether a file uses this chunk, so that it may not be dropped.
fn is_used(index: &Index, chunk: &[u8; 32]) -> bool {
    index.is_used(chunk) && !index.may_drop_chunk(chunk)
}

/// Whether the one file is `n`, with the one chunk.
fn holds_n(holding: &Holding) -> bool {
    holding.find("n") == Some(0) && holding.bytes() == 3 && holding.first_orphan().is_none()
}

#[test]
fn counts_users(rt: HostRuntime) -> Result<(), Fail> {
    let mut index = Index::new(rt.alloc());
    assert!(rt; counts(&rt, &mut index, &ABC)?);
    Ok(())
}

#[test]
fn puts_in_order(rt: HostRuntime) -> Result<(), Fail> {
    let mut index = Index::new(rt.alloc());
    counts(&rt, &mut index, &ABC)?;
    let holding = Holding::of(index)?;
    assert!(rt; holds_n(&holding));
    Ok(())
}
