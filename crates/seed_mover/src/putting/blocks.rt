// The blocks of a file that is put, by their digests.
ghost use Rattle.std.specs.Prelude.{◌≡◌, ◌<◌, ◌≤◌, [], length, get_or, map, unwrap_or, if◌then◌else◌, IfOk, OnOk};
ghost use Rattle.std.specs.BTreeMap.{get as kept};
ghost use Rattle.sha2.specs.Sha256.{sha256};
ghost use Rattle.site_forms.specs.VolumeRecords.{IsChunk};
ghost use Rattle.site_forms.specs.Volumes.{bytes_cmp};
ghost use Rattle.seed_mover.specs.Blocks.{CountsNew, JudgesCounts, KeepsFirst, first_places, more_new};
ghost use Rattle.seed_mover.specs.Putting.{AreEnds, blocks_of, even_ends};

use chunk_volume::Holding;
use recipe_reader::What;
use seed_model::NoMemory;
use seed_model::limits::{MOST_CHUNKS, MOST_FILES, MOST_PAIRS};
use sha2::{Digest, Sha256};
use std::alloc::Global;
use std::collections::BTreeMap;

/// The longest block of a file that is cut evenly.
const EVEN_BLOCK: u64 = 4_096;

/// What the blocks of a file would add to a volume.
#[derive(Clone, Copy)]
pub(crate) struct NewCounts {
    /// How many names they have.
    pub names: u32,
    /// How many of these no file uses.
    pub unused: u32,
    /// How many of these the volume lacks.
    pub lacking: u32,
}

/// The ends of blocks of 4,096 bytes, the last of which may be shorter.
pub(crate) fn even_cuts(alloc: Global, len: usize) -> Result<Vec<u64>, NoMemory>
    requires { len ≤ 1073741824 }
    ensures { IfOk result (λ ends. ends.items ≡ even_ends len) }
{
    let len = len as u64;
    let count = len.div_ceil(EVEN_BLOCK);
    let mut ends = Vec::with_capacity(alloc, count as usize)?;
    for block in 0..count {
        ends.push(len.min(EVEN_BLOCK * (block + 1)))?;
    }
    Ok(ends)
}

/// The bytes of a block.
pub(crate) fn block_at<'b>(bytes: &'b [u8], ends: &[u64], block: usize) -> &'b [u8]
    requires ends { AreEnds 0 (length bytes.now) ends.now }
    requires there { block < length ends.now }
    ensures bytes { get_or (blocks_of bytes.now ends.now) block [] ≡ result.now }
    ensures chunk { IsChunk result.now }
{
    let from = if block == 0 { 0 } else { ends[block - 1] };
    &bytes[from as usize..ends[block] as usize]
}

/// The names of all blocks: one digest each.
pub(crate) fn names_of_blocks(
    alloc: Global,
    bytes: &[u8],
    ends: &[u64],
) -> Result<Vec<[u8; 32]>, NoMemory>
    requires { AreEnds 0 (length bytes.now) ends.now }
    ensures { IfOk result (λ names. names.items ≡ map sha256 (blocks_of bytes.now ends.now)) }
{
    let mut names = Vec::with_capacity(alloc, ends.len())?;
    for block in 0..ends.len() {
        names.push(Sha256::digest(block_at(bytes, ends, block)))?;
    }
    Ok(names)
}

/// For each name of a list the first place at which it stands there.
pub(crate) fn first_places(alloc: Global, names: &[[u8; 32]]) -> Result<Vec<u32>, NoMemory>
    requires { length names.now ≤ 524279 }
    ensures { IfOk result (λ firsts. firsts.items ≡ first_places names.now) }
{
    let mut places = BTreeMap::new(alloc);
    let mut firsts = Vec::with_capacity(alloc, names.len())?;
    for place in 0..names.len() {
        firsts.push(first_place(&mut places, names[place], place as u32)?)?;
    }
    Ok(firsts)
}

// The place that is kept for a name; from now on this one, where none is kept.
fn first_place(
    places: &mut BTreeMap<[u8; 32], u32>,
    name: [u8; 32],
    place: u32,
) -> Result<u32, NoMemory>
    ensures first { IfOk result (λ first. first ≡ unwrap_or (kept bytes_cmp places.old name) place) }
    ensures kept { OnOk result (KeepsFirst places.old places.new name place) }
{
    if let Some(first) = places.get(&name) {
        return Ok(*first);
    }
    match places.insert(name, place) {
        Ok(_) => Ok(place),
        Err(_) => Err(NoMemory),
    }
}

/// What blocks with these names would add to a volume.
pub(crate) fn counts_of(holding: &Holding, names: &[[u8; 32]], firsts: &[u32]) -> NewCounts
    requires firsts { firsts.now ≡ first_places names.now }
    requires few { length names.now ≤ 524279 }
    ensures { CountsNew holding.now.shape names.now result }
{
    let mut counts = NewCounts {
        names: 0,
        unused: 0,
        lacking: 0,
    };
    for place in 0..names.len() {
        counts = with_name(
            holding,
            counts,
            &names[place],
            firsts[place] as usize == place,
        );
    }
    counts
}

// The counts with a name more, where it stands at its first place.
fn with_name(holding: &Holding, counts: NewCounts, name: &[u8; 32], is_first: bool) -> NewCounts
    requires names { counts.names < 524279 }
    requires unused { counts.unused < 524279 }
    requires lacking { counts.lacking < 524279 }
    ensures { result ≡ (if is_first then more_new holding.now.shape counts name.now else counts) }
{
    if !is_first {
        return counts;
    }
    NewCounts {
        names: counts.names + 1,
        unused: counts.unused + u32::from(!holding.is_used(name)),
        lacking: counts.lacking + u32::from(holding.chunk_len(name).is_none()),
    }
}

/// The first limit of a recipe that the files of a volume would pass with one more, in the order of `What`. That of the
/// bytes never stands before that of the chunks.
pub(crate) fn limit_passed(holding: &Holding, counts: NewCounts) -> Option<What>
    requires names { counts.names ≤ 524279 }
    requires unused { counts.unused ≤ 524279 }
    ensures { JudgesCounts holding.now.shape counts result }
{
    if MOST_FILES <= holding.file_count() {
        return Some(What::Files);
    }
    if MOST_CHUNKS < holding.used_count() + counts.unused {
        return Some(What::Chunks);
    }
    if MOST_PAIRS < holding.pair_count() + counts.names {
        return Some(What::Pairs);
    }
    None
}
