// Whether a volume is ready for a file: all that may be refused is refused here, before the first record.
ghost use Rattle.std.specs.Prelude.{◌≡◌, ◌+◌, ◌*◌, ◌^◌, ◌<◌, ◌≤◌, ℕ, true, false, [], All, Ok, get_or, length, map, take};
ghost use Rattle.fault_count.specs.Counts.{HandsOn};
ghost use Rattle.file_names.specs.FileNames.{IsFileName};
ghost use Rattle.sha2.specs.Sha256.{sha256};
ghost use Rattle.device_pieces.specs.Quiet.{Quiet};
ghost use Rattle.site_forms.specs.VolumeRecords.{IsChunk};
ghost use Rattle.site_forms.specs.Volumes.{Volume as FormVolume};
ghost use Rattle.chunk_volume.specs.declared.errors.VolError.TheVariants.{RackFault as VolumeFault};
ghost use Rattle.chunk_volume.specs.Standing.{VolumeStands};
ghost use Rattle.seed_mover.specs.declared.errors.SiteError.TheVariants.{RackFault};
ghost use Rattle.seed_mover.specs.Blocks.{first_places, is_new};
ghost use Rattle.seed_mover.specs.Putting.{AreEnds, FindsBlocks, HasBlock, LacksFile, blocks_of};
ghost use Rattle.seed_mover.specs.PutParts.{Compares, EndsBehind, FindsCompared, FindsKept, JudgesRoom, ReadiesVolume, SameBytes};

use super::blocks::{block_at, counts_of, first_places, limit_passed};
use crate::errors::SiteError;
use chunk_volume::{Holding, VolError, Volume};
use std::alloc::Global;
use volume_disk::Rack;

/// Judges all that may refuse a file, and makes room in memory for its records.
pub(crate) fn ready_volume<R: Rack>(
    alloc: Global,
    volume: &mut Volume,
    rack: &mut R,
    name: &str,
    bytes: &[u8],
    ends: &[u64],
    names: &[[u8; 32]],
) -> Result<(), SiteError>
    requires lawful { IsFileName name.now }
    requires ends { AreEnds 0 (length bytes.now) ends.now }
    requires few { length ends.now ≤ 524279 }
    requires lacking { LacksFile volume.old.shape name.now }
    requires names { names.now ≡ map sha256 (blocks_of bytes.now ends.now) }
    ensures cause { HandsOn RackFault (R.faults rack.old) (R.faults rack.new) result }
    ensures honest { R.honest rack.new ≡ R.honest rack.old }
    ensures readies { ReadiesVolume volume.old volume.new name.now (blocks_of bytes.now ends.now) result }
    ensures quiet { R.honest rack.old ≡ true → Quiet R.moment R.left_since rack.old rack.new (R.disk rack.old) (R.disk rack.new) }
    ensures finds { (place : ℕ) (a : FormVolume) → R.honest rack.old ≡ true → VolumeStands place volume.old (R.disk rack.old) a → FindsBlocks a (blocks_of bytes.now ends.now) result }
{
    match first_places(alloc, names) {
        Ok(firsts) => ready_blocks(volume, rack, name, bytes, ends, names, firsts.as_slice()),
        Err(_) => Err(SiteError::Memory),
    }
}

// The same, once the first place of each name is known.
fn ready_blocks<R: Rack>(
    volume: &mut Volume,
    rack: &mut R,
    name: &str,
    bytes: &[u8],
    ends: &[u64],
    names: &[[u8; 32]],
    firsts: &[u32],
) -> Result<(), SiteError>
    requires lawful { IsFileName name.now }
    requires ends { AreEnds 0 (length bytes.now) ends.now }
    requires few { length ends.now ≤ 524279 }
    requires lacking { LacksFile volume.old.shape name.now }
    requires names { names.now ≡ map sha256 (blocks_of bytes.now ends.now) }
    requires firsts { firsts.now ≡ first_places names.now }
    ensures cause { HandsOn RackFault (R.faults rack.old) (R.faults rack.new) result }
    ensures honest { R.honest rack.new ≡ R.honest rack.old }
    ensures readies { ReadiesVolume volume.old volume.new name.now (blocks_of bytes.now ends.now) result }
    ensures quiet { R.honest rack.old ≡ true → Quiet R.moment R.left_since rack.old rack.new (R.disk rack.old) (R.disk rack.new) }
    ensures finds { (place : ℕ) (a : FormVolume) → R.honest rack.old ≡ true → VolumeStands place volume.old (R.disk rack.old) a → FindsBlocks a (blocks_of bytes.now ends.now) result }
{
    let counts = counts_of(volume.holding(), names, firsts);
    if let Some(what) = limit_passed(volume.holding(), counts) {
        return Err(SiteError::VolumeFull(what));
    }
    if let Err(error) = compare_blocks(volume, rack, bytes, ends, names, firsts) {
        return Err(SiteError::from(error));
    }
    if let Err(error) = judge_room(volume, name, bytes, ends, names, firsts) {
        return Err(error);
    }
    let body = longest_body(bytes, ends).max(2 + name.len() + 32 * names.len());
    match volume.reserve(counts.lacking as usize, 1, body) {
        Ok(()) => Ok(()),
        Err(_) => Err(SiteError::Memory),
    }
}

// Compares each block with what is kept under its name.
fn compare_blocks<R: Rack>(
    volume: &Volume,
    rack: &mut R,
    bytes: &[u8],
    ends: &[u64],
    names: &[[u8; 32]],
    firsts: &[u32],
) -> Result<(), VolError>
    requires ends { AreEnds 0 (length bytes.now) ends.now }
    requires names { names.now ≡ map sha256 (blocks_of bytes.now ends.now) }
    requires firsts { firsts.now ≡ first_places names.now }
    ensures cause { HandsOn VolumeFault (R.faults rack.old) (R.faults rack.new) result }
    ensures honest { R.honest rack.new ≡ R.honest rack.old }
    ensures compares { Compares volume.now (HasBlock (blocks_of bytes.now ends.now)) result }
    ensures quiet { R.honest rack.old ≡ true → Quiet R.moment R.left_since rack.old rack.new (R.disk rack.old) (R.disk rack.new) }
    ensures finds { (place : ℕ) (a : FormVolume) → R.honest rack.old ≡ true → VolumeStands place volume.now (R.disk rack.old) a → FindsCompared a (blocks_of bytes.now ends.now) result }
{
    for block in 0..ends.len() {
        let first = firsts[block] as usize;
        let kept = block_at(bytes, ends, first);
        let own = block_at(bytes, ends, block);
        if let Err(error) = compare_block(volume, rack, &names[block], own, kept, first < block) {
            return Err(error);
        }
    }
    Ok(())
}

// Compares a block with the first one of its name, or, where it is that one, with what the volume holds.
fn compare_block<R: Rack>(
    volume: &Volume,
    rack: &mut R,
    name: &[u8; 32],
    own: &[u8],
    kept: &[u8],
    is_repeated: bool,
) -> Result<(), VolError>
    ensures cause { HandsOn VolumeFault (R.faults rack.old) (R.faults rack.new) result }
    ensures honest { R.honest rack.new ≡ R.honest rack.old }
    ensures compares { Compares volume.now (λ chunk. chunk ≡ name.now) result }
    ensures quiet { R.honest rack.old ≡ true → Quiet R.moment R.left_since rack.old rack.new (R.disk rack.old) (R.disk rack.new) }
    ensures finds { (place : ℕ) (a : FormVolume) → R.honest rack.old ≡ true → VolumeStands place volume.now (R.disk rack.old) a → FindsKept a name.now own.now kept.now is_repeated result }
{
    if is_repeated {
        return same_bytes(name, kept, own);
    }
    if volume.holding().chunk_len(name).is_none() {
        return Ok(());
    }
    match volume.read_chunk(rack, name) {
        Ok(held) => same_bytes(name, held.as_slice(), own),
        Err(error) => Err(error),
    }
}

// Whether two chunks of one name have the same bytes.
fn same_bytes(name: &[u8; 32], kept: &[u8], own: &[u8]) -> Result<(), VolError>
    ensures { SameBytes name.now kept.now own.now result }
{
    if kept == own {
        return Ok(());
    }
    Err(VolError::Collision { name: *name })
}

// Whether the log of a volume has room for the chunks that it lacks and for the file, one behind the other.
fn judge_room(
    volume: &Volume,
    name: &str,
    bytes: &[u8],
    ends: &[u64],
    names: &[[u8; 32]],
    firsts: &[u32],
) -> Result<(), SiteError>
    requires lawful { IsFileName name.now }
    requires ends { AreEnds 0 (length bytes.now) ends.now }
    requires few { length ends.now ≤ 524279 }
    requires names { names.now ≡ map sha256 (blocks_of bytes.now ends.now) }
    requires firsts { firsts.now ≡ first_places names.now }
    ensures { JudgesRoom volume.now name.now (blocks_of bytes.now ends.now) result }
{
    let mut end = volume.end();
    for block in 0..ends.len() {
        let is_new = is_new_block(volume.holding(), names, firsts, block);
        match end_behind_block(volume, end, block_at(bytes, ends, block), is_new) {
            Ok(next) => end = next,
            Err(error) => return Err(error),
        }
    }
    match end_behind(volume, end, (2 + name.len() + 32 * names.len()) as u32) {
        Ok(_) => Ok(()),
        Err(error) => Err(error),
    }
}

// Whether a volume lacks the chunk of a block, and no earlier block has its name.
fn is_new_block(holding: &Holding, names: &[[u8; 32]], firsts: &[u32], block: usize) -> bool
    requires firsts { firsts.now ≡ first_places names.now }
    requires there { block < length names.now }
    ensures { result ≡ is_new holding.now.shape (take block names.now) (get_or names.now block []) }
{
    firsts[block] as usize == block && holding.chunk_len(&names[block]).is_none()
}

// The end of the log of a volume once the chunk of a block is added behind this one, where it is new.
fn end_behind_block(volume: &Volume, end: u64, own: &[u8], is_new: bool) -> Result<u64, SiteError>
    requires end { end ≤ 2 ^ 40 }
    requires chunk { IsChunk own.now }
    ensures new { is_new ≡ true → EndsBehind volume.now.log end (33 + length own.now) result }
    ensures other { is_new ≡ false → result ≡ Ok end }
{
    if is_new {
        end_behind(volume, end, 33 + own.len() as u32)
    } else {
        Ok(end)
    }
}

// The end of the log of a volume once a body is added behind this one.
fn end_behind(volume: &Volume, end: u64, len: u32) -> Result<u64, SiteError>
    requires { end ≤ 2 ^ 40 }
    ensures { EndsBehind volume.now.log end len result }
{
    if volume.limit() < end + u64::from(len) + 6 {
        return Err(SiteError::DeviceFull {
            device: volume.device(),
            end,
            len,
        });
    }
    Ok(end + 5 + u64::from(len))
}

// How long the longest body of a block's record is.
fn longest_body(bytes: &[u8], ends: &[u64]) -> usize
    requires { AreEnds 0 (length bytes.now) ends.now }
    ensures all { All (λ block. 33 + length block ≤ result) (blocks_of bytes.now ends.now) }
    ensures most { result ≤ 1048609 }
{
    let mut longest = 33;
    for block in 0..ends.len() {
        longest = longest.max(33 + block_at(bytes, ends, block).len());
    }
    longest
}
