// Sets of files as text.
ghost use Rattle.std.specs.Prelude.{◌≡◌, ◌+◌, ◌*◌, ◌<◌, ◌≤◌, ◌^◌, IfOk, length, if◌then◌else◌};
ghost use Rattle.seed_model.specs.Files.{holds};
ghost use Rattle.seed_text.specs.SetTexts.{set_byte, set_bytes, set_text, byte_count};

use seed_model::{NoMemory, PlanSet};
use std::alloc::Global;

/// A set of files as text: `-` where there are no files, else a bit for each file, the first of eight as the highest of
/// a byte, and the bytes in lower-case hex.
///
/// # Errors
///
/// `NoMemory` where memory runs out.
pub fn write_set(alloc: Global, set: &PlanSet) -> Result<Vec<u8>, NoMemory>
    ensures text { IfOk result (λ v. v.items ≡ set_text set.now) }
{
    if set.files() == 0 {
        return Ok(Vec::from_slice(alloc, b"-".as_slice())?);
    }
    let bytes = bytes_of(alloc, set)?;
    let text = hex::encode(alloc, bytes.as_slice())?;
    Ok(text.into_bytes())
}

// The bits of the set's files, eight to a byte.
fn bytes_of(alloc: Global, set: &PlanSet) -> Result<Vec<u8>, NoMemory>
    ensures { IfOk result (λ v. v.items ≡ set_bytes set.now) }
{
    let count = byte_count_of(set);
    let mut bytes = Vec::new(alloc);
    for place in 0..count {
        bytes.push(byte_at(set, place))?;
    }
    Ok(bytes)
}

// How many bytes have a bit for each file of the set.
fn byte_count_of(set: &PlanSet) -> u32
    ensures count { result ≡ byte_count (length set.now) }
    ensures small { result ≤ 2 ^ 29 }
{
    set.files().div_ceil(8)
}

// The bits of eight files, the first as the highest.
fn byte_at(set: &PlanSet, place: u32) -> u8
    requires { place < 2 ^ 29 }
    ensures { result ≡ set_byte set.now place }
{
    let first = 8 * place;
    bit_of(set, first, 128)
        + bit_of(set, first + 1, 64)
        + bit_of(set, first + 2, 32)
        + bit_of(set, first + 3, 16)
        + bit_of(set, first + 4, 8)
        + bit_of(set, first + 5, 4)
        + bit_of(set, first + 6, 2)
        + bit_of(set, first + 7, 1)
}

// The value of a file's bit: what it weighs where the file is in the set.
fn bit_of(set: &PlanSet, file: u32, weight: u8) -> u8
    ensures value { result ≡ (if holds set.now file then weight else 0) }
    ensures bound { result ≤ weight }
{
    if file < set.files() && set.contains(file) {
        weight
    } else {
        0
    }
}
