// Sets of files from text.
ghost use Rattle.std.specs.Prelude.{◌≡◌, ◌≢◌, ◌+◌, ◌*◌, ◌<◌, ◌≤◌, ◌^◌, ◌↔◌, ℕ, List, Bool, length, IfOk, IfSome, IfNone, IsTrue, true, false};
ghost use Rattle.seed_model.specs.Files.{holds};
ghost use Rattle.seed_text.specs.SetDigits.{digit_of, hex_digit};
ghost use Rattle.seed_text.specs.SetTexts.{set_text};

use seed_model::{NoMemory, PlanSet};
use std::alloc::Global;

/// Reads a set of so many files from its text. `None` where the text is that of no such set: upper case, another
/// width, and a bit for no file are refused.
///
/// # Errors
///
/// `NoMemory` where memory runs out.
pub fn read_set(alloc: Global, text: &[u8], files: u32) -> Result<Option<PlanSet>, NoMemory>
    ensures found { IfOk result (λ o. IfSome o (λ set. (length set ≡ files) × (text.now ≡ set_text set))) }
    ensures none { IfOk result (λ o. IfNone o ((set : List Bool) → length set ≡ files → text.now ≢ set_text set)) }
{
    let mut set = PlanSet::empty(alloc, files)?;
    if !fill_set(text, &mut set) {
        return Ok(None);
    }
    Ok(Some(set))
}

/// Reads a set from its text into a set of as many files, whatever that one has. True exactly where the text is that of
/// such a set, which is there then; else nothing is known of the files that are in the set.
pub fn fill_set(text: &[u8], set: &mut PlanSet) -> bool
    ensures text { IsTrue result ↔ ((one : List Bool) × (length one ≡ length set.old) × (text.now ≡ set_text one)) }
    ensures set { result ≡ true → text.now ≡ set_text set.new }
    ensures stays { length set.new ≡ length set.old }
{
    if set.files() == 0 {
        return text == b"-".as_slice();
    }
    let digits = 2 * set.files().div_ceil(8);
    if text.len() != digits as usize {
        return false;
    }
    for place in 0..digits {
        let Some(value) = digit_value(text[place as usize]) else {
            return false;
        };
        if !put_digit(set, place, value) {
            return false;
        }
    }
    true
}

// The value of a digit of lower-case hex.
fn digit_value(byte: u8) -> Option<u8>
    ensures found { IfSome result (λ value. (value < 16) × (byte ≡ hex_digit value)) }
    ensures none { IfNone result ((value : ℕ) → value < 16 → byte ≢ hex_digit value) }
{
    match byte {
        b'0'..=b'9' => Some(byte - b'0'),
        b'a'..=b'f' => Some(byte - b'a' + 10),
        _ => None,
    }
}

// Puts the four files of a digit in or out of the set. False where the digit has a bit for no file.
fn put_digit(set: &mut PlanSet, place: u32, value: u8) -> bool
    requires place { place < 2 ^ 30 }
    requires value { value < 16 }
    ensures told { result ≡ true → digit_of set.new place ≡ value }
    ensures other { result ≡ false → (one : List Bool) → length one ≡ length set.old → digit_of one place ≢ value }
    ensures before { (file : ℕ) → file < 4 * place → holds set.new file ≡ holds set.old file }
    ensures stays { length set.new ≡ length set.old }
{
    let first = 4 * place;
    put_bit(set, first, value / 8 == 1)
        && put_bit(set, first + 1, value / 4 % 2 == 1)
        && put_bit(set, first + 2, value / 2 % 2 == 1)
        && put_bit(set, first + 3, value % 2 == 1)
}

// Puts a file in or out of the set. False where it is to be in and there is no such file.
fn put_bit(set: &mut PlanSet, file: u32, inside: bool) -> bool
    ensures told { result ≡ true → holds set.new file ≡ inside }
    ensures other { result ≡ false → (length set.old ≤ file) × (inside ≡ true) }
    ensures others { (other : ℕ) → other ≢ file → holds set.new other ≡ holds set.old other }
    ensures stays { length set.new ≡ length set.old }
{
    if file >= set.files() {
        return !inside;
    }
    if inside {
        set.insert(file);
    } else {
        set.remove(file);
    }
    true
}
