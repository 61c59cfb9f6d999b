// Numbers in decimal.
ghost use Rattle.std.specs.Prelude.{◌≡◌, ◌++◌, ◌<◌, ◌≤◌, ◌^◌, ℕ, drop, length, slice_index, IsTrue, ◌↔◌, IfSome, IfNone, OnOk, OnErr};
ghost use Rattle.std.specs.Fmt.{decimal};
ghost use Rattle.std.specs.Str.Parse.{AllDigits, digits_value};
ghost use Rattle.seed_model.specs.Numbers.{SpelledAboveSpaces, SpelledApart, SpelledByNumerals};

use crate::memory::NoMemory;

/// The most digits of a number below 2^128.
const MOST_DIGITS: usize = 39;

/// As many digits as each number of so many is below 2^64.
const FEW_DIGITS: usize = 19;

/// Reads a number from 0 to `limit`, spelled in decimal with no sign and no leading zero. `None` where the text spells
/// no such number.
pub fn read_number(text: &[u8], limit: u128) -> Option<u128>
    ensures found { IfSome result (λ n. (text.now ≡ decimal n) × (n ≤ limit)) }
    ensures only { IfSome result (λ n. (other : ℕ) → other < 2 ^ 128 → text.now ≡ decimal other → other ≡ n) }
    ensures none { IfNone result ((n : ℕ) → text.now ≡ decimal n → limit < n) }
{
    if !begins_as_number(text) {
        return None;
    }
    let Some(number) = read_digits(text) else {
        return None;
    };
    if number > limit {
        return None;
    }
    Some(number)
}

// Whether the text has a first byte, which is a zero only where it is the last.
fn begins_as_number(text: &[u8]) -> bool
    ensures { IsTrue result ↔ ((0 < length text.now) × (slice_index text.now 0 ≡ 48 → length text.now ≡ 1)) }
{
    text.len() == 1 || (text.len() > 1 && text[0] != b'0')
}

// The number that digits stand for, with any leading zeros. Few digits make a number below 2^64, where arithmetic is
// quick and no step can pass the bound.
fn read_digits(text: &[u8]) -> Option<u128>
    ensures found { IfSome result (λ n. AllDigits 10 text.now × (n ≡ digits_value 10 text.now)) }
    ensures none { IfNone result (AllDigits 10 text.now → 2 ^ 128 ≤ digits_value 10 text.now) }
{
    if text.len() > FEW_DIGITS {
        return read_many_digits(text);
    }
    match read_few_digits(text) {
        Some(number) => Some(number as u128),
        None => None,
    }
}

// The same, of few digits.
fn read_few_digits(text: &[u8]) -> Option<u64>
    requires { length text.now ≤ FEW_DIGITS }
    ensures found { IfSome result (λ n. AllDigits 10 text.now × (n ≡ digits_value 10 text.now)) }
    ensures none { IfNone result (¬ AllDigits 10 text.now) }
{
    let mut number: u64 = 0;
    for byte in text {
        if !byte.is_ascii_digit() {
            return None;
        }
        number = number * 10 + (*byte - b'0') as u64;
    }
    Some(number)
}

// The same as `read_digits`, of any digits.
fn read_many_digits(text: &[u8]) -> Option<u128>
    ensures found { IfSome result (λ n. AllDigits 10 text.now × (n ≡ digits_value 10 text.now)) }
    ensures none { IfNone result (AllDigits 10 text.now → 2 ^ 128 ≤ digits_value 10 text.now) }
{
    let mut number: u128 = 0;
    for byte in text {
        if !byte.is_ascii_digit() {
            return None;
        }
        let Some(tens) = number.checked_mul(10) else {
            return None;
        };
        let Some(next) = tens.checked_add((*byte - b'0') as u128) else {
            return None;
        };
        number = next;
    }
    Some(number)
}

/// Appends a number in decimal. On want of memory nothing is appended.
pub fn write_number(n: u128, out: &mut Vec<u8>) -> Result<(), NoMemory>
    ensures ok { OnOk result (out.new.items ≡ out.old.items ++ decimal n) }
    ensures err { OnErr result (out.new.items ≡ out.old.items) }
{
    let mut digits = [0u8; MOST_DIGITS];
    let start = write_digits(n, &mut digits);
    let Ok(()) = out.extend_from_slice(&digits[start..]) else {
        return Err(NoMemory);
    };
    Ok(())
}

// Puts a number in decimal at the end of the digits, and says where it begins.
fn write_digits(n: u128, digits: &mut [u8; MOST_DIGITS]) -> usize
    ensures within { result ≤ MOST_DIGITS }
    ensures text { drop result digits.new ≡ decimal n }
{
    let mut start = MOST_DIGITS - 1;
    let mut rest = n / 10;
    digits[start] = b'0' + (n % 10) as u8;
    while rest > 0 {
        start -= 1;
        digits[start] = b'0' + (rest % 10) as u8;
        rest /= 10;
    }
    start
}

/// How numbers are spelled: no two alike, just the numerals without a leading zero, and with no byte up to 32.
pub fn number_laws()
    ensures one_spelling { SpelledApart }
    ensures form { SpelledByNumerals }
    ensures above_spaces { SpelledAboveSpaces }
{}
