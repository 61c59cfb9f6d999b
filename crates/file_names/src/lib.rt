//! The names that a file may have.
#![tactic(auto)]

ghost use Rattle.std.specs.Prelude.{◌≡◌, ◌↔◌, ℕ, ◌<◌, ◌≤◌, List, length, IsTrue, IfSome, IfNone};
ghost use Rattle.std.specs.Char.{is_control};
ghost use Rattle.std.specs.List.{list_any};
ghost use Rattle.std.specs.Str.{chars};
ghost use Rattle.file_names.specs.FileNames.{IsFileName, StartsWithMark};

/// The longest name of a file, in bytes.
pub const LONGEST_NAME: usize = 255;

/// Whether the text is a lawful file name: 1 to 255 bytes, no control character, and no byte order mark in front.
pub fn is_file_name(name: &str) -> bool
    ensures { IsTrue result ↔ IsFileName name.now }
{
    let bytes = name.as_bytes();
    if !has_lawful_length(bytes) {
        return false;
    }
    if starts_with_mark(bytes) {
        return false;
    }
    !has_control(name)
}

// Whether the bytes are as many as those of a name.
fn has_lawful_length(bytes: &[u8]) -> bool
    ensures { IsTrue result ↔ ((0 < length bytes.now) × (length bytes.now ≤ LONGEST_NAME)) }
{
    !bytes.is_empty() && bytes.len() <= LONGEST_NAME
}

// Whether the bytes begin with those of U+FEFF.
fn starts_with_mark(bytes: &[u8]) -> bool
    ensures { IsTrue result ↔ StartsWithMark bytes.now }
{
    matches!(bytes, [0xEF, 0xBB, 0xBF, ..])
}

// Whether a character of the text is a control character.
fn has_control(text: &str) -> bool
    ensures { result ≡ list_any is_control (chars text.now) }
{
    for character in text.chars() {
        if character.is_control() {
            return true;
        }
    }
    false
}

/// The bytes as a file name, where they are one.
pub fn file_name_of(bytes: &[u8]) -> Option<&str>
    ensures same { IfSome result (λ text. (text.now ≡ bytes.now) × IsFileName bytes.now) }
    ensures none { IfNone result (¬ IsFileName bytes.now) }
{
    let Ok(name) = str::from_utf8(bytes) else {
        return None;
    };
    if !is_file_name(name) {
        return None;
    }
    Some(name)
}

/// A file name has at most 255 bytes. None begins with the bytes EF BB BF, which a reader of rows skips at the start of
/// a text.
pub fn file_name_laws()
    ensures longest { LONGEST_NAME ≡ 255 }
    ensures unmarked { (name : List ℕ) → IsFileName name → ¬ StartsWithMark name }
{}
