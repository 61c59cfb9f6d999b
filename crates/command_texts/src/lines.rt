// Lines of text.
ghost use Rattle.std.specs.Prelude.{◌≡◌, ◌++◌, codes, OnOk};
ghost use Rattle.command_texts.specs.Lines.{line, number_line, numbers_line, spaced};

use seed_model::{NoMemory, write_number};

/// Puts a line behind a text: a word, a space and the rest.
pub fn add_line(text: &mut Vec<u8>, word: &[u8], rest: &[u8]) -> Result<(), NoMemory>
    ensures { OnOk result (text.new.items ≡ text.old.items ++ line (word.now ++ codes " " ++ rest.now)) }
{
    add(text, word)?;
    add(text, b" ")?;
    add(text, rest)?;
    add(text, b"\n")
}

/// Puts a line behind a text: a word, a space and a number.
pub fn add_number(text: &mut Vec<u8>, word: &[u8], number: u64) -> Result<(), NoMemory>
    ensures { OnOk result (text.new.items ≡ text.old.items ++ number_line word.now number) }
{
    add_numbers(text, word, &[number])
}

/// Puts a line behind a text: a word, and numbers with a space before each.
pub fn add_numbers(text: &mut Vec<u8>, word: &[u8], numbers: &[u64]) -> Result<(), NoMemory>
    ensures { OnOk result (text.new.items ≡ text.old.items ++ numbers_line word.now numbers.now) }
{
    add(text, word)?;
    add_spaced(text, numbers)?;
    add(text, b"\n")
}

/// Puts numbers behind a text, with a space before each.
fn add_spaced(text: &mut Vec<u8>, numbers: &[u64]) -> Result<(), NoMemory>
    ensures { OnOk result (text.new.items ≡ text.old.items ++ spaced numbers.now) }
{
    for number in numbers {
        add(text, b" ")?;
        write_number(*number as u128, text)?;
    }
    Ok(())
}

/// Puts bytes behind a text.
pub fn add(text: &mut Vec<u8>, bytes: &[u8]) -> Result<(), NoMemory>
    ensures { OnOk result (text.new.items ≡ text.old.items ++ bytes.now) }
{
    text.extend_from_slice(bytes)?;
    Ok(())
}
