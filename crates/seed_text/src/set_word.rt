// Words that may be the text of a set of files.
ghost use Rattle.std.specs.Prelude.{◌↔◌, IsTrue};
ghost use Rattle.seed_text.specs.SetWords.{IsHexDigit, IsSetWord, TextsAreSetWords};

/// The most hex digits of a word that is the text of a set: two for eight of the most files that a recipe has.
const MOST_DIGITS: usize = 4096;

/// Whether a word may be the text of a set of files: `-`, or an even number from 2 to 4,096 of digits of lower-case hex.
/// Which of these words are sets of its files, a recipe tells.
pub fn is_set_word(text: &[u8]) -> bool
    ensures { IsTrue result ↔ IsSetWord text.now }
{
    if text == b"-".as_slice() {
        return true;
    }
    if text.len() < 2 || text.len() > MOST_DIGITS || text.len() % 2 != 0 {
        return false;
    }
    text.iter().all(|digit| is_hex_digit(*digit))
}

/// Whether a byte is a digit of lower-case hex.
fn is_hex_digit(digit: u8) -> bool
    ensures { IsTrue result ↔ IsHexDigit digit }
{
    matches!(digit, b'0'..=b'9' | b'a'..=b'f')
}

/// Each set of files has the text of a set word.
pub fn set_word_laws()
    ensures { TextsAreSetWords }
{}
