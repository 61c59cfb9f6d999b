// Amounts: bytes, or percents of a total.
ghost use Rattle.std.specs.Prelude.{◌≡◌, ◌<◌, ℕ, IfSome, IfNone};
ghost use Rattle.std.specs.Fmt.{decimal};
ghost use Rattle.seed_model.specs.declared.limits.TheConstants.{MOST_BYTES};
ghost use Rattle.goseed_words.specs.declared.amount.Amount.{Amount};
ghost use Rattle.goseed_words.specs.Amounts.{SpellsAmount, IsPercentOf, IsBytesOf};

use seed_model::limits::MOST_BYTES;
use seed_model::read_number;

/// A number of bytes, or whole percents of a total, rounded down.
#[derive(Clone, Copy, Debug, PartialEq, Eq)]
pub enum Amount {
    /// 0 to 2^50 - 1 bytes.
    Bytes(u64),
    /// 0 to 100 percent.
    Percent(u8),
}

/// The amount that a word spells: digits, and `%` behind those of percents.
pub(crate) fn amount_of(word: &str) -> Option<Amount>
    ensures found { IfSome result (λ amount. SpellsAmount word.now amount) }
    ensures none { IfNone result ((amount : Amount) → ¬ SpellsAmount word.now amount) }
{
    match word.as_bytes().split_last() {
        Some((b'%', digits)) => percent_of(digits),
        _ => bytes_of(word.as_bytes()),
    }
}

/// Percents from 0 to 100, spelled without their `%`.
fn percent_of(digits: &[u8]) -> Option<Amount>
    ensures found { IfSome result (λ amount. IsPercentOf digits.now amount) }
    ensures none { IfNone result ((k : ℕ) → digits.now ≡ decimal k → 100 < k) }
{
    let percent = read_number(digits, 100)?;
    Some(Amount::Percent(percent as u8))
}

/// Bytes from 0 to 2^50 - 1.
fn bytes_of(digits: &[u8]) -> Option<Amount>
    ensures found { IfSome result (λ amount. IsBytesOf digits.now amount) }
    ensures none { IfNone result ((n : ℕ) → digits.now ≡ decimal n → MOST_BYTES < n) }
{
    let bytes = read_number(digits, MOST_BYTES as u128)?;
    Some(Amount::Bytes(bytes as u64))
}
