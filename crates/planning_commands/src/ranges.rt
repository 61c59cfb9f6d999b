// The range of a target and a slack.
ghost use Rattle.std.specs.Prelude.{◌≡◌, ◌≤◌};
ghost use Rattle.seed_model.specs.Ranges.{range_around, IsRange};
ghost use Rattle.goseed_words.specs.Amounts.{IsAmount, amount_in};

use goseed_words::Amount;
use seed_model::limits::MOST_BYTES;
use seed_model::{Range, range_of};

/// The range of a target and a slack, percents being those of a total.
pub fn range_within(total: u64, target: Amount, slack: Amount) -> Range
    requires total { total ≤ MOST_BYTES }
    requires target { IsAmount target }
    requires slack { IsAmount slack }
    ensures range { result ≡ range_around (amount_in total target) (amount_in total slack) }
    ensures lawful { IsRange result }
{
    range_of(bytes_in(total, target), bytes_in(total, slack))
}

/// The bytes that an amount means, of a total.
fn bytes_in(total: u64, amount: Amount) -> u64
    requires total { total ≤ MOST_BYTES }
    requires amount { IsAmount amount }
    ensures bytes { result ≡ amount_in total amount }
    ensures most { result ≤ MOST_BYTES }
{
    match amount {
        Amount::Bytes(bytes) => bytes,
        Amount::Percent(percent) => total * percent as u64 / 100,
    }
}
