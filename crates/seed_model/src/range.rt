// The range of migrated bytes that is asked for.
ghost use Rattle.std.specs.Prelude.{◌≡◌, ◌≤◌};
ghost use Rattle.seed_model.specs.Ranges.{range_around, IsRange};

use crate::limits::MOST_BYTES;

/// From `low` to `high` bytes, both included.
#[derive(Clone, Copy, Debug, PartialEq, Eq)]
pub struct Range {
    pub low: u64,
    pub high: u64,
}

/// The range within `slack` bytes of `target` bytes; it begins at 0 where the slack is greater than the target.
pub fn range_of(target: u64, slack: u64) -> Range
    requires target { target ≤ MOST_BYTES }
    requires slack { slack ≤ MOST_BYTES }
    ensures range { result ≡ range_around target slack }
    ensures lawful { IsRange result }
{
    Range {
        low: target.saturating_sub(slack),
        high: target + slack,
    }
}
