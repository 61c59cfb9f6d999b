// The value of a mix.
ghost use Rattle.std.specs.Prelude.{◌≡◌, ◌^◌, ◌<◌, length};
ghost use Rattle.seed_model.specs.Nodes.{weight_of, mixed_replicated};
ghost use Rattle.seed_ratio.specs.Fractions.{IsLowest};

use seed_model::{Mix, Table, replicated};
use seed_ratio::lowest;

/// The bytes that the sets of a mix replicate, in their weighted mean: a fraction in lowest terms, as numerator and
/// denominator. The weights are below 2^51 and not both 0.
pub fn value_of(table: &Table, mix: &Mix) -> (u128, u128)
    requires first { length mix.now.first ≡ table.now.files }
    requires second { length mix.now.second ≡ table.now.files }
    requires alpha { mix.now.alpha < 2 ^ 51 }
    requires beta { mix.now.beta < 2 ^ 51 }
    requires weighed { 0 < weight_of mix.now }
    ensures { IsLowest (mixed_replicated table.now mix.now) (weight_of mix.now) result.0 result.1 }
{
    let first = mix.alpha as u128 * replicated(table, &mix.first) as u128;
    let second = mix.beta as u128 * replicated(table, &mix.second) as u128;
    lowest(first + second, mix.alpha as u128 + mix.beta as u128)
}
