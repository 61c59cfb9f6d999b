// Weighted means of whole numbers.
ghost use Rattle.std.specs.Prelude.{◌≡◌, ◌+◌, ◌*◌, ◌≤◌, ◌<◌, ◌^◌, ◌↔◌, IsTrue};

/// Whether the mean of `a` and `b`, weighted by `alpha` and `beta`, is at most `limit`; true where both weights are 0.
pub fn mix_le(alpha: u64, a: u64, beta: u64, b: u64, limit: u64) -> bool
    requires alpha { alpha < 2 ^ 51 }
    requires first { a < 2 ^ 51 }
    requires beta { beta < 2 ^ 51 }
    requires second { b < 2 ^ 51 }
    requires limit { limit < 2 ^ 51 }
    ensures { IsTrue result ↔ (alpha * a + beta * b ≤ limit * (alpha + beta)) }
{
    let mixed = alpha as u128 * a as u128 + beta as u128 * b as u128;
    let weighed = limit as u128 * (alpha as u128 + beta as u128);
    mixed <= weighed
}
