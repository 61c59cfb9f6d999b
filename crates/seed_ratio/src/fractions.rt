// Fractions with exact answers at any size.
ghost use Rattle.std.specs.Prelude.{◌≡◌, ◌+◌, ◌*◌, ◌≤◌, ◌<◌};
ghost use Rattle.std.specs.Ordering.{nat_cmp};
ghost use Rattle.std.specs.Int.{IsGcd};
ghost use Rattle.seed_ratio.specs.Fractions.{IsCeiling, IsLowest};

use std::cmp::Ordering;

/// Compares `a / b` with `c / d`. No two of the four are multiplied, so numbers of any size are compared exactly: the
/// whole parts decide, and where they are equal, the parts left over do, turned upside down.
pub fn compare(a: u128, b: u128, c: u128, d: u128) -> Ordering
    requires divisor { 1 ≤ b }
    requires other_divisor { 1 ≤ d }
    ensures { result ≡ nat_cmp (a * d) (c * b) }
{
    let whole = a / b;
    let other_whole = c / d;
    if whole != other_whole {
        return whole.cmp(&other_whole);
    }
    let left = a % b;
    let right = c % d;
    if left == 0 || right == 0 {
        return left.cmp(&right);
    }
    compare(d, right, b, left)
}

/// The least whole number that is at least `a / b`.
pub fn ceiling(a: u128, b: u128) -> u128
    requires { 1 ≤ b }
    ensures { IsCeiling a b result }
{
    a.div_ceil(b)
}

/// `a / b` in lowest terms, as numerator and denominator.
pub fn lowest(a: u128, b: u128) -> (u128, u128)
    requires { 1 ≤ b }
    ensures { IsLowest a b result.0 result.1 }
{
    let divisor = gcd(a, b);
    (a / divisor, b / divisor)
}

// The greatest common divisor, by Euclid's remainders.
fn gcd(a: u128, b: u128) -> u128
    requires { 0 < a + b }
    ensures divisor { IsGcd a b result }
    ensures some { 1 ≤ result }
{
    if b == 0 { a } else { gcd(b, a % b) }
}
