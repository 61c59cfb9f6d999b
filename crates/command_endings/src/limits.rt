// How much is read.
ghost use Rattle.std.specs.Prelude.{◌≡◌, ◌^◌};

/// The most bytes of a recipe's text: 2^30.
pub const MOST_RECIPE_BYTES: u64 = 1_073_741_824;

/// The most bytes of a certificate's text: 2^47.
pub const MOST_CERTIFICATE_BYTES: u64 = 140_737_488_355_328;

/// The limits as numbers.
pub fn limit_laws()
    ensures recipe { MOST_RECIPE_BYTES ≡ 2 ^ 30 }
    ensures certificate { MOST_CERTIFICATE_BYTES ≡ 2 ^ 47 }
{}
