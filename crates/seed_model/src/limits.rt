// The sizes that every input keeps to.
ghost use Rattle.std.specs.Prelude.{◌≡◌, ◌-◌, ◌^◌};

/// The most files of a recipe or a table.
pub const MOST_FILES: u32 = 16_383;

/// The most distinct chunks of a recipe, and the most classes of a table.
pub const MOST_CHUNKS: u32 = 1_048_575;

/// The most distinct pairs of a file and a chunk, or of a file and a class.
pub const MOST_PAIRS: u32 = 4_194_303;

/// The most bytes of all distinct chunks together, and the greatest target and slack: 2^50 - 1.
pub const MOST_BYTES: u64 = 1_125_899_906_842_623;

/// The most files of a table of which every set is tried.
pub const MOST_TRIED_FILES: u32 = 16;

/// The limits in plain numbers.
pub fn limit_laws()
    ensures files { MOST_FILES ≡ 16383 }
    ensures chunks { MOST_CHUNKS ≡ 1048575 }
    ensures pairs { MOST_PAIRS ≡ 4194303 }
    ensures bytes { MOST_BYTES ≡ 2 ^ 50 - 1 }
    ensures tried { MOST_TRIED_FILES ≡ 16 }
{}
