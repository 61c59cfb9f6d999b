// Why a text is no recipe, and how large a recipe may be.
ghost use Rattle.std.specs.Prelude.{◌≡◌};

use seed_model::limits::{MOST_BYTES, MOST_CHUNKS, MOST_FILES, MOST_PAIRS};

/// The longest name of a chunk in a recipe, in bytes.
pub const LONGEST_CHUNK_NAME: usize = 64;

/// The greatest size of a chunk in a recipe, in bytes: 2^32 - 1.
pub const GREATEST_SIZE: u64 = 4_294_967_295;

/// What a recipe would have too many of, in the order in which the limits are judged.
#[derive(Clone, Copy, Debug, PartialEq, Eq)]
pub enum What {
    Files,
    Chunks,
    Bytes,
    Pairs,
}

/// The first fault of the first row at fault, the rows counted from 1; or want of memory.
#[derive(Clone, Copy, Debug, PartialEq, Eq)]
pub enum RecipeError {
    /// The row has not three fields.
    BadRow { row: u64 },
    /// The first field is no lawful file name.
    BadName { row: u64 },
    /// The second field is neither empty nor 1 to 64 bytes in hex.
    BadChunkName { row: u64 },
    /// The third field is no size from 0 to 2^32 - 1, or is not 0 where no chunk is named.
    BadSize { row: u64 },
    /// The chunk stood in an earlier row with another size.
    SizeClash { row: u64, first: u64, now: u64 },
    /// With this row a limit is passed.
    TooMany { row: u64, what: What },
    /// Memory ran out.
    Memory,
}

/// Why a file or a pair is refused. The recipe is as before.
#[derive(Clone, Copy, Debug, PartialEq, Eq)]
pub enum AddError {
    /// The chunk stands in the recipe with another size.
    Clash { first: u64, now: u64 },
    /// A limit would be passed.
    TooMany(What),
    /// Memory ran out.
    Memory,
}

/// The limits of a recipe, in numbers.
pub fn limit_laws()
    ensures files { MOST_FILES ≡ 16383 }
    ensures chunks { MOST_CHUNKS ≡ 1048575 }
    ensures pairs { MOST_PAIRS ≡ 4194303 }
    ensures bytes { MOST_BYTES ≡ 1125899906842623 }
    ensures chunk_name { LONGEST_CHUNK_NAME ≡ 64 }
    ensures size { GREATEST_SIZE ≡ 4294967295 }
{}
