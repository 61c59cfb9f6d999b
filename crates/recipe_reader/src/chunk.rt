// A chunk and its name, as a list keeps them.
ghost use Rattle.std.specs.Prelude.{◌≡◌, ◌==◌, ◌≤◌, [], length, take, true, false};
ghost use Rattle.std.specs.List.{fold};
ghost use Rattle.recipe_reader.specs.Eights.{eights};
ghost use Rattle.recipe_reader.specs.Parts.{NamesChunk};
ghost use Rattle.recipe_reader.specs.Reading.{HasChunkName};
ghost use Rattle.recipe_reader.specs.Recipes.{NamedChunk};

use crate::error::{GREATEST_SIZE, LONGEST_CHUNK_NAME};
use std::hash::{Hash, Hasher};
use std::marker::Model;

/// The bytes of a chunk's name, at most 64; none where a row names no chunk. They stand at the front of room for the
/// longest name, and what is behind them means nothing: so one room serves for the names of all rows in turn.
#[derive(Drop)]
pub(crate) struct ChunkName {
    bytes: [u8; LONGEST_CHUNK_NAME],
    len: usize,
}

impl Model for ChunkName {
    ghost use Rattle.std.specs.Prelude.{◌≤◌, List, ℕ, take};

    ghost Value = { List ℕ };

    ghost view = { λ a. take a.len a.bytes };

    ghost invariant = { λ a. a.len ≤ 64 };
}

impl ChunkName {
    /// No bytes.
    pub(crate) fn new() -> Self
        ensures { result ≡ [] }
    {
        ChunkName {
            bytes: [0; LONGEST_CHUNK_NAME],
            len: 0,
        }
    }

    /// These bytes.
    pub(crate) fn of(name: &[u8]) -> Self
        requires { length name.now ≤ LONGEST_CHUNK_NAME }
        ensures { result ≡ name.now }
    {
        let mut bytes = [0; LONGEST_CHUNK_NAME];
        bytes[..name.len()].copy_from_slice(name);
        ChunkName {
            bytes,
            len: name.len(),
        }
    }

    /// The name that a text of pairs of hex digits spells, 1 to 64 bytes, or no bytes where the text is empty; it takes
    /// the place of the one that was here.
    pub(crate) fn read(&mut self, text: &[u8]) -> bool
        ensures found { result ≡ true → NamesChunk text.now self.new }
        ensures none { result ≡ false → ¬ HasChunkName text.now }
    {
        let len = text.len() / 2;
        if len > LONGEST_CHUNK_NAME {
            return false;
        }
        self.len = len;
        hex::decode_to_slice(text, &mut self.bytes[..len]).is_ok()
    }

    /// How many bytes there are.
    pub(crate) fn len(&self) -> usize
        ensures len { result ≡ length self.now }
        ensures short { result ≤ LONGEST_CHUNK_NAME }
    {
        self.len
    }

    /// Whether there are no bytes.
    pub(crate) fn is_empty(&self) -> bool
        ensures { result ≡ (length self.now == 0) }
    {
        self.len == 0
    }

    // So many bytes from the front of the room. A number that is known ahead makes this a few moves.
    fn front<const N: usize>(&self) -> [u8; N]
        requires within { N ≤ LONGEST_CHUNK_NAME }
        ensures { length self.now ≤ N → take (length self.now) result ≡ self.now }
    {
        let mut front = [0; N];
        front.copy_from_slice(&self.bytes[..N]);
        front
    }
}

/// A chunk: its size in bytes, the length of its name, which is at most `N` bytes, and room for the name. Size and length
/// stand in front, so that a look-up finds them and a short name in one place of the memory.
#[derive(Drop)]
pub(crate) struct Chunk<const N: usize> {
    size: u32,
    len: u8,
    bytes: [u8; N],
}

impl<const N: usize> Model for Chunk<N> {
    ghost use Rattle.std.specs.Prelude.{◌≤◌, take};
    ghost use Rattle.recipe_reader.specs.Recipes.{NamedChunk, chunk_code};

    ghost Value = { NamedChunk };

    ghost coded = { chunk_code };

    ghost view = { λ a. record { name = take a.len a.bytes; size = a.size } };

    ghost invariant = { λ a. a.len ≤ N };
}

impl<const N: usize> Chunk<N> {
    /// The chunk with a name of at most `N` bytes, of which no name has more than 64, and a size in bytes.
    pub(crate) fn new(name: &ChunkName, size: u64) -> Self
        requires room { N ≤ LONGEST_CHUNK_NAME }
        requires short { length name.now ≤ N }
        requires small { size ≤ GREATEST_SIZE }
        ensures { result ≡ record { name = name.now; size = size } }
    {
        Chunk {
            size: size as u32,
            len: name.len() as u8,
            bytes: name.front(),
        }
    }

    /// The bytes of the name.
    pub(crate) fn name(&self) -> &[u8]
        ensures name { result.now ≡ self.now.name }
        ensures short { length result.now ≤ N }
    {
        &self.bytes[..self.len as usize]
    }

    /// The size in bytes.
    pub(crate) fn size(&self) -> u64
        ensures size { result ≡ self.now.size }
        ensures small { result ≤ GREATEST_SIZE }
    {
        self.size as u64
    }
}

// Chunks are compared by their names: in a recipe a name has one size.
impl<const N: usize> PartialEq for Chunk<N> {
    ghost use Rattle.std.specs.Prelude.{nat_eq};
    ghost use Rattle.std.proofs.Common.{rules};
    ghost use Rattle.std.specs.Cmp.Rules.{comparing};
    ghost use Rattle.std.specs.Cmp.Lexicographic.{pointwise};
    ghost use Rattle.std.specs.Ordering.{on};

    ghost eq = { on (λ c. c.name) (pointwise nat_eq) };

    ghost laws = { Prim.search (comparing, rules) };

    fn eq(&self, other: &Chunk<N>) -> bool {
        self.name() == other.name()
    }
}

impl<const N: usize> Eq for Chunk<N> {
    ghost use Rattle.std.proofs.Common.{rules};
    ghost use Rattle.std.specs.Cmp.Rules.{comparing};

    ghost laws = { Prim.search (comparing, rules) };
}

// Eight bytes at a time, so that a hasher that is quick for few bytes mixes each of them with its key.
impl<const N: usize> Hash for Chunk<N> {
    ghost use Rattle.std.proofs.Common.{ap, sym};
    ghost use Rattle.std.specs.Cmp.Lexicographic.{same_text};
    ghost use Rattle.recipe_reader.specs.Eights.{eights};

    ghost hash_input = { λ c. eights c.name };

    ghost respects_eq = { λ x y same. ap eights (same_text x.name y.name (sym same)) };

    fn hash<H: Hasher>(&self, state: &mut H) {
        write_eights(self.name(), state);
    }
}

/// Writes bytes into a hasher, eight at a time.
fn write_eights<H: Hasher>(bytes: &[u8], state: &mut H)
    ensures { state.new ≡ fold H.write state.old (eights bytes.now) }
{
    for place in 0..bytes.len().div_ceil(8) {
        let start = 8 * place;
        let end = bytes.len().min(start + 8);
        state.write(&bytes[start..end]);
    }
}
