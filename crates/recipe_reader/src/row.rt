// The fields of a row.
ghost use Rattle.std.specs.Prelude.{◌≡◌, ◌<◌, [], ℕ, length, slice_index_or, codes, IfSome, IfNone};
ghost use Rattle.csv.specs.Records.{fields_of};
ghost use Rattle.recipe_reader.specs.Parts.{NamesChunk};
ghost use Rattle.recipe_reader.specs.Reading.{HasChunkName, HasBadSize};
ghost use Rattle.recipe_reader.specs.RecipeRows.{SpellsSize};

use crate::chunk::ChunkName;
use crate::error::GREATEST_SIZE;
use csv::ByteRecord;
use seed_model::read_number;

/// The field at a place, counted from 0.
pub(crate) fn field(row: &ByteRecord, place: usize) -> &[u8]
    requires { place < length (fields_of row.now) }
    ensures { result.now ≡ slice_index_or (fields_of row.now) place [] }
{
    row.get(place).unwrap()
}

/// The name that a text of pairs of hex digits spells, 1 to 64 bytes; or no bytes where the text is empty. It is put into
/// `room`.
pub(crate) fn read_chunk_name<'n>(text: &[u8], room: &'n mut ChunkName) -> Option<&'n ChunkName>
    ensures found { IfSome result (λ name. NamesChunk text.now name.now) }
    ensures none { IfNone result (¬ HasChunkName text.now) }
{
    if room.read(text) {
        return Some(room);
    }
    None
}

/// The size that a text spells, in bytes; `name` is the field that names the chunk.
pub(crate) fn read_size(name: &[u8], text: &[u8]) -> Option<u64>
    ensures found { IfSome result (SpellsSize text.now) }
    ensures unnamed { IfSome result (λ _. name.now ≡ [] → text.now ≡ codes "0") }
    ensures none { IfNone result (HasBadSize name.now text.now) }
{
    if name.is_empty() && text != b"0".as_slice() {
        return None;
    }
    let Some(size) = read_number(text, GREATEST_SIZE as u128) else {
        return None;
    };
    Some(size as u64)
}
