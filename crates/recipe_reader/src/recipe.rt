// Recipes in memory.
ghost use Rattle.std.specs.Prelude.{◌≡◌, ◌≢◌, ◌<◌, ◌≤◌, [], ℕ, length, true, false, Some, slice_index_or, IsOk, IfOk, IfErr, IfSome, IfNone, OnSome, Contains, OnOk, OnErr};
ghost use Rattle.std.specs.List.{list_any};
ghost use Rattle.file_names.specs.FileNames.{IsFileName};
ghost use Rattle.recipe_reader.specs.AddFaults.{IsLimitFault, IsPairFault};
ghost use Rattle.recipe_reader.specs.Lawful.{IsChunkName, IsRecipe};
ghost use Rattle.recipe_reader.specs.Limits.{KeepsSize};
ghost use Rattle.recipe_reader.specs.Recipes.{IsFileOf, empty_recipe, bytes_of, name_at, size_at, is_named, is_chunk, is_pair, file_number, chunk_number, with_file, with_use, with_pair};

use crate::chunk::ChunkName;
use crate::chunks::ChunkList;
use crate::error::{AddError, GREATEST_SIZE, LONGEST_CHUNK_NAME, What};
use crate::files::FileList;
use crate::pairs::{PairError, PairList};
use crate::text_key::{FastKey, digest_of};
use seed_model::limits::{MOST_BYTES, MOST_CHUNKS, MOST_FILES, MOST_PAIRS};
use std::alloc::Global;
use std::marker::Model;

// The bytes of text for which room is made ahead for one pair: a row that names a chunk is seldom shorter. Where rows are
// shorter, the room grows once; where it were more than is used, look-ups would be slower.
const BYTES_A_PAIR: usize = 32;

// The bytes of text for which room is made ahead for one chunk: as a rule a chunk has a few users, and a row for each.
const BYTES_A_CHUNK: usize = 128;

/// Files and chunks, each numbered from 0 by first appearance, and the pairs of a file and a chunk that it uses.
#[derive(Drop)]
pub struct Recipe {
    files: FileList,
    chunks: ChunkList,
    pairs: PairList,
    total: u64,
}

impl Model for Recipe {
    ghost use Rattle.recipe_reader.specs.Recipes.{RecipeValue, recipe_code};
    ghost use Rattle.recipe_reader.specs.RecipeInside.{view_of, KeepsRecipe};

    ghost Value = { RecipeValue };

    ghost coded = { recipe_code };

    ghost view = { view_of };

    ghost invariant = { KeepsRecipe };
}

impl Recipe {
    /// A recipe without files.
    pub fn new(alloc: Global) -> Self
        ensures { result ≡ empty_recipe }
    {
        Recipe::for_text(alloc, b"")
    }

    /// A recipe without files, with room ahead for what a text may say, where there is memory for that, and with tables
    /// under keys that are drawn from the text.
    pub(crate) fn for_text(alloc: Global, text: &[u8]) -> Self
        ensures { result ≡ empty_recipe }
    {
        let key = FastKey::new(digest_of(text));
        let chunks = (text.len() / BYTES_A_CHUNK).min(MOST_CHUNKS as usize);
        let pairs = (text.len() / BYTES_A_PAIR).min(MOST_PAIRS as usize);
        Recipe {
            files: FileList::new(alloc, key),
            chunks: ChunkList::with_room(alloc, key, chunks),
            pairs: PairList::with_room(alloc, key, pairs),
            total: 0,
        }
    }

    /// How many files there are.
    pub fn files(&self) -> u32
        ensures files { result ≡ length self.now.files }
        ensures recipe { IsRecipe self.now }
    {
        self.files.len() as u32
    }

    /// How many chunks there are.
    pub fn chunks(&self) -> u32
        ensures chunks { result ≡ length self.now.chunks }
        ensures recipe { IsRecipe self.now }
    {
        self.chunks.len() as u32
    }

    /// The bytes of all chunks, each counted once.
    pub fn total(&self) -> u64
        ensures total { result ≡ bytes_of self.now }
        ensures recipe { IsRecipe self.now }
    {
        self.total
    }

    /// The name of a file.
    pub fn file_name(&self, file: u32) -> &str
        requires { file < length self.now.files }
        ensures name { result.now ≡ slice_index_or self.now.files file [] }
        ensures lawful { IsFileName result.now }
    {
        self.files.get(file as usize)
    }

    /// The name of a chunk, 1 to 64 bytes.
    pub fn chunk_name(&self, chunk: u32) -> &[u8]
        requires { chunk < length self.now.chunks }
        ensures name { result.now ≡ name_at self.now chunk }
        ensures lawful { IsChunkName result.now }
    {
        self.chunks.get(chunk as usize).0
    }

    /// The size of a chunk in bytes.
    pub fn size(&self, chunk: u32) -> u64
        requires { chunk < length self.now.chunks }
        ensures size { result ≡ size_at self.now chunk }
        ensures small { result ≤ GREATEST_SIZE }
    {
        self.chunks.get(chunk as usize).1
    }

    /// The pairs of a file's number and a chunk's number, by first appearance.
    pub fn pairs(&self) -> &[(u32, u32)]
        ensures pairs { result.now ≡ self.now.pairs }
        ensures recipe { IsRecipe self.now }
    {
        self.pairs.as_slice()
    }

    /// The number of the file with this name, where it is there. Its name is a lawful one.
    pub(crate) fn file_named(&self, name: &str) -> Option<u32>
        ensures number { IfSome result (IsFileOf self.now name.now) }
        ensures lawful { IfSome result (λ _. IsFileName name.now) }
    {
        match self.files.find(name) {
            Some(number) => Some(number as u32),
            None => None,
        }
    }

    /// The number of the last file, where these bytes are its name: then they are a lawful one.
    pub(crate) fn last_file_named(&self, name: &[u8]) -> Option<u32>
        ensures number { IfSome result (IsFileOf self.now name.now) }
        ensures lawful { OnSome result (IsFileName name.now) }
    {
        match self.files.find_last(name) {
            Some(number) => Some(number as u32),
            None => None,
        }
    }

    /// The same as `add_file`, of the bytes of a name whose number may be known.
    pub(crate) fn add_known(&mut self, name: &[u8], known: Option<u32>) -> Result<u32, AddError>
        requires name { IsFileName name.now }
        requires known { IfSome known (IsFileOf self.old name.now) }
        ensures ok { OnOk result (self.new ≡ with_file self.old name.now) }
        ensures number { IfOk result (λ number. number ≡ file_number self.new.files name.now) }
        ensures fault { IfErr result (IsLimitFault (with_file self.old name.now)) }
        ensures err { OnErr result (self.new ≡ self.old) }
        ensures recipe { IsRecipe self.new }
    {
        let _ = &self.files;
        if let Some(number) = known {
            return Ok(number);
        }
        match str::from_utf8(name) {
            Ok(name) => self.add_file(name),
            Err(_) => unreachable!(),
        }
    }

    /// The number of the file with this name, which is put last where it is new.
    pub fn add_file(&mut self, name: &str) -> Result<u32, AddError>
        requires { IsFileName name.now }
        ensures ok { OnOk result (self.new ≡ with_file self.old name.now) }
        ensures number { IfOk result (λ number. number ≡ file_number self.new.files name.now) }
        ensures fault { IfErr result (IsLimitFault (with_file self.old name.now)) }
        ensures err { OnErr result (self.new ≡ self.old) }
        ensures recipe { IsRecipe self.new }
        ensures known { list_any (is_named name.now) self.old.files ≡ true → IsOk result }
    {
        if let Some(number) = self.files.find(name) {
            return Ok(number as u32);
        }
        let number = self.files.len() as u32;
        if number >= MOST_FILES {
            return Err(AddError::TooMany(What::Files));
        }
        let Ok(()) = self.files.push(name) else {
            return Err(AddError::Memory);
        };
        Ok(number)
    }

    /// The size of the chunk with this name, where it is there with another one.
    pub(crate) fn other_size(&self, chunk: &ChunkName, size: u64) -> Option<u64>
        ensures some { IfSome result (λ first. (first ≢ size) × Contains self.now.chunks (record { name = chunk.now; size = first })) }
        ensures named { OnSome result (0 < length chunk.now) }
        ensures none { IfNone result (KeepsSize self.now (Some (record { name = chunk.now; size = size }))) }
    {
        match self.chunks.find(chunk) {
            Some((_, first)) => {
                if first != size {
                    return Some(first);
                }
                None
            }
            None => None,
        }
    }

    /// Says that a file uses a chunk of 1 to 64 bytes as name and a size in bytes. A new chunk is put last, and so is a
    /// new pair.
    pub fn add_pair(&mut self, file: u32, chunk: &[u8], size: u64) -> Result<(), AddError>
        requires file { file < length self.old.files }
        requires some { 0 < length chunk.now }
        requires short { length chunk.now ≤ LONGEST_CHUNK_NAME }
        requires size { size ≤ GREATEST_SIZE }
        ensures ok { OnOk result (self.new ≡ with_pair self.old file (record { name = chunk.now; size = size })) }
        ensures keeps { OnOk result (KeepsSize self.old (Some (record { name = chunk.now; size = size }))) }
        ensures fault { IfErr result (IsPairFault self.old file (record { name = chunk.now; size = size })) }
        ensures err { OnErr result (self.new ≡ self.old) }
        ensures recipe { IsRecipe self.new }
        ensures known { list_any (is_pair file (chunk_number self.old.chunks chunk.now)) self.old.pairs ≡ true → KeepsSize self.old (Some (record { name = chunk.now; size = size })) → IsOk result }
    {
        self.add_named(file, &ChunkName::of(chunk), size)
    }

    /// The same, of a name as it is kept.
    pub(crate) fn add_named(
        &mut self,
        file: u32,
        chunk: &ChunkName,
        size: u64,
    ) -> Result<(), AddError>
        requires file { file < length self.old.files }
        requires name { IsChunkName chunk.now }
        requires size { size ≤ GREATEST_SIZE }
        ensures ok { OnOk result (self.new ≡ with_pair self.old file (record { name = chunk.now; size = size })) }
        ensures keeps { OnOk result (KeepsSize self.old (Some (record { name = chunk.now; size = size }))) }
        ensures fault { IfErr result (IsPairFault self.old file (record { name = chunk.now; size = size })) }
        ensures err { OnErr result (self.new ≡ self.old) }
        ensures recipe { IsRecipe self.new }
        ensures known { list_any (is_pair file (chunk_number self.old.chunks chunk.now)) self.old.pairs ≡ true → KeepsSize self.old (Some (record { name = chunk.now; size = size })) → IsOk result }
    {
        match self.chunks.find(chunk) {
            Some((number, first)) => {
                if first != size {
                    return Err(AddError::Clash { first, now: size });
                }
                self.add_use(file, number as u32)
            }
            None => self.add_chunk(file, chunk, size),
        }
    }

    // Says that a file uses a chunk that is there.
    fn add_use(&mut self, file: u32, chunk: u32) -> Result<(), AddError>
        requires file { file < length self.old.files }
        requires chunk { chunk < length self.old.chunks }
        ensures ok { OnOk result (self.new ≡ with_use self.old file chunk) }
        ensures fault { IfErr result (IsLimitFault (with_use self.old file chunk)) }
        ensures err { OnErr result (self.new ≡ self.old) }
        ensures recipe { IsRecipe self.new }
        ensures known { list_any (is_pair file chunk) self.old.pairs ≡ true → IsOk result }
    {
        match self.pairs.add(file, chunk) {
            Ok(()) => Ok(()),
            Err(error) => Err(not_added(error)),
        }
    }

    // Puts a new chunk last, with the file as its first user.
    fn add_chunk(&mut self, file: u32, name: &ChunkName, size: u64) -> Result<(), AddError>
        requires file { file < length self.old.files }
        requires name { IsChunkName name.now }
        requires size { size ≤ GREATEST_SIZE }
        requires new { list_any (is_chunk name.now) self.old.chunks ≡ false }
        ensures ok { OnOk result (self.new ≡ with_pair self.old file (record { name = name.now; size = size })) }
        ensures fault { IfErr result (IsLimitFault (with_pair self.old file (record { name = name.now; size = size }))) }
        ensures err { OnErr result (self.new ≡ self.old) }
        ensures recipe { IsRecipe self.new }
    {
        let number = self.chunks.len() as u32;
        if number >= MOST_CHUNKS {
            return Err(AddError::TooMany(What::Chunks));
        }
        if size > MOST_BYTES - self.total {
            return Err(AddError::TooMany(What::Bytes));
        }
        if self.pairs.len() >= MOST_PAIRS as usize {
            return Err(AddError::TooMany(What::Pairs));
        }
        let Ok(()) = self.chunks.push(name, size) else {
            return Err(AddError::Memory);
        };
        let Ok(()) = self.pairs.push(file, number) else {
            self.chunks.forget_last();
            return Err(AddError::Memory);
        };
        self.total += size;
        Ok(())
    }
}

// Why a pair is not added, as a recipe says it.
fn not_added(error: PairError) -> AddError
    ensures full { error ≡ PairError.Full → result ≡ AddError.TooMany What.Pairs }
    ensures memory { error ≡ PairError.Memory → result ≡ AddError.Memory }
{
    match error {
        PairError::Full => AddError::TooMany(What::Pairs),
        PairError::Memory => AddError::Memory,
    }
}
