// The keys under which a recipe's tables hash.
ghost use Rattle.std.specs.Prelude.{◌≡◌};

use std::hash::{BuildHasher, DefaultHasher, FoldHasher, Hasher};

/// A key for hash tables, drawn from all bytes of the text whose names they hold. So nobody can choose names that all
/// fall on one place of a table: each choice of names is another key.
#[derive(Clone, Copy)]
pub(crate) struct TextKey<H> {
    start: H,
}

/// The key of all tables. Its hasher mixes up to eight bytes at a time with what it holds, so chunk names, whose bytes may
/// be any, are written to it by eights; file names are UTF-8, in which its constant does not occur.
pub(crate) type FastKey = TextKey<FoldHasher>;

impl<H: Hasher + Default> TextKey<H> {
    /// The key of a text with this digest.
    pub(crate) fn new(digest: u64) -> Self {
        let mut start = H::default();
        start.write_u64(digest);
        TextKey { start }
    }
}

impl<H: Hasher + Copy> BuildHasher for TextKey<H> {
    type Hasher = H;

    ghost build_hasher = { λ key. key.start };

    fn build_hasher(&self) -> H {
        self.start
    }
}

/// A number that is drawn from all bytes of a text.
pub(crate) fn digest_of(text: &[u8]) -> u64 {
    let mut digest = DefaultHasher::new();
    digest.write(text);
    digest.finish()
}
