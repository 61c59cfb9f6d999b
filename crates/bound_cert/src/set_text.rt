// Sets of files by their texts.
ghost use Rattle.std.specs.Prelude.{◌≡◌};

use std::marker::Model;

/// The text of a set of files, as it stands in a document.
#[derive(Drop)]
pub struct SetText {
    text: Vec<u8>,
}

impl Model for SetText {
    ghost use Rattle.std.specs.Prelude.{List, ℕ};

    ghost Value = { List ℕ };

    ghost view = { λ s. s.text.items };
}

impl SetText {
    /// A set's text from its bytes.
    pub fn new(text: Vec<u8>) -> Self
        ensures { result ≡ text.items }
    {
        SetText { text }
    }

    /// The bytes of the text.
    pub fn text(&self) -> &[u8]
        ensures { result.now ≡ self.now }
    {
        &self.text
    }
}
