// Words, with one space between.
ghost use Rattle.std.specs.Prelude.{◌≡◌, ◌≢◌, ◌≤◌, ℕ, List, [], ◌∷◌, ◌<◌, IfSome, IfNone, IsTrue, ◌↔◌, length, slice_index, true, false, All};
ghost use Rattle.std.specs.Fmt.{decimal};
ghost use Rattle.seed_text.specs.SetWords.{IsSetWord};
ghost use Rattle.bound_cert.specs.Words.{rest_words, is_space};

use seed_model::read_number;
use seed_text::is_set_word;

// The next word of what is left of a text, and what is left then.
pub(crate) fn next_word(rest: Option<&[u8]>) -> Option<(&[u8], Option<&[u8]>)>
    ensures some { IfSome result (λ x. rest_words rest.entry ≡ x.0.now ∷ rest_words x.1) }
    ensures none { IfNone result (rest_words rest.entry ≡ []) }
{
    let text = rest?;
    match first_space(text) {
        Some(place) => Some((&text[..place], Some(&text[place + 1..]))),
        None => Some((text, None)),
    }
}

// Where the first space stands.
fn first_space(text: &[u8]) -> Option<usize>
    ensures some { IfSome result (λ i. (i < length text.now) × (is_space (slice_index text.now i) ≡ true) × ((k : ℕ) → k < i → is_space (slice_index text.now k) ≡ false)) }
    ensures none { IfNone result (All (λ b. is_space b ≡ false) text.now) }
{
    text.iter().position(|b| *b == b' ')
}

// The next word, where it is a number up to the limit.
pub(crate) fn next_number(rest: Option<&[u8]>, limit: u128) -> Option<(u128, Option<&[u8]>)>
    ensures some { IfSome result (λ x. (x.0 ≤ limit) × (rest_words rest.entry ≡ decimal x.0 ∷ rest_words x.1)) }
    ensures none { IfNone result ((n : ℕ) (ws : List (List ℕ)) → n ≤ limit → rest_words rest.entry ≢ decimal n ∷ ws) }
    ensures only { IfSome result (λ x. (n : ℕ) (ws : List (List ℕ)) → n ≤ limit → rest_words rest.entry ≡ decimal n ∷ ws → n ≡ x.0) }
{
    let (word, rest) = next_word(rest)?;
    let number = read_number(word, limit)?;
    Some((number, rest))
}

// The next word, where it may be a set's text.
pub(crate) fn next_set(rest: Option<&[u8]>) -> Option<(&[u8], Option<&[u8]>)>
    ensures some { IfSome result (λ x. IsSetWord x.0.now × (rest_words rest.entry ≡ x.0.now ∷ rest_words x.1)) }
    ensures none { IfNone result ((w : List ℕ) (ws : List (List ℕ)) → IsSetWord w → rest_words rest.entry ≢ w ∷ ws) }
{
    let (word, rest) = next_word(rest)?;
    if !is_set_word(word) {
        return None;
    }
    Some((word, rest))
}

// Whether no word is left.
pub(crate) fn at_end(rest: Option<&[u8]>) -> bool
    ensures { IsTrue result ↔ (rest_words rest.entry ≡ []) }
{
    match rest {
        None => true,
        Some(_) => false,
    }
}
