// Lines from text.
ghost use Rattle.std.specs.Prelude.{◌≡◌, ◌≢◌, ℕ, List, [], ◌∷◌, codes, IfSome, IfNone, IsTrue, ◌↔◌};
ghost use Rattle.bound_cert.specs.declared.heading.Answer.{Answer as AnswerValue};
ghost use Rattle.bound_cert.specs.Words.{rest_words};
ghost use Rattle.bound_cert.specs.Lines.{Entry, Title, Span, Pinned, Answered, Planned, NoPlan, Bounded, NoBound, Branch, Leaf, Give, entry_of, operands, keyword, line_text, IsLine};

use crate::heading::Answer;
use crate::text_line::TextLine;
use crate::words::{at_end, next_number, next_set, next_word};

/// The greatest number of a plan's bytes and of a bound.
const MOST_BYTES: u128 = (1 << 50) - 1;

/// The greatest end of a range, and the greatest weight of a mix.
const MOST_WEIGHT: u128 = (1 << 51) - 1;

/// The greatest charge and the greatest reward.
const MOST_SHARE: u128 = (1 << 100) - 1;

/// What a line says, without its LF. `None` where the bytes are no line of a document.
pub fn read_line(text: &[u8]) -> Option<TextLine<'_>>
    ensures found { IfSome result (λ l. IsLine (entry_of l) × (text.now ≡ line_text (entry_of l))) }
    ensures none { IfNone result ((e : Entry) → IsLine e → text.now ≢ line_text e) }
{
    let (word, rest) = next_word(Some(text))?;
    line_of(word, rest)
}

fn line_of<'a>(word: &[u8], rest: Option<&'a [u8]>) -> Option<TextLine<'a>>
    ensures found { IfSome result (λ l. IsLine (entry_of l) × (word.now ∷ rest_words rest.entry ≡ keyword (entry_of l) ∷ operands (entry_of l))) }
    ensures none { IfNone result ((e : Entry) → IsLine e → word.now ∷ rest_words rest.entry ≢ keyword e ∷ operands e) }
{
    if word == b"give".as_slice() {
        give_of(rest)
    } else if word == b"bound".as_slice() {
        bound_of(rest)
    } else if word == b"branch".as_slice() {
        branch_of(rest)
    } else {
        rare_line_of(word, rest)
    }
}

// A line that has none of the words of a tree's long lines.
fn rare_line_of<'a>(word: &[u8], rest: Option<&'a [u8]>) -> Option<TextLine<'a>>
    requires no_give { word.now ≢ codes "give" }
    requires no_bound { word.now ≢ codes "bound" }
    requires no_branch { word.now ≢ codes "branch" }
    ensures found { IfSome result (λ l. IsLine (entry_of l) × (word.now ∷ rest_words rest.entry ≡ keyword (entry_of l) ∷ operands (entry_of l))) }
    ensures none { IfNone result ((e : Entry) → IsLine e → word.now ∷ rest_words rest.entry ≢ keyword e ∷ operands e) }
{
    if word == b"plan".as_slice() {
        plan_of(rest)
    } else if word == b"answer".as_slice() {
        answer_of(rest)
    } else if word == b"pins".as_slice() {
        pins_of(rest)
    } else if word == b"range".as_slice() {
        span_of(rest)
    } else if word == b"goseed".as_slice() {
        title_of(rest)
    } else {
        bare_line_of(word, rest)
    }
}

// A line of one word.
fn bare_line_of<'a>(word: &[u8], rest: Option<&[u8]>) -> Option<TextLine<'a>>
    requires no_give { word.now ≢ codes "give" }
    requires no_bound { word.now ≢ codes "bound" }
    requires no_branch { word.now ≢ codes "branch" }
    requires no_plan { word.now ≢ codes "plan" }
    requires no_answer { word.now ≢ codes "answer" }
    requires no_pins { word.now ≢ codes "pins" }
    requires no_range { word.now ≢ codes "range" }
    requires no_title { word.now ≢ codes "goseed" }
    ensures found { IfSome result (λ l. IsLine (entry_of l) × (word.now ∷ rest_words rest.entry ≡ keyword (entry_of l) ∷ operands (entry_of l))) }
    ensures none { IfNone result ((e : Entry) → IsLine e → word.now ∷ rest_words rest.entry ≢ keyword e ∷ operands e) }
{
    if !at_end(rest) {
        None
    } else if word == b"low".as_slice() {
        Some(TextLine::Low)
    } else if word == b"high".as_slice() {
        Some(TextLine::High)
    } else if word == b"end".as_slice() {
        Some(TextLine::End)
    } else {
        None
    }
}

fn title_of<'a>(rest: Option<&[u8]>) -> Option<TextLine<'a>>
    ensures found { IfSome result (λ l. IsLine (entry_of l) × (codes "goseed" ∷ rest_words rest.entry ≡ keyword (entry_of l) ∷ operands (entry_of l))) }
    ensures none { IfNone result ((v : ℕ) → IsLine (Title v) → rest_words rest.entry ≢ operands (Title v)) }
{
    let (version, rest) = next_number(rest, 2)?;
    if version == 0 {
        return None;
    }
    if !at_end(rest) {
        return None;
    }
    Some(TextLine::Title {
        version: version as u8,
    })
}

fn span_of<'a>(rest: Option<&[u8]>) -> Option<TextLine<'a>>
    ensures found { IfSome result (λ l. IsLine (entry_of l) × (codes "range" ∷ rest_words rest.entry ≡ keyword (entry_of l) ∷ operands (entry_of l))) }
    ensures none { IfNone result ((l h : ℕ) → IsLine (Span l h) → rest_words rest.entry ≢ operands (Span l h)) }
{
    let (low, rest) = next_number(rest, MOST_WEIGHT)?;
    let (high, rest) = next_number(rest, MOST_WEIGHT)?;
    if low > high {
        return None;
    }
    if !at_end(rest) {
        return None;
    }
    Some(TextLine::Span {
        low: low as u64,
        high: high as u64,
    })
}

fn pins_of(rest: Option<&[u8]>) -> Option<TextLine<'_>>
    ensures found { IfSome result (λ l. IsLine (entry_of l) × (codes "pins" ∷ rest_words rest.entry ≡ keyword (entry_of l) ∷ operands (entry_of l))) }
    ensures none { IfNone result ((g s : List ℕ) → IsLine (Pinned g s) → rest_words rest.entry ≢ operands (Pinned g s)) }
{
    let (go, rest) = next_set(rest)?;
    let (stay, rest) = next_set(rest)?;
    if !at_end(rest) {
        return None;
    }
    Some(TextLine::Pinned { go, stay })
}

fn answer_of<'a>(rest: Option<&[u8]>) -> Option<TextLine<'a>>
    ensures found { IfSome result (λ l. IsLine (entry_of l) × (codes "answer" ∷ rest_words rest.entry ≡ keyword (entry_of l) ∷ operands (entry_of l))) }
    ensures none { IfNone result ((a : AnswerValue) → rest_words rest.entry ≢ operands (Answered a)) }
{
    let (word, rest) = next_word(rest)?;
    if !at_end(rest) {
        None
    } else if word == b"optimal".as_slice() {
        Some(TextLine::Answered(Answer::Optimal))
    } else if word == b"infeasible".as_slice() {
        Some(TextLine::Answered(Answer::Infeasible))
    } else if word == b"open".as_slice() {
        Some(TextLine::Answered(Answer::Open))
    } else {
        None
    }
}

fn plan_of(rest: Option<&[u8]>) -> Option<TextLine<'_>>
    ensures found { IfSome result (λ l. IsLine (entry_of l) × (codes "plan" ∷ rest_words rest.entry ≡ keyword (entry_of l) ∷ operands (entry_of l))) }
    ensures no_plan { IfNone result (rest_words rest.entry ≢ operands NoPlan) }
    ensures none { IfNone result ((s : List ℕ) (m r : ℕ) → IsLine (Planned s m r) → rest_words rest.entry ≢ operands (Planned s m r)) }
{
    let (word, after) = next_word(rest)?;
    if !at_end(after) {
        return planned_of(rest);
    }
    if word == b"none".as_slice() {
        Some(TextLine::NoPlan)
    } else {
        None
    }
}

fn planned_of(rest: Option<&[u8]>) -> Option<TextLine<'_>>
    ensures found { IfSome result (λ l. IsLine (entry_of l) × (codes "plan" ∷ rest_words rest.entry ≡ keyword (entry_of l) ∷ operands (entry_of l))) }
    ensures none { IfNone result ((s : List ℕ) (m r : ℕ) → IsLine (Planned s m r) → rest_words rest.entry ≢ operands (Planned s m r)) }
{
    let (set, rest) = next_set(rest)?;
    let (migrated, rest) = next_number(rest, MOST_BYTES)?;
    let (replicated, rest) = next_number(rest, MOST_BYTES)?;
    if !at_end(rest) {
        return None;
    }
    Some(TextLine::Planned {
        set,
        migrated: migrated as u64,
        replicated: replicated as u64,
    })
}

fn bound_of<'a>(rest: Option<&[u8]>) -> Option<TextLine<'a>>
    ensures found { IfSome result (λ l. IsLine (entry_of l) × (codes "bound" ∷ rest_words rest.entry ≡ keyword (entry_of l) ∷ operands (entry_of l))) }
    ensures no_bound { IfNone result (rest_words rest.entry ≢ operands NoBound) }
    ensures no_number { IfNone result ((z : ℕ) → IsLine (Bounded z) → rest_words rest.entry ≢ operands (Bounded z)) }
    ensures none { IfNone result ((p q k : ℕ) → IsLine (Leaf p q k) → rest_words rest.entry ≢ operands (Leaf p q k)) }
{
    let (word, after) = next_word(rest)?;
    if !at_end(after) {
        return leaf_of(rest);
    }
    if word == b"none".as_slice() {
        return Some(TextLine::NoBound);
    }
    let (bound, _) = next_number(rest, MOST_BYTES)?;
    Some(TextLine::Bounded {
        bound: bound as u64,
    })
}

fn leaf_of<'a>(rest: Option<&[u8]>) -> Option<TextLine<'a>>
    ensures found { IfSome result (λ l. IsLine (entry_of l) × (codes "bound" ∷ rest_words rest.entry ≡ keyword (entry_of l) ∷ operands (entry_of l))) }
    ensures none { IfNone result ((p q k : ℕ) → IsLine (Leaf p q k) → rest_words rest.entry ≢ operands (Leaf p q k)) }
{
    let (p, rest) = next_number(rest, 1 << 50)?;
    let (q, rest) = next_number(rest, 1 << 50)?;
    let (gives, rest) = next_number(rest, 4194303)?;
    if q == 0 {
        return None;
    }
    if !at_end(rest) {
        return None;
    }
    Some(TextLine::Leaf {
        p: p as u64,
        q: q as u64,
        gives: gives as u32,
    })
}

fn branch_of(rest: Option<&[u8]>) -> Option<TextLine<'_>>
    ensures found { IfSome result (λ l. IsLine (entry_of l) × (codes "branch" ∷ rest_words rest.entry ≡ keyword (entry_of l) ∷ operands (entry_of l))) }
    ensures none { IfNone result ((f : ℕ) (p q : List ℕ) (a b : ℕ) → IsLine (Branch f p q a b) → rest_words rest.entry ≢ operands (Branch f p q a b)) }
{
    let (file, rest) = next_number(rest, 16382)?;
    let (first, rest) = next_set(rest)?;
    let (second, rest) = next_set(rest)?;
    let (alpha, rest) = next_number(rest, MOST_WEIGHT)?;
    let (beta, rest) = next_number(rest, MOST_WEIGHT)?;
    if !at_end(rest) {
        return None;
    }
    Some(TextLine::Branch {
        file: file as u32,
        first,
        second,
        alpha: alpha as u64,
        beta: beta as u64,
    })
}

fn give_of<'a>(rest: Option<&[u8]>) -> Option<TextLine<'a>>
    ensures found { IfSome result (λ l. IsLine (entry_of l) × (codes "give" ∷ rest_words rest.entry ≡ keyword (entry_of l) ∷ operands (entry_of l))) }
    ensures none { IfNone result ((c f a b : ℕ) → IsLine (Give c f a b) → rest_words rest.entry ≢ operands (Give c f a b)) }
{
    let (class, rest) = next_number(rest, 1048574)?;
    let (file, rest) = next_number(rest, 16382)?;
    let (charge, rest) = next_number(rest, MOST_SHARE)?;
    let (reward, rest) = next_number(rest, MOST_SHARE)?;
    if charge == 0 && reward == 0 {
        return None;
    }
    if !at_end(rest) {
        return None;
    }
    Some(TextLine::Give {
        class: class as u32,
        file: file as u32,
        charge,
        reward,
    })
}
