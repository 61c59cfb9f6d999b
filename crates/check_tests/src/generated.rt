// Generated certificates, each also with one digit and with one word changed, judged as a plain judge does.
use crate::maker::{Numbers, certificate, recipe_text};
use crate::plain::is_valid;
use crate::sets::{SmallClass, classes_of};
use crate::worked::table_of;
use bound_cert::{Document, read_document};
use cert_check::{Verdict, check, check_text};
use seed_io::SureShelf;
use seed_model::Table;
use std::alloc::Global;

/// A small recipe's table and classes, and a valid certificate for them.
#[derive(Drop)]
struct Made {
    table: Table,
    classes: Vec<SmallClass>,
    text: String,
}

/// The table of a drawn recipe.
fn drawn_table(alloc: Global, numbers: &mut Numbers) -> Option<Table> {
    match recipe_text(alloc, numbers) {
        Some(recipe) => table_of(alloc, recipe.as_bytes()),
        None => None,
    }
}

/// A drawn recipe with a certificate; none where multipliers are wanted that are not tried.
fn drawn(alloc: Global, numbers: &mut Numbers) -> Option<Made> {
    let table = drawn_table(alloc, numbers)?;
    let classes = classes_of(alloc, &table)?;
    let text = certificate(alloc, table.files(), &classes, numbers)?;
    Some(Made {
        table,
        classes,
        text,
    })
}

/// The digit that comes so many behind another, 0 behind 9.
fn digit_behind(digit: u32, more: u32) -> char {
    char::from_digit(digit.wrapping_add(more) % 10, 10).unwrap_or('0')
}

/// The text with one of its digits changed.
fn with_other_digit(alloc: Global, text: &str, numbers: &mut Numbers) -> Option<String> {
    let digits = text.bytes().filter(|byte| byte.is_ascii_digit()).count();
    let place = numbers.next() as usize % digits.max(1);
    let more = 1 + numbers.up_to(8) as u32;
    let mut out = String::new(alloc);
    let mut seen = 0usize;
    for letter in text.chars() {
        let put = match letter.to_digit(10) {
            Some(digit) if seen == place => digit_behind(digit, more),
            _ => letter,
        };
        seen = seen.wrapping_add(letter.is_ascii_digit() as usize);
        out.push(put).ok()?;
    }
    Some(out)
}

/// Words that take the place of others.
const WORDS: [&str; 20] = [
    "0", "1", "2", "3", "5", "10", "20", "00", "80", "60", "e0", "low", "high", "bound", "give",
    "branch", "end", "none", "open", "optimal",
];

/// Puts a letter of a text in which a word takes the place of another, which this letter is of or ends.
fn put_letter(out: &mut String, letter: char, is_replaced: bool, word: &str) -> Option<()> {
    let ends = letter.is_ascii_whitespace();
    if is_replaced && ends {
        out.push_str(word).ok()?;
    }
    if ends || !is_replaced {
        out.push(letter).ok()?;
    }
    Some(())
}

/// The text with one of its words changed.
fn with_other_word(alloc: Global, text: &str, numbers: &mut Numbers) -> Option<String> {
    let words = text
        .bytes()
        .filter(|byte| byte.is_ascii_whitespace())
        .count();
    let place = numbers.next() as usize % words.max(1);
    let word = WORDS[numbers.next() as usize % WORDS.len()];
    let mut out = String::new(alloc);
    let mut seen = 0usize;
    for letter in text.chars() {
        put_letter(&mut out, letter, seen == place, word)?;
        seen = seen.wrapping_add(letter.is_ascii_whitespace() as usize);
    }
    Some(out)
}

/// Whether `check_text` says yes to a text, where it says something.
fn judged(alloc: Global, table: &Table, text: &str) -> Option<bool> {
    let mut shelf = SureShelf::new(alloc);
    shelf.set("c", text.as_bytes()).ok()?;
    let checked = check_text(alloc, table, &mut shelf, "c").ok()?;
    Some(checked.verdict == Verdict::Yes)
}

/// What the plain judge and `check` say of a document: none where they differ.
fn document_agreed(alloc: Global, made: &Made, document: &Document) -> Option<bool> {
    let is_valid = is_valid(made.table.files(), &made.classes, document);
    let verdict = check(alloc, &made.table, document).ok()?;
    if (verdict == Verdict::Yes) == is_valid {
        Some(is_valid)
    } else {
        None
    }
}

/// What the plain judge and `check` say of a text, which is not valid where it is no document's: none where they differ.
fn text_agreed(alloc: Global, made: &Made, text: &str) -> Option<bool> {
    match read_document(alloc, text.as_bytes()) {
        Ok(document) => document_agreed(alloc, made, &document),
        Err(_) => Some(false),
    }
}

/// What `check_text`, the plain judge and, where the text is that of a document, `check` say of a text: none where they
/// differ.
fn agreed(alloc: Global, made: &Made, text: &str) -> Option<bool> {
    let is_valid = text_agreed(alloc, made, text)?;
    if judged(alloc, &made.table, text)? == is_valid {
        Some(is_valid)
    } else {
        None
    }
}

/// Whether all agree on a text that was made.
fn are_agreed(alloc: Global, made: &Made, text: Option<String>) -> bool {
    match text {
        Some(text) => agreed(alloc, made, text.as_str()).is_some(),
        None => false,
    }
}

/// Whether all agree that a certificate is valid, and on the same with another digit and with another word.
fn is_judged_plainly(alloc: Global, made: &Made, numbers: &mut Numbers) -> bool {
    let text = made.text.as_str();
    agreed(alloc, made, text) == Some(true)
        && are_agreed(alloc, made, with_other_digit(alloc, text, numbers))
        && are_agreed(alloc, made, with_other_word(alloc, text, numbers))
}

/// Makes a recipe and a certificate, if it finds one, and answers whether it is judged plainly.
fn draw(alloc: Global, numbers: &mut Numbers) -> Option<bool> {
    let made = drawn(alloc, numbers)?;
    Some(is_judged_plainly(alloc, &made, numbers))
}

#[test]
fn a_thousand_certificates_are_judged_as_plainly(rt: HostRuntime) {
    let mut numbers = Numbers { state: 7 };
    let mut made = 0u32;
    for _ in 0..4000u32 {
        if made < 1000 {
            let state = numbers.state;
            let is_judged = draw(rt.alloc(), &mut numbers);
            assert!(rt; is_judged != Some(false), "drawn from {state}");
            if is_judged.is_some() {
                made += 1;
            }
        }
    }
    assert_eq!(rt; made, 1000);
}
