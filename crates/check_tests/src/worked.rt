// Worked certificates, and each rule broken in one of them.
use bound_cert::{Answer, read_document};
use cert_check::{CheckError, Checked, Verdict, check, check_text};
use chunk_merge::merge;
use incidence::Incidence;
use recipe_reader::{Recipe, read_recipe};
use seed_io::SureShelf;
use seed_model::Table;
use std::alloc::Global;

const RECIPE: &[u8] = b"a,01,10\na,02,20\nb,01,10\nb,03,30\nb,05,7\nc,04,5\nc,05,7\n";

/// A certificate of a search with three branchings.
pub(crate) const WORKED: &str =
    "goseed 1\nrange 35 45\nanswer optimal\nplan 60 42 10\nbound 10\nbranch 0 00 e0 37 35\nbranch 1 00 60 7 35\nlow\nbound 1 1 6\ngive 0 0 0 10\ngive 0 1 10 0\ngive 1 0 0 20\ngive 2 1 30 30\ngive 3 2 7 7\ngive 4 2 5 5\nbranch 1 80 e0 27 25\nlow\nhigh\nend\n";

/// A certificate with a file that must go.
pub(crate) const PINNED: &str =
    "goseed 2\nrange 35 45\npins 80 00\nanswer infeasible\nplan none\nbound none\nbranch 1 80 e0 27 25\nlow\nhigh\nend\n";

/// The table of a recipe; none is want of memory.
fn table_in(alloc: Global, recipe: &Recipe) -> Option<Table> {
    match Incidence::of(alloc, recipe) {
        Ok(incidence) => merge(alloc, &incidence).ok(),
        Err(_) => None,
    }
}

/// The table of a text; none where it is refused.
pub(crate) fn table_of(alloc: Global, text: &[u8]) -> Option<Table> {
    match read_recipe(alloc, text) {
        Ok(recipe) => table_in(alloc, &recipe),
        Err(_) => None,
    }
}

/// What the text under a name gives, by the worked recipe; none is a refusal.
fn checked(alloc: Global, text: &str) -> Option<Checked> {
    let table = table_of(alloc, RECIPE)?;
    let mut shelf = SureShelf::new(alloc);
    shelf.set("c", text.as_bytes()).ok()?;
    check_text(alloc, &table, &mut shelf, "c").ok()
}

/// Whether the worked certificate is valid, with its numbers.
fn accepts_worked(alloc: Global) -> bool {
    let Some(best) = checked(alloc, WORKED) else {
        return false;
    };
    best.verdict == Verdict::Yes
        && (best.range.low, best.range.high, best.answer) == (35, 45, Answer::Optimal)
        && (best.migrated, best.replicated) == (42, 10)
        && (best.bound, best.branchings) == (Some(10), 3)
}

/// Whether the pinned certificate is valid, with its numbers.
fn accepts_pinned(alloc: Global) -> bool {
    let Some(none) = checked(alloc, PINNED) else {
        return false;
    };
    let numbers = (none.verdict, none.answer, none.bound);
    numbers == (Verdict::Yes, Answer::Infeasible, None)
        && none.pins.is_some()
        && none.plan.is_none()
}

/// What is said of the document of a text, by the worked recipe.
fn judged(alloc: Global, text: &[u8]) -> Option<Verdict> {
    let table = table_of(alloc, RECIPE)?;
    let document = read_document(alloc, text).ok()?;
    check(alloc, &table, &document).ok()
}

/// Why a name that no text has is refused.
fn refusal_of_none(alloc: Global) -> Option<CheckError> {
    let table = table_of(alloc, RECIPE)?;
    let mut shelf = SureShelf::new(alloc);
    check_text(alloc, &table, &mut shelf, "c").err()
}

#[test]
fn worked_certificates_are_valid(rt: HostRuntime) {
    assert!(rt; accepts_worked(rt.alloc()) && accepts_pinned(rt.alloc()));
    assert!(rt; judged(rt.alloc(), PINNED.as_bytes()) == Some(Verdict::Yes));
    assert!(rt; refusal_of_none(rt.alloc()) == Some(CheckError::NotThere));
}

/// What is said of the worked certificate with one of its texts replaced.
fn with_replaced(alloc: Global, old: &str, new: &str) -> Option<Verdict> {
    let text = WORKED.replace(alloc, old, new).ok()?;
    Some(checked(alloc, text.as_str())?.verdict)
}

#[test]
fn the_first_judgement_that_fails_is_named(rt: HostRuntime) {
    for (old, new, line, rule) in [
        ("end\n", "end\nend\n", 20, 1),
        ("plan 60", "plan 61", 4, 2),
        ("bound 10", "bound 9", 5, 3),
        ("60 42 10", "60 42 11", 4, 4),
        ("range 35 45", "range 35 41", 4, 5),
        ("branch 1 00", "branch 2 00", 7, 6),
        ("00 e0 37 35", "00 e0 0 0", 6, 7),
        ("low\nbound", "high\nbound", 8, 8),
        ("give 1 0 0 20", "give 1 1 0 20", 12, 9),
        ("give 0 1 10 0", "give 0 1 11 0", 9, 10),
        ("give 2 1 30 30", "give 2 1 30 29", 9, 11),
        (
            "optimal\nplan 60 42 10\nbound 10",
            "open\nplan none\nbound 11",
            9,
            12,
        ),
        ("1\nrange 35 45", "2\nrange 35 45\npins 40 60", 3, 13),
        ("1\nrange 35 45", "2\nrange 35 45\npins 80 00", 5, 14),
    ] {
        let verdict = with_replaced(rt.alloc(), old, new);
        assert!(rt; verdict == Some(Verdict::No { line, rule }), "{new}");
    }
}
