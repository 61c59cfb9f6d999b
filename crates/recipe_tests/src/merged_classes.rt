// Worked recipes.
use chunk_merge::merge;
use incidence::Incidence;
use recipe_reader::{Recipe, read_recipe};
use seed_model::Table;
use std::alloc::Global;

/// The table of a recipe; none is want of memory.
fn table_in(alloc: Global, recipe: &Recipe) -> Option<Table> {
    match Incidence::of(alloc, recipe) {
        Ok(incidence) => merge(alloc, &incidence).ok(),
        Err(_) => None,
    }
}

/// The table of a text; none where it is refused.
fn table_of(alloc: Global, text: &[u8]) -> Option<Table> {
    match read_recipe(alloc, text) {
        Ok(recipe) => table_in(alloc, &recipe),
        Err(_) => None,
    }
}

/// Whether a table has these classes, each by its size and its users, and no others.
fn has_classes(table: &Table, classes: &[(u64, &[u32])]) -> bool {
    let mut as_told = table.classes() as usize == classes.len();
    for class in 0..table.classes() {
        as_told &= match classes.get(class as usize) {
            Some((size, users)) => table.size(class) == *size && table.users(class) == *users,
            None => false,
        };
    }
    as_told
}

/// Whether the table of a text has so many files and bytes, and these classes.
fn merges_to(
    alloc: Global,
    text: &[u8],
    files: u32,
    total: u64,
    classes: &[(u64, &[u32])],
) -> bool {
    match table_of(alloc, text) {
        Some(table) => {
            table.files() == files && table.total() == total && has_classes(&table, classes)
        }
        None => false,
    }
}

#[test]
fn keeps_chunks_with_users_of_their_own(rt: HostRuntime) {
    let text = b"a,01,10\na,02,20\nb,01,10\nb,03,30\nb,05,7\nc,04,5\nc,05,7\n";
    let classes: [(u64, &[u32]); 5] = [
        (10, &[0, 1]),
        (20, &[0]),
        (30, &[1]),
        (7, &[1, 2]),
        (5, &[2]),
    ];
    assert!(rt; merges_to(rt.alloc(), text, 3, 72, &classes));
}

#[test]
fn joins_chunks_with_the_same_users(rt: HostRuntime) {
    let text = b"a,01,10\nb,01,10\na,02,20\nb,02,20\na,03,5\n";
    assert!(rt; merges_to(rt.alloc(), text, 2, 35, &[(30, &[0, 1]), (5, &[0])]));
}
