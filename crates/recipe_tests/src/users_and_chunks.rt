// Worked recipes.
use incidence::Incidence;
use recipe_reader::read_recipe;
use std::alloc::Global;

/// The lists of a text; none where it is refused.
fn incidence_of(alloc: Global, text: &[u8]) -> Option<Incidence> {
    match read_recipe(alloc, text) {
        Ok(recipe) => Incidence::of(alloc, &recipe).ok(),
        Err(_) => None,
    }
}

/// Whether the chunks have these sizes and users, and there are no others.
fn has_users(incidence: &Incidence, users: &[(u64, &[u32])]) -> bool {
    let mut as_told = incidence.chunk_count() as usize == users.len();
    for chunk in 0..incidence.chunk_count() {
        as_told &= match users.get(chunk as usize) {
            Some((size, list)) => {
                incidence.size(chunk) == *size && incidence.users(chunk) == *list
            }
            None => false,
        };
    }
    as_told
}

/// Whether the files use these chunks, and there are no others.
fn has_chunks(incidence: &Incidence, chunks: &[&[u32]]) -> bool {
    let mut as_told = incidence.files() as usize == chunks.len();
    for file in 0..incidence.files() {
        as_told &= chunks.get(file as usize) == Some(&incidence.chunks(file));
    }
    as_told
}

/// Whether the chunks of a text have these sizes and users, and its files use these chunks.
fn lists(alloc: Global, text: &[u8], users: &[(u64, &[u32])], chunks: &[&[u32]]) -> bool {
    match incidence_of(alloc, text) {
        Some(incidence) => has_users(&incidence, users) && has_chunks(&incidence, chunks),
        None => false,
    }
}

#[test]
fn lists_users_and_chunks(rt: HostRuntime) {
    let text = b"a,01,10\na,02,20\nb,01,10\nb,03,30\nb,05,7\nc,04,5\nc,05,7\n";
    let users: [(u64, &[u32]); 5] = [
        (10, &[0, 1]),
        (20, &[0]),
        (30, &[1]),
        (7, &[1, 2]),
        (5, &[2]),
    ];
    assert!(rt; lists(rt.alloc(), text, &users, &[&[0, 1], &[0, 2, 3], &[3, 4]]));
}
