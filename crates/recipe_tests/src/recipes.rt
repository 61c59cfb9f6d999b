// Worked texts, with the values that stand in the format's description.
use file_names::is_file_name;
use recipe_reader::{AddError, Recipe, RecipeError, What, read_recipe, write_recipe};
use seed_model::{NoMemory, write_number};
use std::alloc::Global;

/// How many files, chunks and pairs a recipe has, and its bytes; or the fault of its text.
type Counts = Result<(u32, u32, usize, u64), RecipeError>;

/// What the recipe of a text counts.
fn counts_of(alloc: Global, text: &[u8]) -> Counts {
    let recipe = read_recipe(alloc, text)?;
    let pairs = recipe.pairs().len();
    Ok((recipe.files(), recipe.chunks(), pairs, recipe.total()))
}

/// Whether the recipe of a text that was made counts so.
fn counts(alloc: Global, text: Result<Vec<u8>, NoMemory>, want: Counts) -> bool {
    match text {
        Ok(text) => counts_of(alloc, &text) == want,
        Err(_) => false,
    }
}

/// The fault of a text.
fn fault_of(alloc: Global, text: &[u8]) -> Option<RecipeError> {
    counts_of(alloc, text).err()
}

/// Whether a recipe has this text.
fn has_text(alloc: Global, recipe: &Recipe, want: &[u8]) -> bool {
    match write_recipe(alloc, recipe) {
        Ok(written) => written.as_slice() == want,
        Err(_) => false,
    }
}

/// Whether the recipe of a text is written as another text.
fn is_written_as(alloc: Global, text: &[u8], want: &[u8]) -> bool {
    match read_recipe(alloc, text) {
        Ok(recipe) => has_text(alloc, &recipe, want),
        Err(_) => false,
    }
}

/// Whether the recipe of a text has these pairs.
fn has_pairs(alloc: Global, text: &[u8], pairs: &[(u32, u32)]) -> bool {
    match read_recipe(alloc, text) {
        Ok(recipe) => recipe.pairs() == pairs,
        Err(_) => false,
    }
}

const SMALL: &[u8] = b"a,01,10\na,02,20\nb,01,10\nb,03,30\nb,05,7\nc,04,5\nc,05,7\n";

/// Whether the third file, the fourth chunk's name and the fifth one's size are the small recipe's.
fn has_small_names(recipe: &Recipe) -> bool {
    2 < recipe.files()
        && 4 < recipe.chunks()
        && recipe.file_name(2) == "c"
        && recipe.chunk_name(3) == [5].as_slice()
        && recipe.size(4) == 5
}

/// Whether the small recipe is read with its names.
fn names_small(alloc: Global) -> bool {
    match read_recipe(alloc, SMALL) {
        Ok(recipe) => has_small_names(&recipe),
        Err(_) => false,
    }
}

#[test]
fn reads_files_chunks_and_pairs(rt: HostRuntime) {
    assert!(rt; names_small(rt.alloc()));
    assert!(rt; counts_of(rt.alloc(), SMALL) == Ok((3, 5, 7, 72)));
    let pairs = [(0, 0), (0, 1), (1, 0), (1, 2), (1, 3), (2, 4), (2, 3)];
    assert!(rt; has_pairs(rt.alloc(), SMALL, &pairs));
}

#[test]
fn counts_each_file_chunk_and_pair_once(rt: HostRuntime) {
    let cases: [(&[u8], (u32, u32, usize, u64)); 3] = [
        (b"", (0, 0, 0, 0)),
        (b"a,01,10\na,01,10\ne,,0\nb,01,10\n", (3, 1, 2, 10)),
        (b"\"a,b\",0A,5\n\"a,b\",0a,5\n", (1, 1, 1, 5)),
    ];
    for (text, want) in cases {
        assert!(rt; counts_of(rt.alloc(), text) == Ok(want));
    }
}

#[test]
fn names_the_first_fault(rt: HostRuntime) {
    let clash = RecipeError::SizeClash {
        row: 2,
        first: 10,
        now: 11,
    };
    let cases: [(&[u8], RecipeError); 7] = [
        (b"a,01,10\nb,01,11\n", clash),
        (b"a,01\n", RecipeError::BadRow { row: 1 }),
        (b",01,1\n", RecipeError::BadName { row: 1 }),
        (b"a,0,1\n", RecipeError::BadChunkName { row: 1 }),
        (b"a,01,\n", RecipeError::BadSize { row: 1 }),
        (b"a,,0\na,,1\n", RecipeError::BadSize { row: 2 }),
        (b"a,01,4294967296\n", RecipeError::BadSize { row: 1 }),
    ];
    for (text, want) in cases {
        assert!(rt; fault_of(rt.alloc(), text) == Some(want));
    }
}

/// Whether a file is added as the first one.
fn adds_file(recipe: &mut Recipe, name: &str) -> bool {
    is_file_name(name) && recipe.add_file(name) == Ok(0)
}

/// Whether adding a pair of the first file and a chunk of this size is answered so.
fn adds_pair(recipe: &mut Recipe, size: u64, want: Result<(), AddError>) -> bool {
    0 < recipe.files() && size < 10 && recipe.add_pair(0, &[1, 2], size) == want
}

/// Whether a pair is taken once, and refused with another size.
fn takes_one_size(recipe: &mut Recipe) -> bool {
    let clash = AddError::Clash { first: 4, now: 5 };
    adds_pair(recipe, 4, Ok(())) && adds_pair(recipe, 5, Err(clash)) && recipe.total() == 4
}

#[test]
fn adds_files_and_pairs(rt: HostRuntime) {
    let mut recipe = Recipe::new(rt.alloc());
    assert!(rt; adds_file(&mut recipe, "x") && takes_one_size(&mut recipe));
}

#[test]
fn writes_file_by_file(rt: HostRuntime) {
    let cases: [(&[u8], &[u8]); 4] = [
        (b"", b""),
        (SMALL, SMALL),
        (b"\"a,b\",0A,5\n\"a,b\",0a,5\n", b"\"a,b\",0a,5\n"),
        (
            b"b,02,1\ne,,0\na,01,2\nb,01,2\n",
            b"b,02,1\nb,01,2\ne,,0\na,01,2\n",
        ),
    ];
    for (text, want) in cases {
        assert!(rt; is_written_as(rt.alloc(), text, want));
    }
}

#[test]
fn reads_rows_in_any_order(rt: HostRuntime) {
    let cases: [(&[u8], &[(u32, u32)]); 3] = [
        (
            b"a,01,1\nb,01,1\nb,02,2\nb,01,1\na,01,1\na,02,2\nb,02,2\nc,01,1\na,02,2\n",
            &[(0, 0), (1, 0), (1, 1), (0, 1), (2, 0)],
        ),
        (
            b"a,01,1\nb,02,2\na,03,3\nb,03,3\nb,04,4\na,03,3\n",
            &[(0, 0), (1, 1), (0, 2), (1, 2), (1, 3)],
        ),
        (b"a,,0\nb,01,1\na,01,1\nb,01,1\n", &[(1, 0), (0, 0)]),
    ];
    for (text, pairs) in cases {
        assert!(rt; has_pairs(rt.alloc(), text, pairs));
    }
}

/// Adds the row of a file that is named by a letter and a number, and of a chunk that is named by eight digits.
fn add_row(text: &mut Vec<u8>, file: u32, chunk: u32, size: u32) -> Result<(), NoMemory> {
    text.push(b'f')?;
    write_number(file as u128, text)?;
    text.push(b',')?;
    write_number(10_000_000 + chunk.min(80_000_000) as u128, text)?;
    text.push(b',')?;
    write_number(size as u128, text)?;
    text.push(b'\n')?;
    Ok(())
}

/// The rows of a file with so many chunks of a size.
fn rows_of_one_file(alloc: Global, chunks: u32, size: u32) -> Result<Vec<u8>, NoMemory> {
    let mut text = Vec::new(alloc);
    for chunk in 0..chunks {
        add_row(&mut text, 1, chunk, size)?;
    }
    Ok(text)
}

/// The rows of so many files with one chunk.
fn rows_of_one_chunk(alloc: Global, files: u32) -> Result<Vec<u8>, NoMemory> {
    let mut text = Vec::new(alloc);
    for file in 0..files {
        add_row(&mut text, file, 0, 1)?;
    }
    Ok(text)
}

/// The fault of a row with which there are too many.
fn too_many(row: u64, what: What) -> Counts {
    Err(RecipeError::TooMany { row, what })
}

/// A text with as many bytes as a recipe may have, and with a byte more where it is asked for.
fn rows_of_most_bytes(alloc: Global, one_more: bool) -> Result<Vec<u8>, NoMemory> {
    let mut text = rows_of_one_file(alloc, 262_144, 4_294_967_295)?;
    add_row(&mut text, 1, 262_144, 262_143)?;
    if one_more {
        add_row(&mut text, 1, 262_145, 1)?;
    }
    Ok(text)
}

#[test]
fn bounds_the_total(rt: HostRuntime) {
    let most = Ok((1, 262_145, 262_145, 1_125_899_906_842_623));
    assert!(rt; counts(rt.alloc(), rows_of_most_bytes(rt.alloc(), false), most));
    let over = too_many(262_146, What::Bytes);
    assert!(rt; counts(rt.alloc(), rows_of_most_bytes(rt.alloc(), true), over));
}

#[test]
fn bounds_the_number_of_files(rt: HostRuntime) {
    let most = Ok((16_383, 1, 16_383, 1));
    assert!(rt; counts(rt.alloc(), rows_of_one_chunk(rt.alloc(), 16_383), most));
    let over = too_many(16_384, What::Files);
    assert!(rt; counts(rt.alloc(), rows_of_one_chunk(rt.alloc(), 16_384), over));
}

/// The rows of two files in turn, with so many chunks of 3 bytes.
fn rows_in_turn(alloc: Global, chunks: u32) -> Result<Vec<u8>, NoMemory> {
    let mut text = Vec::new(alloc);
    for chunk in 0..chunks {
        add_row(&mut text, 1, chunk, 3)?;
        add_row(&mut text, 2, chunk, 3)?;
    }
    Ok(text)
}

/// Rows of 17 files and 1009 chunks of 5 bytes, each pair at least once where there are 17,153 rows.
fn mixed_rows(alloc: Global, rows: u32) -> Result<Vec<u8>, NoMemory> {
    let mut text = Vec::new(alloc);
    for row in 0..rows.min(1_000_000) {
        add_row(&mut text, row * 7 % 17, row * 31 % 1009, 5)?;
    }
    Ok(text)
}

#[test]
fn takes_many_rows_and_rows_said_again(rt: HostRuntime) {
    let in_turn = Ok((2, 500_001, 1_000_002, 1_500_003));
    assert!(rt; counts(rt.alloc(), rows_in_turn(rt.alloc(), 500_001), in_turn));
    let mixed = Ok((17, 1009, 17_153, 5045));
    assert!(rt; counts(rt.alloc(), mixed_rows(rt.alloc(), 20_000), mixed));
}

/// The row of a chunk whose name has so many bytes.
fn row_of_name(alloc: Global, bytes: u32) -> Result<Vec<u8>, NoMemory> {
    let mut text = Vec::new(alloc);
    text.extend_from_slice(b"a,")?;
    for _ in 0..bytes {
        text.extend_from_slice(b"c7")?;
    }
    text.extend_from_slice(b",1\n")?;
    Ok(text)
}

#[test]
fn bounds_chunk_names_and_sizes(rt: HostRuntime) {
    let one = Ok((1, 1, 1, 1));
    assert!(rt; counts(rt.alloc(), row_of_name(rt.alloc(), 64), one));
    let over = Err(RecipeError::BadChunkName { row: 1 });
    assert!(rt; counts(rt.alloc(), row_of_name(rt.alloc(), 65), over));
    assert!(rt; fault_of(rt.alloc(), b"a,01,4294967295\n").is_none());
}

/// Whether the chunks of a recipe have names of so many bytes.
fn has_name_lengths(recipe: &Recipe, lengths: &[usize]) -> bool {
    for chunk in 0..recipe.chunks() {
        if lengths.get(chunk as usize) != Some(&recipe.chunk_name(chunk).len()) {
            return false;
        }
    }
    recipe.chunks() as usize == lengths.len()
}

/// Rows of short and long chunk names, some of them said again.
fn short_and_long_rows(alloc: Global) -> Result<Vec<u8>, NoMemory> {
    let mut text = Vec::from_slice(alloc, b"b,01,1\n")?;
    for bytes in [15u32, 16, 64, 15, 16, 64] {
        text.extend_from_slice(&row_of_name(alloc, bytes)?)?;
    }
    text.extend_from_slice(b"b,01,1\n")?;
    Ok(text)
}

/// Whether the chunks of a text have names of so many bytes.
fn reads_name_lengths(alloc: Global, text: &[u8], lengths: &[usize]) -> bool {
    match read_recipe(alloc, text) {
        Ok(recipe) => has_name_lengths(&recipe, lengths),
        Err(_) => false,
    }
}

/// Whether short and long chunk names are kept, each once.
fn keeps_names(alloc: Global) -> bool {
    match short_and_long_rows(alloc) {
        Ok(text) => reads_name_lengths(alloc, &text, &[1, 15, 16, 64]),
        Err(_) => false,
    }
}

/// Whether the pairs of short and long chunk names are these.
fn pairs_names(alloc: Global, pairs: &[(u32, u32)]) -> bool {
    match short_and_long_rows(alloc) {
        Ok(text) => has_pairs(alloc, &text, pairs),
        Err(_) => false,
    }
}

#[test]
fn keeps_short_and_long_chunk_names(rt: HostRuntime) {
    assert!(rt; keeps_names(rt.alloc()));
    assert!(rt; pairs_names(rt.alloc(), &[(0, 0), (1, 1), (1, 2), (1, 3)]));
}
