// Sets and their texts.
use seed_model::PlanSet;
use seed_text::{read_set, write_set};
use std::alloc::Global;
use std::test::Fail;

// Whether a set of so many files with these in it is written as the text and read from it.
fn is_text_of(alloc: Global, files: u32, within: &[u32], text: &[u8]) -> Result<bool, Fail> {
    let Ok(mut set) = PlanSet::empty(alloc, files) else {
        return Ok(false);
    };
    for file in within {
        if *file < set.files() {
            set.insert(*file);
        }
    }
    let Ok(spelled) = write_set(alloc, &set) else {
        return Ok(false);
    };
    let Ok(Some(read)) = read_set(alloc, text, files) else {
        return Ok(false);
    };
    let Ok(again) = write_set(alloc, &read) else {
        return Ok(false);
    };
    Ok(spelled.as_slice() == text && again.as_slice() == text)
}

#[test]
fn sets_and_their_texts(rt: HostRuntime) -> Result<(), Fail> {
    let cases: [(u32, &[u32], &[u8]); 8] = [
        (3, &[1, 2], b"60"),
        (3, &[0], b"80"),
        (3, &[0, 1, 2], b"e0"),
        (3, &[], b"00"),
        (9, &[0, 1, 2, 3, 4, 5, 6, 7, 8], b"ff80"),
        (8, &[7], b"01"),
        (16, &[0, 15], b"8001"),
        (0, &[], b"-"),
    ];
    for (files, within, text) in cases {
        assert!(rt; is_text_of(rt.alloc(), files, within, text)?);
    }
    Ok(())
}

#[test]
fn texts_of_no_set(rt: HostRuntime) -> Result<(), Fail> {
    let cases: [(u32, &[u8]); 10] = [
        (3, b"E0"),
        (3, b"10"),
        (3, b"e000"),
        (9, b"ff"),
        (9, b"ff81"),
        (3, b"e"),
        (3, b"-"),
        (3, b""),
        (0, b""),
        (0, b"00"),
    ];
    for (files, text) in cases {
        let refused = match read_set(rt.alloc(), text, files) {
            Ok(read) => read.is_none(),
            Err(_) => false,
        };
        assert!(rt; refused);
    }
    Ok(())
}
