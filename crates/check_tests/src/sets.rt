// Sets of at most eight files as bytes, the first file as the highest bit, and the sums of classes.
use bound_cert::SetText;
use seed_model::Table;
use std::alloc::Global;

const BITS: [u8; 8] = [128, 64, 32, 16, 8, 4, 2, 1];

/// The set of one file.
pub fn bit(file: u32) -> u8 {
    match BITS.get(file as usize) {
        Some(bit) => *bit,
        None => 0,
    }
}

/// The set of the first files.
pub fn all_files(files: u32) -> u8 {
    let mut set = 0u8;
    for file in 0..8u32 {
        if file < files {
            set |= bit(file);
        }
    }
    set
}

/// The first file in exactly one of two sets.
pub fn first_difference(one: u8, other: u8) -> Option<u32> {
    for file in 0..8u32 {
        if (one ^ other) & bit(file) != 0 {
            return Some(file);
        }
    }
    None
}

/// The first file of a set.
pub fn first_of(set: u8) -> Option<u32> {
    first_difference(set, 0)
}

fn digit(byte: u8) -> Option<u8> {
    match byte {
        b'0'..=b'9' => Some(byte.wrapping_sub(b'0')),
        b'a'..=b'f' => Some(byte.wrapping_sub(b'a').wrapping_add(10)),
        _ => None,
    }
}

/// The set that a text names, where it is one of these files.
pub fn set_of(text: &SetText, full: u8) -> Option<u8> {
    match text.text() {
        [high, low] => {
            let set = digit(*high)?.wrapping_mul(16) | digit(*low)?;
            if set & !full == 0 { Some(set) } else { None }
        }
        _ => None,
    }
}

/// The bytes of a class, and the set of its users.
#[derive(Clone, Copy)]
pub struct SmallClass {
    pub size: i64,
    pub users: u8,
}

/// The set of some users.
fn set_of_users(users: &[u32]) -> u8 {
    let mut set = 0u8;
    for file in users {
        set |= bit(*file);
    }
    set
}

/// The classes of a table of at most eight files.
pub fn classes_of(alloc: Global, table: &Table) -> Option<Vec<SmallClass>> {
    let mut classes = Vec::new(alloc);
    for class in table.class_list() {
        let size = i64::try_from(class.size).unwrap_or(i64::MAX);
        let users = set_of_users(class.users.list());
        classes.push(SmallClass { size, users }).ok()?;
    }
    Some(classes)
}

/// The bytes of the classes all of whose users are in the set.
pub fn migrated(classes: &[SmallClass], set: u8) -> i64 {
    let mut sum = 0i64;
    for class in classes {
        if class.users & set == class.users {
            sum = sum.wrapping_add(class.size);
        }
    }
    sum
}

/// The bytes of the classes some of whose users are in the set, but not all.
pub fn replicated(classes: &[SmallClass], set: u8) -> i64 {
    let mut sum = 0i64;
    for class in classes {
        if class.users & set != 0 && class.users & set != class.users {
            sum = sum.wrapping_add(class.size);
        }
    }
    sum
}
