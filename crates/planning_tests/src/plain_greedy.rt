// The greedy choice computed plainly. A set of few files is a mask: file f is bit f. Each set is summed anew.
use crate::tables::bit;
use seed_model::{Range, Table};

/// The mask that a choice ended at, whether that is found, and how many turns and rounds it took.
#[derive(Drop)]
pub(crate) struct Plain {
    pub found: bool,
    pub mask: u32,
    pub turns: u32,
    pub rounds: u32,
}

/// The mask of the users of a class.
fn users_of(users: &[u32]) -> u32 {
    let mut mask: u32 = 0;
    for user in users {
        mask |= bit(*user);
    }
    mask
}

/// The bytes of the classes with all users in a mask.
fn migrated(table: &Table, mask: u32) -> u64 {
    let mut bytes: u64 = 0;
    for class in 0..table.classes() {
        if users_of(table.users(class)) & !mask == 0 {
            bytes = bytes.wrapping_add(table.size(class));
        }
    }
    bytes
}

/// The bytes of the classes with a user in a mask and a user outside it.
fn replicated(table: &Table, mask: u32) -> u64 {
    let mut bytes: u64 = 0;
    for class in 0..table.classes() {
        let users = users_of(table.users(class));
        if users & mask != 0 && users & !mask != 0 {
            bytes = bytes.wrapping_add(table.size(class));
        }
    }
    bytes
}

/// Whether a mask is to be taken before another: it replicates less, or as much and migrates more.
fn is_before(table: &Table, mask: u32, other: u32) -> bool {
    let first = replicated(table, mask);
    let second = replicated(table, other);
    first < second || first == second && migrated(table, mask) > migrated(table, other)
}

/// Whether a turn may lead from a mask to the next one.
fn may_add(table: &Table, high: u64, stay: u32, mask: u32, next: u32) -> bool {
    next != mask && next & stay == 0 && migrated(table, next) <= high
}

/// The one of two masks that is to be taken after a turn: the second where the first is still what the turn began with.
fn better_added(table: &Table, mask: u32, best: u32, next: u32) -> u32 {
    if best == mask || is_before(table, next, best) {
        next
    } else {
        best
    }
}

/// The mask after a turn, which adds a file; the same mask where no file may be added.
fn after_turn(table: &Table, high: u64, stay: u32, mask: u32) -> u32 {
    let mut best = mask;
    for file in 0..table.files() {
        let next = mask | bit(file);
        if may_add(table, high, stay, mask, next) {
            best = better_added(table, mask, best, next);
        }
    }
    best
}

/// Whether a mask migrates as many bytes as a range asks for.
fn is_inside(table: &Table, range: &Range, mask: u32) -> bool {
    let bytes = migrated(table, mask);
    range.low <= bytes && bytes <= range.high
}

/// Whether a round may lead from the best mask until then to the next one, which flips a file.
fn may_flip(table: &Table, range: &Range, best: u32, next: u32) -> bool {
    is_inside(table, range, next) && replicated(table, next) < replicated(table, best)
}

/// The mask after a round, which flips a file; the same mask where no flip replicates less.
fn after_round(table: &Table, range: &Range, pinned: u32, mask: u32) -> u32 {
    let mut best = mask;
    for file in 0..table.files() {
        let next = mask ^ bit(file);
        if bit(file) & pinned == 0 && may_flip(table, range, best, next) {
            best = next;
        }
    }
    best
}

/// The mask after all turns, and their number.
fn add_plainly(table: &Table, range: &Range, go: u32, stay: u32) -> (u32, u32) {
    let mut mask = go;
    let mut turns: u32 = 0;
    for _turn in 0..table.files() {
        if migrated(table, mask) < range.low {
            let next = after_turn(table, range.high, stay, mask);
            turns = turns.wrapping_add((next != mask) as u32);
            mask = next;
        }
    }
    (mask, turns)
}

/// The mask after all rounds, and their number.
fn flip_plainly(table: &Table, range: &Range, pinned: u32, begin: u32) -> (u32, u32) {
    let mut mask = begin;
    let mut rounds: u32 = 0;
    for _round in 0..table.files() {
        let next = after_round(table, range, pinned, mask);
        rounds = rounds.wrapping_add((next != mask) as u32);
        mask = next;
    }
    (mask, rounds)
}

/// The greedy choice for pins that are two masks.
pub(crate) fn choose_plainly(table: &Table, range: &Range, go: u32, stay: u32) -> Plain {
    let (mask, turns) = add_plainly(table, range, go, stay);
    let found = is_inside(table, range, mask);
    let pinned = if found { go | stay } else { u32::MAX };
    let (mask, rounds) = flip_plainly(table, range, pinned, mask);
    Plain {
        found,
        mask,
        turns,
        rounds,
    }
}
