// Sums of sets, the best set and where sets differ; numbers.
ghost use Rattle.std.specs.Prelude.{◌≡◌, IfOk};

use seed_model::{
    Class, NoMemory, PlanSet, Table, Users, first_difference, in_range, migrated, range_of,
    read_number, replicated, touched, try_all, undecided, write_number,
};
use std::alloc::Global;
use std::test::Fail;

// The chunks of `size` bytes that these files use.
fn class(alloc: Global, size: u64, users: &[u32]) -> Result<Class, NoMemory>
    ensures { IfOk result (λ c. c ≡ record { size = size; users = users.now }) }
{
    let users = Users::new(Vec::from_slice(alloc, users)?);
    Ok(Class { size, users })
}

// Five chunks that three files use.
fn small_table(alloc: Global) -> Result<Table, NoMemory>
    ensures { IfOk result (λ table. table.files ≡ 3) }
{
    let mut classes = Vec::new(alloc);
    classes.push(class(alloc, 10, &[0, 1])?)?;
    classes.push(class(alloc, 20, &[0])?)?;
    classes.push(class(alloc, 30, &[1])?)?;
    classes.push(class(alloc, 7, &[1, 2])?)?;
    classes.push(class(alloc, 5, &[2])?)?;
    Ok(Table::new(3, classes))
}

#[test]
fn weighs_and_finds_the_best_set(rt: HostRuntime) -> Result<(), Fail> {
    let table = small_table(rt.alloc())?;
    let range = range_of(40, 5);
    let mut last_two = PlanSet::empty(rt.alloc(), 3)?;
    last_two.insert(1);
    last_two.insert(2);
    let moved = (migrated(&table, &last_two), touched(&table, &last_two));
    assert!(rt; moved == (42, 52) && replicated(&table, &last_two) == 10);
    assert!(rt; in_range(&table, &last_two, &range));
    let best = try_all(rt.alloc(), &table, &range)?;
    assert!(rt; best.is_some());
    if let Some(mut best) = best {
        assert_eq!(rt; first_difference(&best, &last_two), None);
        let copy = best.copy()?;
        best.remove(1);
        assert_eq!(rt; first_difference(&best, &copy), Some(1));
    }
    let none = try_all(rt.alloc(), &table, &range_of(10, 2))?;
    assert!(rt; none.is_none());
    Ok(())
}

#[test]
fn reads_one_spelling_of_each_number(rt: HostRuntime) -> Result<(), Fail> {
    let greatest = b"340282366920938463463374607431768211455";
    let cases: [(&[u8], u128, Option<u128>); 13] = [
        (b"0", 0, Some(0)),
        (b"40", 40, Some(40)),
        (b"40", 39, None),
        (b"1024", u128::MAX, Some(1024)),
        (b"", u128::MAX, None),
        (b"00", u128::MAX, None),
        (b"040", u128::MAX, None),
        (b"4:", u128::MAX, None),
        (b"+4", u128::MAX, None),
        (b"4 ", u128::MAX, None),
        (greatest, u128::MAX, Some(u128::MAX)),
        (greatest, u128::MAX - 1, None),
        (b"340282366920938463463374607431768211456", u128::MAX, None),
    ];
    for (text, limit, number) in cases {
        assert_eq!(rt; read_number(text, limit), number);
    }
    Ok(())
}

#[test]
fn writes_behind_what_stands(rt: HostRuntime) -> Result<(), Fail> {
    let mut out = Vec::new(rt.alloc());
    out.push(b'=')?;
    for number in [0u128, 7, 1024, u128::MAX] {
        assert!(rt; write_number(number, &mut out).is_ok());
    }
    assert!(rt; out.as_slice() == b"=071024340282366920938463463374607431768211455".as_slice());
    Ok(())
}

#[test]
fn finds_a_difference_in_any_word(rt: HostRuntime) -> Result<(), Fail> {
    for file in [0u32, 1, 63, 64, 65, 127, 128, 199] {
        let one = PlanSet::empty(rt.alloc(), 200)?;
        let mut other = one.copy()?;
        assert_eq!(rt; first_difference(&one, &other), None);
        if file < other.files() {
            other.insert(file);
        }
        assert_eq!(rt; first_difference(&one, &other), Some(file));
    }
    Ok(())
}

// Whether no file is in a set.
fn is_empty(set: &PlanSet) -> bool {
    let mut as_told = true;
    for file in 0..set.files() {
        as_told &= !set.contains(file);
    }
    as_told
}

#[test]
fn no_file_is_decided_at_first(rt: HostRuntime) -> Result<(), Fail> {
    let node = undecided(rt.alloc(), 70)?;
    assert!(rt; node.inside.files() == 70 && node.outside.files() == 70);
    assert!(rt; is_empty(&node.inside) && is_empty(&node.outside));
    Ok(())
}
