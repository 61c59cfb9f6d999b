// Values grouped by key, and lists turned.
use list_facts::{KeyedLists, group, transpose};
use std::test::Fail;

/// Whether the lists are these, and no others.
fn has_lists(lists: &KeyedLists<u32>, want: &[&[u32]]) -> bool {
    let mut as_told = lists.len() as usize == want.len();
    for key in 0..lists.len() {
        as_told &= want.get(key as usize) == Some(&lists.list(key));
    }
    as_told
}

#[test]
fn groups_and_turns(rt: HostRuntime) -> Result<(), Fail> {
    let pairs = [(2u32, 7u32), (0, 1), (2, 0), (3, 7)];
    let lists = group(rt.alloc(), pairs.as_slice(), 4, 0)?;
    let grouped: [&[u32]; 4] = [&[1], &[], &[7, 0], &[7]];
    assert!(rt; has_lists(&lists, &grouped));
    let turned = transpose(rt.alloc(), &lists, 8)?;
    let by_value: [&[u32]; 8] = [&[2], &[0], &[], &[], &[], &[], &[], &[2, 3]];
    assert!(rt; has_lists(&turned, &by_value));
    Ok(())
}

#[test]
fn groups_values_of_any_type(rt: HostRuntime) -> Result<(), Fail> {
    let pairs = [(1u32, 'b'), (0, 'a'), (1, 'c')];
    let lists = group(rt.alloc(), pairs.as_slice(), 2, ' ')?;
    assert_eq!(rt; lists.len(), 2);
    assert_eq!(rt; lists.list(0), ['a'].as_slice());
    assert_eq!(rt; lists.list(1), ['b', 'c'].as_slice());
    Ok(())
}
