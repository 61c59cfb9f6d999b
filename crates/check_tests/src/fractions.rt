// Fractions in order, in lowest terms, rounded up and mixed.
use seed_ratio::{ceiling, compare, lowest, mix_le};
use std::cmp::Ordering;

#[test]
fn fractions_in_order(rt: HostRuntime) {
    let most = u128::MAX;
    let cases: [(u128, u128, u128, u128, Ordering); 8] = [
        (25, 3, 135, 26, Ordering::Greater),
        (135, 26, 25, 3, Ordering::Less),
        (1, 3, 2, 6, Ordering::Equal),
        (0, 5, 0, 7, Ordering::Equal),
        (0, 5, 1, 7, Ordering::Less),
        (7, 2, 3, 1, Ordering::Greater),
        (most, most - 1, most - 1, most - 2, Ordering::Less),
        (most, 1, most, 2, Ordering::Greater),
    ];
    for (a, b, c, d, order) in cases {
        assert!(rt; b >= 1 && d >= 1);
        assert_eq!(rt; compare(a, b, c, d), order);
    }
}

#[test]
fn ceilings_and_lowest_terms(rt: HostRuntime) {
    for (a, b, want) in [(25, 3, 9), (9, 3, 3), (0, 3, 0), (u128::MAX, 1, u128::MAX)] {
        assert!(rt; b >= 1);
        assert_eq!(rt; ceiling(a, b), want);
    }
    for (a, b, want) in [
        (350, 42, (25, 3)),
        (270, 52, (135, 26)),
        (12, 4, (3, 1)),
        (0, 7, (0, 1)),
    ] {
        assert!(rt; b >= 1);
        assert_eq!(rt; lowest(a, b), want);
    }
}

#[test]
fn means_up_to_a_limit(rt: HostRuntime) {
    assert!(rt; mix_le(37, 0, 35, 72, 35));
    assert!(rt; !mix_le(37, 0, 35, 72, 34));
    assert!(rt; mix_le(0, 5, 0, 7, 0));
}
