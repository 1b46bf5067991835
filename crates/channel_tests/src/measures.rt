// Sum, Worst and a measure of a user's own.
use super::fading::Fading;
use measure::{Measure, Sum, Worst};

// Two values, then their total, the larger of them, and whether the first is at most the second.
const JOINS: [(u32, u32, u32, u32, bool); 7] = [
    (0, 0, 0, 0, true),
    (2, 3, 5, 3, true),
    (3, 2, 5, 3, false),
    (7, 7, 14, 7, true),
    (u32::MAX, 0, u32::MAX, u32::MAX, false),
    (u32::MAX - 1, 1, u32::MAX, u32::MAX - 1, false),
    (u32::MAX, u32::MAX, u32::MAX, u32::MAX, true),
];

#[test]
fn values_join_and_compare(rt: HostRuntime) {
    assert_eq!(rt; Sum::start(), Sum(0));
    assert_eq!(rt; Worst::start(), Worst(0));
    for (a, b, total, larger, at_most) in JOINS {
        assert_eq!(rt; Sum(a).join(Sum(b)), Sum(total));
        assert_eq!(rt; Worst(a).join(Worst(b)), Worst(larger));
        assert_eq!(rt; Sum(a).at_most(Sum(b)), at_most);
        assert_eq!(rt; Worst(a).at_most(Worst(b)), at_most);
    }
}

// The three laws ask for no more: this join goes by the order of its arguments, and its start value is not neutral.
#[test]
fn a_join_need_not_commute(rt: HostRuntime) {
    assert_eq!(rt; Fading(1).join(Fading(2)), Fading(4));
    assert_eq!(rt; Fading(2).join(Fading(1)), Fading(5));
    assert_eq!(rt; Fading::start().join(Fading(0)), Fading(2));
}
