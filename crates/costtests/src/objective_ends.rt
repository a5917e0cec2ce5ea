// Tests at the ends: figures of 0 and 65,535, costs next to 4,294,967,295, and counts next to 2^64.
use objectives::{Best, CostCount, Count, Objective, Peak, Picking, Total, at_most_as_dear};

const TOP: u32 = u32::MAX;

#[test]
fn peaks(rt: HostRuntime) {
    assert_eq!(rt; Peak.start(), 0);
    for (value, figure, larger) in [
        (0, 0, 0),
        (0, 65535, 65535),
        (65536, 65535, 65536),
        (TOP, 65535, TOP),
    ] {
        assert_eq!(rt; Peak.extend(value, figure), larger);
    }
    assert!(rt; Peak.join(3, 5) == 3 && Peak.join(TOP, 0) == 0);
}

#[test]
fn totals(rt: HostRuntime) {
    assert_eq!(rt; Total.start(), 0);
    for (value, figure, sum) in [
        (0, 0, 0),
        (0, 65535, 65535),
        (TOP - 1, 0, TOP - 1),
        (TOP - 1, 1, TOP),
        (TOP - 1, 2, TOP),
        (TOP - 65535, 65534, TOP - 1),
        (TOP - 65535, 65535, TOP),
        (TOP, 0, TOP),
        (TOP, 65535, TOP),
    ] {
        assert_eq!(rt; Total.extend(value, figure), sum);
    }
    assert!(rt; Total.join(TOP, TOP - 1) == TOP - 1 && Total.join(7, 7) == 7);
}

#[test]
fn kept(rt: HostRuntime) {
    for (one, other, first) in [(3, 5, true), (5, 3, false), (4, 4, true), (TOP, TOP, true)] {
        assert!(rt; Peak.keeps_first(one, other) == first);
        assert!(rt; Total.keeps_first(one, other) == first);
        assert!(rt; at_most_as_dear(&Total, one, other) == first);
    }
}

#[test]
fn counts(rt: HostRuntime) {
    let top = u64::MAX;
    assert_eq!(rt; Count.start(), 1);
    assert!(rt; Count.extend(7, 65535) == 7 && Count.extend(top, 0) == top);
    assert!(rt; Count.join(3, 4) == 7 && Count.join(top, 0) == top);
    assert!(rt; Count.join(top, 1) == 0 && Count.join(top, top) == top - 1);
}

fn is(value: CostCount, cost: u32, count: u64) -> bool {
    value.cost() == cost && value.count() == count
}

#[test]
fn best_joins(rt: HostRuntime) {
    let start = Best.start();
    let dearer = Best.extend(start, 1);
    assert!(rt; is(start, 0, 1));
    assert!(rt; is(dearer, 1, 1));
    assert!(rt; is(Best.join(start, dearer), 0, 1));
    assert!(rt; is(Best.join(dearer, start), 0, 1));
    assert!(rt; is(Best.join(start, start), 0, 2));
    assert!(rt; start.same(start) && !start.same(dearer) && !start.same(Best.join(start, start)));
}

// 65,537 figures of 65,535 add up to the dearest cost.
#[test]
fn best_at_the_dearest(rt: HostRuntime) {
    let mut value = Best.start();
    for _ in 0..65536 {
        value = Best.extend(value, 65535);
    }
    assert!(rt; is(value, TOP - 65535, 1));
    let below = Best.extend(value, 65534);
    assert!(rt; is(below, TOP - 1, 1));
    assert!(rt; is(Best.extend(below, 0), TOP - 1, 1));
    let dearest = Best.extend(value, 65535);
    assert!(rt; is(dearest, TOP, 0));
    assert!(rt; is(Best.extend(below, 1), TOP, 0));
    assert!(rt; is(Best.extend(below, 65535), TOP, 0));
    assert!(rt; is(Best.extend(dearest, 0), TOP, 0));
    assert!(rt; is(Best.join(dearest, dearest), TOP, 0));
    assert!(rt; is(Best.join(dearest, below), TOP - 1, 1));
}

// A value joined with itself has twice the count.
#[test]
fn best_counts_wrap(rt: HostRuntime) {
    let mut value = Best.start();
    for _ in 0..63 {
        value = Best.join(value, value);
    }
    assert!(rt; is(value, 0, 9223372036854775808));
    let none = Best.join(value, value);
    assert!(rt; is(none, 0, 0));
    assert!(rt; is(Best.join(none, Best.start()), 0, 1));
}
