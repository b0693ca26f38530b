//! Quotients and products whose answers were worked out by hand.

use crate::{Factor, Power, down_by, times, up_by};
use std::num::NonZeroU64;

#[test]
fn powers(rt: HostRuntime) {
    assert_eq!(rt; down_by(-7, Power(1)), -4);
    assert_eq!(rt; up_by(-7, Power(1)), -3);
    assert_eq!(rt; down_by(i64::MIN, Power(0)), i64::MIN);
    assert_eq!(rt; up_by(i64::MIN, Power(0)), i64::MIN);
    assert_eq!(rt; up_by(i64::MIN, Power(1)), -4_611_686_018_427_387_904);
    assert_eq!(rt; up_by(i64::MIN, Power(63)), -1);
    assert_eq!(rt; down_by(i64::MIN, Power(64)), -1);
    assert_eq!(rt; up_by(i64::MIN, Power(64)), 0);
    assert_eq!(rt; up_by(i64::MAX, Power(0)), i64::MAX);
    assert_eq!(rt; down_by(i64::MAX, Power(1)), 4_611_686_018_427_387_903);
    assert_eq!(rt; up_by(i64::MAX, Power(1)), 4_611_686_018_427_387_904);
    assert_eq!(rt; down_by(i64::MAX, Power(63)), 0);
    assert_eq!(rt; up_by(i64::MAX, Power(64)), 1);
    assert_eq!(rt; up_by(0, Power(100)), 0);
}

#[test]
fn numbers(rt: HostRuntime) {
    let Some(three) = NonZeroU64::new(3) else {
        unreachable()
    };
    assert_eq!(rt; down_by(-7, three), -3);
    assert_eq!(rt; up_by(-7, three), -2);
    assert_eq!(rt; down_by(7, three), 2);
    assert_eq!(rt; up_by(7, three), 3);
    assert_eq!(rt; up_by(-6, three), -2);
    assert_eq!(rt; up_by(i64::MIN, NonZeroU64::MIN), i64::MIN);
    assert_eq!(rt; down_by(i64::MIN, NonZeroU64::MAX), -1);
    assert_eq!(rt; up_by(i64::MAX, NonZeroU64::MAX), 1);
}

#[test]
fn factors(rt: HostRuntime) {
    assert!(rt; Factor::new(3, 2, 2).is_none());
    assert!(rt; Factor::new(1, 5, 2).is_none());
    assert!(rt; Factor::new(0, 0, 16).is_none());
    let Some(middle) = Factor::new(1, 3, 2) else {
        unreachable()
    };
    assert_eq!(rt; (middle.low(), middle.high(), middle.depth()), (1, 3, 2));
    assert_eq!(rt; times(-5, 7, middle), (-4, 6));
    assert_eq!(rt; times(5, 7, middle), (1, 6));
    assert_eq!(rt; times(-7, -5, middle), (-6, -1));
    let Some(point) = Factor::point(3, 3) else {
        unreachable()
    };
    assert_eq!(rt; times(-9, -9, point), (-4, -3));
}
