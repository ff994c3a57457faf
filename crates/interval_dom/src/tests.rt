//! Worked examples, and each operation against what all pairs of small numbers give.

use crate::{Cmp, Interval, Width};
use std::alloc::{AllocError, Global};

fn interval(lo: i64, hi: i64) -> Interval {
    Interval::new(lo, hi).unwrap_or(Interval::full(Width::W64))
}

#[test]
fn quotients(rt: HostRuntime) {
    let int = Interval::full(Width::W32);
    assert_eq!(rt;
        interval(10, 10).div(int, Width::W32),
        Some(interval(-10, 10))
    );
    assert_eq!(rt;
        interval(-7, 7).div(interval(2, 2), Width::W32),
        Some(interval(-3, 3))
    );
    assert_eq!(rt; int.div(interval(0, 0), Width::W32), None);
    assert_eq!(rt; int.rem(interval(0, 0), Width::W32), None);
    for (w, least) in [(Width::W32, -2147483648), (Width::W64, i64::MIN)] {
        let lowest = interval(least, least);
        assert_eq!(rt; lowest.div(interval(-1, -1), w), Some(Interval::full(w)));
        assert_eq!(rt; lowest.rem(interval(-1, -1), w), Some(interval(0, 0)));
        assert_eq!(rt; lowest.neg(w), Interval::full(w));
    }
}

#[test]
fn remainders(rt: HostRuntime) {
    assert_eq!(rt;
        interval(-7, 7).rem(interval(3, 3), Width::W32),
        Some(interval(-2, 2))
    );
    assert_eq!(rt;
        interval(0, 1).rem(interval(5, 5), Width::W32),
        Some(interval(0, 1))
    );
}

#[test]
fn refinements(rt: HostRuntime) {
    let to_ten = interval(0, 10);
    assert_eq!(rt; interval(0, 1).refine(Cmp::Eq, interval(2, 3)), None);
    assert_eq!(rt;
        to_ten.refine(Cmp::Lt, interval(5, 8)),
        Some(interval(0, 7))
    );
    assert_eq!(rt;
        to_ten.refine(Cmp::Ne, interval(10, 10)),
        Some(interval(0, 9))
    );
    assert_eq!(rt; to_ten.refine(Cmp::Ne, interval(5, 5)), Some(to_ten));
    assert_eq!(rt; interval(5, 5).refine(Cmp::Ne, interval(5, 5)), None);
    assert_eq!(rt; to_ten.refine(Cmp::Gt, interval(i64::MAX, i64::MAX)), None);
}

// `old` widened by `new` on a few marks.
fn widened(old: Interval, new: Interval) -> Interval {
    old.widen(new, &[-2147483648, 9, 10, 11, 2147483647])
}

#[test]
fn widenings(rt: HostRuntime) {
    assert_eq!(rt; widened(interval(0, 0), interval(0, 1)), interval(0, 9));
    assert_eq!(rt; widened(interval(0, 9), interval(0, 10)), interval(0, 10));
    assert_eq!(rt;
        widened(interval(0, 9), interval(-1, 5)),
        interval(-2147483648, 9)
    );
}

// All intervals with ends from -4 to 4.
fn small_intervals(alloc: Global) -> Result<Vec<Interval>, AllocError> {
    let mut all = Vec::new(alloc);
    for lo in -4..5 {
        for hi in lo..5 {
            all.push(interval(lo, hi))?;
        }
    }
    Ok(all)
}

// The least interval with the results of all pairs of numbers, by trying each.
fn range_by_trial<F: Fn(i64, i64) -> Option<i64>>(
    a: Interval,
    b: Interval,
    op: F,
) -> Option<Interval>
    requires { F.IsAlwaysCallable op }
{
    let mut range = None;
    for x in a.lo()..=a.hi() {
        for y in b.lo()..=b.hi() {
            if let Some(z) = op(x, y) {
                let (lo, hi) = range.unwrap_or((z, z));
                range = Some((z.min(lo), z.max(hi)));
            }
        }
    }
    range.map(|(lo, hi)| interval(lo, hi))
}

#[test]
fn arithmetic_by_trial(rt: HostRuntime) -> Result<(), AllocError> {
    let all = small_intervals(rt.alloc())?;
    let w = Width::W32;
    for a in &all {
        for b in &all {
            assert_eq!(rt;
                Some(a.add(*b, w)),
                range_by_trial(*a, *b, |x, y| Some(x.wrapping_add(y)))
            );
            assert_eq!(rt;
                Some(a.sub(*b, w)),
                range_by_trial(*a, *b, |x, y| Some(x.wrapping_sub(y)))
            );
            assert_eq!(rt;
                Some(a.mul(*b, w)),
                range_by_trial(*a, *b, |x, y| Some(x.wrapping_mul(y)))
            );
            assert_eq!(rt;
                a.div(*b, w),
                range_by_trial(*a, *b, |x, y| x.checked_div(y))
            );
            let remainders = range_by_trial(*a, *b, |x, y| x.checked_rem(y));
            assert!(rt; remainders.is_none() == a.rem(*b, w).is_none());
            assert!(rt; remainders.unwrap_or(*b).le(a.rem(*b, w).unwrap_or(*b)));
        }
    }
    Ok(())
}

fn relates(op: Cmp, x: i64, y: i64) -> bool {
    match op {
        Cmp::Lt => x < y,
        Cmp::Le => x <= y,
        Cmp::Gt => y < x,
        Cmp::Ge => y <= x,
        Cmp::Eq => x == y,
        Cmp::Ne => x != y,
    }
}

#[test]
fn comparisons_by_trial(rt: HostRuntime) -> Result<(), AllocError> {
    let all = small_intervals(rt.alloc())?;
    for op in [Cmp::Lt, Cmp::Le, Cmp::Gt, Cmp::Ge, Cmp::Eq, Cmp::Ne] {
        for a in &all {
            for b in &all {
                let values = range_by_trial(*a, *b, |x, y| Some(i64::from(relates(op, x, y))));
                let left = range_by_trial(
                    *a,
                    *b,
                    |x, y| if relates(op, x, y) { Some(x) } else { None },
                );
                assert_eq!(rt; Some(a.compare(op, *b)), values);
                assert_eq!(rt; a.refine(op, *b), left);
                assert_eq!(rt; a.compare(op, *b), b.compare(op.turned(), *a));
            }
        }
    }
    Ok(())
}
