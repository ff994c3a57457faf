//! Columns of nine places: two vectors and one place more.

use crate::{Cmp, join_into, le_all, may_hold};

#[test]
fn coverings(rt: HostRuntime) {
    assert!(rt; le_all(&[], &[], &[], &[]));
    let lo = [0, -1, -2, -3, -4, -5, -6, -7, -8];
    let hi = [0, 1, 2, 3, 4, 5, 6, 7, 8];
    assert!(rt; le_all(&lo, &hi, &lo, &hi));
    assert!(rt; !le_all(&lo, &hi, &lo, &[0, 1, 2, 3, 4, 5, 6, 7, 7]));
    assert!(rt; !le_all(&lo, &hi, &[0, -1, -2, -3, -4, -5, -6, -7, -7], &hi));
    assert!(rt; !le_all(&lo, &hi, &[0, 0, -2, -3, -4, -5, -6, -7, -8], &hi));
}

#[test]
fn joins(rt: HostRuntime) {
    let mut lo = [0, 5, -3, i64::MIN, 7, 7, 7, 7, 1];
    let mut hi = [0, 6, -3, i64::MAX, 8, 8, 8, 8, 1];
    join_into(
        &mut lo,
        &mut hi,
        &[-1, 6, -3, 0, 9, 6, 7, -8, 2],
        &[-1, 6, -2, 0, 9, 6, 9, -8, 2],
    );
    assert_eq!(rt; lo, [-1, 5, -3, i64::MIN, 7, 6, 7, -8, 1]);
    assert_eq!(rt; hi, [0, 6, -2, i64::MAX, 9, 8, 9, 8, 2]);
}

// Which of nine intervals may hold a number that stands in the comparison with 3.
fn marks(op: Cmp) -> [bool; 9] {
    let lo = [0, 3, 4, 2, i64::MIN, 3, 3, 5, 4];
    let hi = [2, 3, 5, 4, i64::MAX, 4, 3, 1, 9];
    let mut out = [false; 9];
    may_hold(&lo, &hi, op, 3, &mut out);
    out
}

#[test]
fn comparisons(rt: HostRuntime) {
    assert_eq!(rt;
        marks(Cmp::Lt),
        [true, false, false, true, true, false, false, false, false]
    );
    assert_eq!(rt;
        marks(Cmp::Le),
        [true, true, false, true, true, true, true, false, false]
    );
    assert_eq!(rt;
        marks(Cmp::Gt),
        [false, false, true, true, true, true, false, false, true]
    );
    assert_eq!(rt;
        marks(Cmp::Ge),
        [false, true, true, true, true, true, true, false, true]
    );
    assert_eq!(rt;
        marks(Cmp::Eq),
        [false, true, false, true, true, true, true, false, false]
    );
    assert_eq!(rt;
        marks(Cmp::Ne),
        [true, false, true, true, true, true, false, false, true]
    );
}
