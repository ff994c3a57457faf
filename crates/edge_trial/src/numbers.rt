use constraint_sys::Unknown;
use edge_texts::{Ends, after, alone, effect, read};
use lockset_dom::Locks;
use std::test::Fail;

/// All ints.
const INT: Ends = (-2147483648, 2147483647);

/// Slot 0 is the returned value, 1 is x, 2 is y, 3 the arbitrary number. Edges: 0 the silent skip to
/// the body; 1 `x = 7`; 2 the arbitrary number; 3 `y = $0`; 4 the assertion; 5 `x = x / 0`; 6 the return.
const PLAIN: &[u8] = b"int main(void) {
  int x = 7;
  int y = __VERIFIER_nondet_int();
  assert(y > 2);
  x = x / 0;
  return x;
}
";

#[test]
fn a_skip_changes_nothing(rt: HostRuntime) -> Result<(), Fail> {
    assert!(rt; after(rt.alloc(), PLAIN, 0, 0, 1)? == alone((0, 0), Locks::empty()));
    Ok(())
}

#[test]
fn a_number_is_assigned(rt: HostRuntime) -> Result<(), Fail> {
    assert!(rt; after(rt.alloc(), PLAIN, 0, 1, 1)? == alone((7, 7), Locks::empty()));
    Ok(())
}

#[test]
fn an_arbitrary_int_is_any_int(rt: HostRuntime) -> Result<(), Fail> {
    assert!(rt; after(rt.alloc(), PLAIN, 0, 2, 3)? == alone(INT, Locks::empty()));
    Ok(())
}

#[test]
fn an_assertion_is_true_behind_it(rt: HostRuntime) -> Result<(), Fail> {
    let left = (3, 2147483647);
    assert!(rt; after(rt.alloc(), PLAIN, 0, 4, 2)? == alone(left, Locks::empty()));
    Ok(())
}

#[test]
fn a_quotient_by_0_leads_nowhere(rt: HostRuntime) -> Result<(), Fail> {
    assert!(rt; after(rt.alloc(), PLAIN, 0, 5, 1)? == Some((None, 0, 0)));
    Ok(())
}

#[test]
fn from_bottom_is_bottom(rt: HostRuntime) -> Result<(), Fail> {
    assert!(rt; after(rt.alloc(), PLAIN, 0, 6, 0)? == Some((None, 0, 0)));
    Ok(())
}

/// Slot 1 is y, 2 the arbitrary number. Edges: 0 to the body; 1 the arbitrary number; 2 `y = $0`; 3
/// and 4 the guards; 5 `y = 1`; 6 the return.
const BRANCH: &[u8] = b"int main(void) {
  int y = __VERIFIER_nondet_int();
  if (y > 2) y = 1;
  return y;
}
";

#[test]
fn a_guard_that_is_to_be_true(rt: HostRuntime) -> Result<(), Fail> {
    let left = (3, 2147483647);
    assert!(rt; after(rt.alloc(), BRANCH, 0, 3, 1)? == alone(left, Locks::empty()));
    Ok(())
}

#[test]
fn a_guard_that_is_to_be_false(rt: HostRuntime) -> Result<(), Fail> {
    let left = (-2147483648, 2);
    assert!(rt; after(rt.alloc(), BRANCH, 0, 4, 1)? == alone(left, Locks::empty()));
    Ok(())
}

/// Slot 1 is x, whose declaration gives it an arbitrary long.
const LONG: &[u8] = b"int main(void) { long x; return 0; }";

#[test]
fn an_arbitrary_long_is_any_long(rt: HostRuntime) -> Result<(), Fail> {
    let left = (i64::MIN, i64::MAX);
    assert!(rt; after(rt.alloc(), LONG, 0, 1, 1)? == alone(left, Locks::empty()));
    Ok(())
}

/// A long that is too large for the global. Slot 1 is x, 2 is y, 3 the value read. Edges: 0 to the
/// body; 1 `x = 4294967296`; 2 `g = x`; 3 the read of g; 4 `y = $0`; 5 `g = 1 / 0`.
const GLOBAL: &[u8] = b"int g = 3;
int main(void) {
  long x = 4294967296L;
  g = x;
  int y = g;
  g = 1 / 0;
  return y;
}
";

#[test]
fn a_writer_keeps_its_state(rt: HostRuntime) -> Result<(), Fail> {
    let x = (4294967296, 4294967296);
    assert!(rt; after(rt.alloc(), GLOBAL, 0, 2, 1)? == Some((Some((x, Locks::empty())), 1, 0)));
    Ok(())
}

#[test]
fn a_write_is_converted(rt: HostRuntime) -> Result<(), Fail> {
    let wanted = Some((Unknown::Global(0), Some((INT, Locks::empty()))));
    assert!(rt; effect(rt.alloc(), GLOBAL, 0, 2, 0)? == wanted);
    Ok(())
}

#[test]
fn a_read_gives_the_global(rt: HostRuntime) -> Result<(), Fail> {
    assert!(rt; after(rt.alloc(), GLOBAL, 0, 3, 3)? == Some((Some((INT, Locks::empty())), 0, 1)));
    Ok(())
}

#[test]
fn a_read_is_noted(rt: HostRuntime) -> Result<(), Fail> {
    assert!(rt; read(rt.alloc(), GLOBAL, 0, 3)? == Some(Unknown::Global(0)));
    Ok(())
}

#[test]
fn no_value_is_not_written(rt: HostRuntime) -> Result<(), Fail> {
    assert!(rt; after(rt.alloc(), GLOBAL, 0, 5, 0)? == Some((None, 0, 0)));
    Ok(())
}
