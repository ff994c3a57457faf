//! Edits of functions: one of two that are called, one that goes with the call of it, and places alone
//! where a context is left over.
use crate::{carries, leaves_dirty, solves_to};
use std::test::Fail;

static TWO_WRITES_TWO: &[u8] = b"int g = 0;
int h = 0;
int one(int n) { g = 1; return n; }
int two(int n) { h = 2; return n; }
int main(void) {
  int r = 0;
  r = one(0);
  r = two(0);
  return r;
}
";

static TWO_WRITES_THREE: &[u8] = b"int g = 0;
int h = 0;
int one(int n) { g = 1; return n; }
int two(int n) { h = 3; return n; }
int main(void) {
  int r = 0;
  r = one(0);
  r = two(0);
  return r;
}
";

#[test]
fn an_edit_of_one_function_keeps_the_other(rt: HostRuntime) -> Result<(), Fail> {
    let wanted = b"one(0){} 0 3:5 n=[0,0] {}
one(0){} 1 3:35 n=[0,0] return=[0,0] {}
one(0){} 2 3:18 n=[0,0] {}
one(0){} 3 3:25 n=[0,0] {}
main(){} 0 5:5 r=[0,0] {}
main(){} 1 10:1 unreached
main(){} 2 6:3 r=[0,0] {}
main(){} 3 7:3 r=[0,0] {}
main(){} 4 8:3 r=[0,0] {}
main(){} 5 7:3 r=[0,0] {}
main(){} 6 9:3 unreached
main(){} 7 8:3 unreached
global g=[0,1]
global h=[0,0]
";
    assert!(rt; carries(rt.alloc(), TWO_WRITES_TWO, TWO_WRITES_THREE, wanted));
    Ok(())
}

// The call of `two` stands on the edge that ends at node 7, so it is that node which starts `two`.
#[test]
fn what_stands_behind_the_call_is_dirty(rt: HostRuntime) -> Result<(), Fail> {
    assert!(rt; leaves_dirty(rt.alloc(), TWO_WRITES_TWO, TWO_WRITES_THREE, &[5, 10, 11]));
    Ok(())
}

#[test]
fn solving_goes_on_behind_the_call(rt: HostRuntime) -> Result<(), Fail> {
    let wanted = b"one(0){} 0 3:5 n=[0,0] {}
one(0){} 1 3:35 n=[0,0] return=[0,0] {}
one(0){} 2 3:18 n=[0,0] {}
one(0){} 3 3:25 n=[0,0] {}
two(0){} 0 4:5 n=[0,0] {}
two(0){} 1 4:35 n=[0,0] return=[0,0] {}
two(0){} 2 4:18 n=[0,0] {}
two(0){} 3 4:25 n=[0,0] {}
main(){} 0 5:5 r=[0,0] {}
main(){} 1 10:1 r=[0,0] return=[0,0] {}
main(){} 2 6:3 r=[0,0] {}
main(){} 3 7:3 r=[0,0] {}
main(){} 4 8:3 r=[0,0] {}
main(){} 5 7:3 r=[0,0] {}
main(){} 6 9:3 r=[0,0] {}
main(){} 7 8:3 r=[0,0] {}
global g=[0,1]
global h=[0,3]
";
    assert!(rt; solves_to(rt.alloc(), TWO_WRITES_TWO, TWO_WRITES_THREE, wanted));
    Ok(())
}

static BY_WAY_OF_TWO: &[u8] = b"int g = 0;
int h = 0;
int two(int n) { h = 2; return n; }
int one(int n) { g = 1; return n; }
int mid(int n) { return two(n); }
int main(void) {
  int r = 0;
  r = one(0);
  r = mid(1);
  return r;
}
";

static WITHOUT_TWO: &[u8] = b"int g = 0;
int h = 0;
int one(int n) { g = 1; return n; }
int mid(int n) { return n; }
int main(void) {
  int r = 0;
  r = one(0);
  r = mid(1);
  return r;
}
";

#[test]
fn what_a_removed_function_wrote_begins_anew(rt: HostRuntime) -> Result<(), Fail> {
    let wanted = b"one(0){} 0 3:5 n=[0,0] {}
one(0){} 1 3:35 n=[0,0] return=[0,0] {}
one(0){} 2 3:18 n=[0,0] {}
one(0){} 3 3:25 n=[0,0] {}
main(){} 0 5:5 r=[0,0] {}
main(){} 1 10:1 unreached
main(){} 2 6:3 r=[0,0] {}
main(){} 3 7:3 r=[0,0] {}
main(){} 4 8:3 r=[0,0] {}
main(){} 5 7:3 r=[0,0] {}
main(){} 6 9:3 unreached
main(){} 7 8:3 unreached
global g=[0,1]
global h=[0,0]
";
    assert!(rt; carries(rt.alloc(), BY_WAY_OF_TWO, WITHOUT_TWO, wanted));
    assert!(rt; leaves_dirty(rt.alloc(), BY_WAY_OF_TWO, WITHOUT_TWO, &[5, 10, 11]));
    Ok(())
}

#[test]
fn nothing_comes_back_of_a_removed_function(rt: HostRuntime) -> Result<(), Fail> {
    let wanted = b"one(0){} 0 3:5 n=[0,0] {}
one(0){} 1 3:35 n=[0,0] return=[0,0] {}
one(0){} 2 3:18 n=[0,0] {}
one(0){} 3 3:25 n=[0,0] {}
mid(1){} 0 4:5 n=[1,1] {}
mid(1){} 1 4:28 n=[1,1] return=[1,1] {}
mid(1){} 2 4:18 n=[1,1] {}
main(){} 0 5:5 r=[0,0] {}
main(){} 1 10:1 r=[1,1] return=[1,1] {}
main(){} 2 6:3 r=[0,0] {}
main(){} 3 7:3 r=[0,0] {}
main(){} 4 8:3 r=[0,0] {}
main(){} 5 7:3 r=[0,0] {}
main(){} 6 9:3 r=[1,1] {}
main(){} 7 8:3 r=[0,0] {}
global g=[0,1]
global h=[0,0]
";
    assert!(rt; solves_to(rt.alloc(), BY_WAY_OF_TWO, WITHOUT_TWO, wanted));
    Ok(())
}

static IN_A_LOOP: &[u8] = b"int f(int n) { return n; }
int main(void) {
  int i = 0;
  int r = 0;
  while (i < 3) {
    r = f(i);
    i = i + 1;
  }
  return r;
}
";

static ONE_LINE_LOWER: &[u8] = b"
int f(int n) { return n; }
int main(void) {
  int i = 0;
  int r = 0;
  while (i < 3) {
    r = f(i);
    i = i + 1;
  }
  return r;
}
";

// The first round calls `f(0)`; once `i` is `[0,1]` the call has the context `f(Any)`, and then nothing
// contributes to the start of `f(0)` any more.
#[test]
fn a_start_that_nothing_reaches_goes(rt: HostRuntime) -> Result<(), Fail> {
    let wanted = b"f(Any){} 0 2:5 n=[0,2] {}
f(Any){} 1 2:26 n=[0,2] return=[0,2] {}
f(Any){} 2 2:16 n=[0,2] {}
main(){} 0 3:5 i=[0,0] r=[0,0] {}
main(){} 1 11:1 i=[3,3] r=[0,2] return=[0,2] {}
main(){} 2 4:3 i=[0,0] r=[0,0] {}
main(){} 3 5:3 i=[0,0] r=[0,0] {}
main(){} 4 6:3 i=[0,3] r=[0,2] {}
main(){} 5 10:3 i=[3,3] r=[0,2] {}
main(){} 6 7:5 i=[0,2] r=[0,2] {}
main(){} 7 8:5 i=[0,2] r=[0,2] {}
main(){} 8 7:5 i=[0,2] r=[0,2] {}
";
    assert!(rt; carries(rt.alloc(), IN_A_LOOP, ONE_LINE_LOWER, wanted));
    assert!(rt; leaves_dirty(rt.alloc(), IN_A_LOOP, ONE_LINE_LOWER, &[]));
    Ok(())
}
