//! Runs by their lines, worked by hand.
use crate::ran::run_by;
use std::test::Fail;

/// The least number follows the greatest: a sum of two ints wraps.
#[test]
fn inputs_come_from_the_schedule(rt: HostRuntime) -> Result<(), Fail> {
    let text = b"int main(void) {
  int x = __VERIFIER_nondet_int();
  int y = x + 1;
  return y;
}
";
    let ended = run_by(rt.alloc(), text, b"1 2147483647\n1 0\n1 0\n")?;
    assert_eq!(rt; ended.status, 0);
    assert_eq!(rt;
        ended.written.as_slice(),
        b"1 1 moved
2 1 moved
3 1 moved
thread 1 main 4:3 x=2147483647 y=-2147483648
"
            .as_slice()
    );
    Ok(())
}

/// The division is in front still, and `int z;` took the choice's number.
#[test]
fn a_division_by_zero_is_no_step(rt: HostRuntime) -> Result<(), Fail> {
    let text = b"int main(void) {
  int z;
  int q = 10 / z;
  return q;
}
";
    let ended = run_by(rt.alloc(), text, b"1 0\n1 0\n")?;
    assert_eq!(rt; ended.status, 0);
    assert_eq!(rt;
        ended.written.as_slice(),
        b"1 1 moved\n2 1 faulted\nthread 1 main 3:3 z=0 q=0\n".as_slice()
    );
    Ok(())
}

/// The second thread writes `g` between the two reads of it.
#[test]
fn each_read_is_a_step(rt: HostRuntime) -> Result<(), Fail> {
    let text = b"int g = 0;
void *w(void *a) { g = 1; return NULL; }
int main(void) {
  pthread_t t;
  pthread_create(&t, NULL, w, NULL);
  int x = g + g;
  return x;
}
";
    let ended = run_by(rt.alloc(), text, b"1 0\n1 0\n1 0\n2 0\n1 0\n1 0\n")?;
    assert_eq!(rt; ended.status, 0);
    assert_eq!(rt;
        ended.written.as_slice(),
        b"1 1 moved
2 1 moved
3 1 moved
4 2 moved
5 1 moved
6 1 moved
global g=1
thread 1 main 7:3 x=1
thread 2 w 2:27
"
            .as_slice()
    );
    Ok(())
}

const TWO_LOCKS: &[u8] = b"pthread_mutex_t m = PTHREAD_MUTEX_INITIALIZER;
int main(void) {
  pthread_mutex_lock(&m);
  pthread_mutex_lock(&m);
  return 0;
}
";

#[test]
fn an_owned_mutex_blocks_its_owner(rt: HostRuntime) -> Result<(), Fail> {
    let ended = run_by(rt.alloc(), TWO_LOCKS, b"1 0\n1 0\n")?;
    assert_eq!(rt; ended.status, 0);
    assert_eq!(rt;
        ended.written.as_slice(),
        b"1 1 moved\n2 1 blocked\nthread 1 main 4:3\n".as_slice()
    );
    Ok(())
}

/// The choice of a thread that isn't there leaves the first configuration.
#[test]
fn a_thread_that_is_not_there_is_none(rt: HostRuntime) -> Result<(), Fail> {
    let ended = run_by(rt.alloc(), TWO_LOCKS, b"2 0\n")?;
    assert_eq!(rt; ended.status, 0);
    assert_eq!(rt;
        ended.written.as_slice(),
        b"1 2 none\nthread 1 main 3:3\n".as_slice()
    );
    Ok(())
}

/// A sum is of the wider width, and what is stored is converted.
#[test]
fn longs_are_wider_than_ints(rt: HostRuntime) -> Result<(), Fail> {
    let text = b"long t = 2147483647;
int main(void) {
  long a = t + 1;
  int b = a;
  return b;
}
";
    let ended = run_by(rt.alloc(), text, b"1 0\n1 0\n1 0\n")?;
    assert_eq!(rt; ended.status, 0);
    assert_eq!(rt;
        ended.written.as_slice(),
        b"1 1 moved
2 1 moved
3 1 moved
global t=2147483647
thread 1 main 5:3 a=2147483648 b=-2147483648
"
            .as_slice()
    );
    Ok(())
}

/// Whoever chooses a thread after the program's end is told so, but for one that was never there.
#[test]
fn the_end_of_main_ends_all(rt: HostRuntime) -> Result<(), Fail> {
    let text = b"int main(void) { return 0; }";
    let ended = run_by(rt.alloc(), text, b"1 0\n1 0\n2 0")?;
    assert_eq!(rt; ended.status, 0);
    assert_eq!(rt;
        ended.written.as_slice(),
        b"1 1 moved\n2 1 ended\n3 2 none\nthread 1 ended\n".as_slice()
    );
    Ok(())
}
