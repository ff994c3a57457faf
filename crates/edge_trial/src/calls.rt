use constraint_sys::{ArgKey, Unknown};
use edge_texts::{after, effect, key, read};
use lockset_dom::Locks;
use std::test::Fail;

/// Function 0 is f, 1 is main; slot 1 of f is n, slot 2 of `main` the call's value. Edges of `main`: 0
/// to the body; 1 the lock; 2 the call; 3 `x = $0`; 4 the return. f leaves the mutex.
const CALL: &[u8] = b"pthread_mutex_t m = PTHREAD_MUTEX_INITIALIZER;
int f(int n) {
  pthread_mutex_unlock(&m);
  return n + 6;
}
int main(void) {
  pthread_mutex_lock(&m);
  int x = f(1);
  return x;
}
";

fn mutex() -> Locks {
    Locks::empty().insert(0)
}

/// A node of f where its argument is 1 and the mutex was held at its entry.
fn in_f(node: u16) -> Unknown {
    Unknown::Point {
        func: 0,
        key: key(ArgKey::One, mutex()),
        node,
    }
}

// 1 + 6, and the mutex that the callee left
#[test]
fn a_call_has_the_value_and_the_mutexes_of_the_exit(rt: HostRuntime) -> Result<(), Fail> {
    let wanted = Some((Some(((7, 7), Locks::empty())), 1, 1));
    assert!(rt; after(rt.alloc(), CALL, 1, 2, 2)? == wanted);
    Ok(())
}

#[test]
fn a_call_reads_the_exit(rt: HostRuntime) -> Result<(), Fail> {
    assert!(rt; read(rt.alloc(), CALL, 1, 2)? == Some(in_f(1)));
    Ok(())
}

#[test]
fn a_callee_starts_with_its_arguments_and_the_mutexes(rt: HostRuntime) -> Result<(), Fail> {
    let wanted = Some((in_f(0), Some(((1, 1), mutex()))));
    assert!(rt; effect(rt.alloc(), CALL, 1, 2, 1)? == wanted);
    Ok(())
}

/// Function 0 is f, 1 is main. Edges of `main`: 0 to the body; 1 the call; 2 the return.
const NO_ARGUMENT: &[u8] = b"void f(int n) { }
int main(void) {
  f(1 / 0);
  return 0;
}
";

#[test]
fn a_call_without_an_argument_is_not_made(rt: HostRuntime) -> Result<(), Fail> {
    assert!(rt; after(rt.alloc(), NO_ARGUMENT, 1, 1, 0)? == Some((None, 0, 0)));
    Ok(())
}
