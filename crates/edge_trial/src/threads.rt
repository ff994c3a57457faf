use constraint_sys::{ArgKey, Unknown};
use edge_texts::{after, alone, effect, key};
use lockset_dom::Locks;
use std::test::Fail;

/// The only mutex.
fn mutex() -> Locks {
    Locks::empty().insert(0)
}

/// Edges: 0 to the body; 1 the lock; 2 the unlock; 3 the lock; 4 the lock again; 5 the return.
const LOCKS: &[u8] = b"pthread_mutex_t m = PTHREAD_MUTEX_INITIALIZER;
int main(void) {
  pthread_mutex_lock(&m);
  pthread_mutex_unlock(&m);
  pthread_mutex_lock(&m);
  pthread_mutex_lock(&m);
  return 0;
}
";

#[test]
fn a_locked_mutex_is_held(rt: HostRuntime) -> Result<(), Fail> {
    assert!(rt; after(rt.alloc(), LOCKS, 0, 1, 0)? == alone((0, 0), mutex()));
    Ok(())
}

#[test]
fn an_unlocked_mutex_is_held_no_more(rt: HostRuntime) -> Result<(), Fail> {
    assert!(rt; after(rt.alloc(), LOCKS, 0, 2, 0)? == alone((0, 0), Locks::empty()));
    Ok(())
}

#[test]
fn a_held_mutex_is_never_got_again(rt: HostRuntime) -> Result<(), Fail> {
    assert!(rt; after(rt.alloc(), LOCKS, 0, 4, 0)? == Some((None, 0, 0)));
    Ok(())
}

/// Function 0 is w, 1 is main. Edges of `main`: 0 to the body; 1 the declaration; 2 the lock; 3 the
/// create; 4 the join; 5 the return.
const THREAD: &[u8] = b"pthread_mutex_t m = PTHREAD_MUTEX_INITIALIZER;
void *w(void *a) { return NULL; }
int main(void) {
  pthread_t t;
  pthread_mutex_lock(&m);
  pthread_create(&t, NULL, w, NULL);
  pthread_join(t, NULL);
  return 0;
}
";

#[test]
fn a_maker_keeps_its_mutexes(rt: HostRuntime) -> Result<(), Fail> {
    assert!(rt; after(rt.alloc(), THREAD, 1, 3, 0)? == Some((Some(((0, 0), mutex())), 1, 0)));
    Ok(())
}

#[test]
fn a_thread_starts_without_mutexes(rt: HostRuntime) -> Result<(), Fail> {
    let start = Unknown::Point {
        func: 0,
        key: key(ArgKey::Absent, Locks::empty()),
        node: 0,
    };
    let wanted = Some((start, Some(((0, 0), Locks::empty()))));
    assert!(rt; effect(rt.alloc(), THREAD, 1, 3, 0)? == wanted);
    Ok(())
}

#[test]
fn a_join_changes_nothing(rt: HostRuntime) -> Result<(), Fail> {
    assert!(rt; after(rt.alloc(), THREAD, 1, 4, 0)? == alone((0, 0), mutex()));
    Ok(())
}
