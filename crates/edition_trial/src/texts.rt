//! The texts of the tests, and their vertices, steps and frames.

use arg_graph::{Frame, Label, Step, Vertex};
use constraint_sys::{ArgKey, Key};
use lockset_dom::Locks;

/// A thread writes a global under a mutex, `main` starts it and reads the global.
pub(crate) const WORKER: &[u8] = b"int g = 0;
pthread_mutex_t m = PTHREAD_MUTEX_INITIALIZER;
void *work(void *a) {
  pthread_mutex_lock(&m);
  g = 5;
  pthread_mutex_unlock(&m);
  return NULL;
}
int main(void) {
  pthread_t t;
  pthread_create(&t, NULL, work, NULL);
  int x = g;
  return x;
}
";

/// One function in two contexts.
pub(crate) const TWICE: &[u8] = b"int f(int n) {
  return n;
}
int main(void) {
  int a = f(0);
  int b = f(__VERIFIER_nondet_int());
  return a;
}
";

/// A node of a function that is called with a first argument of this kind, without a mutex.
pub(crate) fn called(func: u16, a: ArgKey, node: u16) -> Vertex {
    let key = Key {
        a,
        b: ArgKey::Absent,
        locks: Locks::empty(),
    };
    Vertex { func, key, node }
}

/// A node of `main`, a thread or a function without parameters, without a mutex.
pub(crate) fn point(func: u16, node: u16) -> Vertex {
    called(func, ArgKey::Absent, node)
}

/// A step to a point.
pub(crate) fn step(label: Label, func: u16, node: u16) -> Step {
    let to = point(func, node);
    Step { label, to }
}

/// A frame that waits at a call.
pub(crate) fn waiting(vertex: Vertex, edge: u32) -> Frame {
    let call = Some(edge);
    Frame { vertex, call }
}

/// The last frame.
pub(crate) fn top(vertex: Vertex) -> Frame {
    Frame { vertex, call: None }
}
