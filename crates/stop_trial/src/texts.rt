//! The texts of the tests, and their vertices.
use arg_graph::Vertex;
use constraint_sys::{ArgKey, Key};
use edition_texts::Asked;
use lockset_dom::Locks;

/// One function in two contexts. Function 0 is f, 1 is main; node 2 of f is its return.
pub(crate) const TWICE: &[u8] = b"int f(int n) {
  return n;
}
int main(void) {
  int a = f(0);
  int b = f(__VERIFIER_nondet_int());
  return a;
}
";

/// One function with three arguments, each under three sets of mutexes. Function 0 is f; node 2 of it
/// is its return. Mutex 0 is a, mutex 1 is b.
pub(crate) const NINE: &[u8] = b"pthread_mutex_t a = PTHREAD_MUTEX_INITIALIZER;
pthread_mutex_t b = PTHREAD_MUTEX_INITIALIZER;
int f(int n) {
  return n;
}
void three(void) { f(0); f(1); f(__VERIFIER_nondet_int()); }
int main(void) {
  three();
  pthread_mutex_lock(&a);
  three();
  pthread_mutex_lock(&b);
  three();
  return 0;
}
";

/// A local hides a global of its name. Node 3 of `main` is the return.
pub(crate) const HIDDEN: &[u8] = b"int x = 7;
int main(void) {
  int x = 3;
  return x;
}
";

/// A node of a function that is called with a first argument of this kind, under these mutexes.
pub(crate) fn under(a: ArgKey, locks: Locks, func: u16, node: u16) -> Vertex {
    let key = Key {
        a,
        b: ArgKey::Absent,
        locks,
    };
    Vertex { func, key, node }
}

/// The return of f where its argument is of this kind, without a mutex.
pub(crate) fn in_f(a: ArgKey) -> Vertex {
    under(a, Locks::empty(), 0, 2)
}

/// A node of `main`, without a mutex.
pub(crate) fn in_main(func: u16, node: u16) -> Vertex {
    under(ArgKey::Absent, Locks::empty(), func, node)
}

/// The return of f where its argument is of this kind, under no mutex, under a, and under both.
pub(crate) fn three(a: ArgKey) -> [Vertex; 3] {
    let none = Locks::empty();
    let one = none.insert(0);
    let both = one.insert(1);
    [
        under(a, none, 0, 2),
        under(a, one, 0, 2),
        under(a, both, 0, 2),
    ]
}

/// A breakpoint without a condition.
pub(crate) fn bare(line: u32) -> Asked<'static> {
    Asked { line, cond: None }
}

/// A breakpoint with a condition.
pub(crate) fn where_holds(line: u32, cond: &[u8]) -> Asked<'_> {
    Asked {
        line,
        cond: Some(cond),
    }
}
