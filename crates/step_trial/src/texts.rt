//! The texts that are stepped through, and what is asked and shown of them.
use arg_graph::Vertex;
use constraint_sys::{ArgKey, Key};
use edition_texts::{Shown, Start, Walk, Way};
use lockset_dom::Locks;

/// One statement. Nodes of `main`: 0 and 1; 2 the return.
pub(crate) const LONE: &[u8] = b"int main(void) { return 0; }";

/// A branch on a local. Nodes of `main`: 0 and 1; 2 the declaration, 3 the branch, 4 the return, 5 the
/// assignment. Edges: 0 to the body, 1 the arbitrary x, 2 and 3 the guards.
pub(crate) const BRANCH: &[u8] = b"int main(void) { int x; if (x) x = 1; return 0; }";

/// A branch on an arbitrary number. Nodes of `main`: 0 and 1; 2 the branch, 3 the return, 4 where the
/// number is known, 5 the empty statement. Edges: 0 to the body, 1 the number, 2 and 3 the guards.
pub(crate) const ARBITRARY: &[u8] = b"int main(void) { if (__VERIFIER_nondet_int()) ; return 0; }";

/// A statement that reads a global twice, which a thread writes. Function 0 is w, 1 is main; slot 1 of
/// `main` is x. Nodes of `main`: 0 and 1; 2 the declaration of t, 3 the create, 4 the statement, 5 the
/// return, 6 behind the first read, 7 behind the second.
pub(crate) const READER: &[u8] = b"int g = 0;
void *w(void *a) { g = 1; return NULL; }
int main(void) {
  pthread_t t;
  pthread_create(&t, NULL, w, NULL);
  int x = g + g;
  return x;
}
";

/// One function in two contexts. Function 0 is f, 1 is main. Nodes of f: 0 and 1; 2 the return, by
/// edge 1. Nodes of `main`: 0 and 1; 2 and 3 the statements with calls, 4 behind the first call, 5 the
/// return, 6 before the second call, 7 behind it. Edges of `main`: 1 and 4 the calls, 2 and 5 their
/// assignments, 3 the arbitrary number.
pub(crate) const TWICE: &[u8] = b"int f(int n) {
  return n;
}
int main(void) {
  int a = f(0);
  int b = f(__VERIFIER_nondet_int());
  return a;
}
";

/// A loop that never ends, and whose body is a statement of its own. Nodes of `main`: 0 and 1; 2 the
/// loop, 3 the return, 4 the body.
pub(crate) const LOOP: &[u8] = b"int main(void) { while (1) ; return 0; }";

/// A statement without a call before one with a call. Function 0 is f, 1 is main. Nodes of `main`: 0
/// and 1; 2 the declaration, 3 the call, 4 the return.
pub(crate) const LATER: &[u8] = b"void f(void) { }
int main(void) {
  int x = 1;
  f();
  return x;
}
";

/// A node of a function that is called with a first argument of this kind, without a mutex.
pub(crate) fn called(func: u16, a: ArgKey, node: u16) -> Vertex {
    let key = Key {
        a,
        b: ArgKey::Absent,
        locks: Locks::empty(),
    };
    Vertex { func, key, node }
}

/// A node of `main`, a thread or a function without parameters, without a mutex.
pub(crate) fn point(func: u16, node: u16) -> Vertex {
    called(func, ArgKey::Absent, node)
}

/// What thread 1 shows where it has one frame.
pub(crate) fn alone(top: Vertex, place: (u32, u32)) -> Shown {
    deep(1, top, place, 1)
}

/// What a thread shows that has so many frames.
pub(crate) fn deep(id: u32, top: Vertex, place: (u32, u32), frames: usize) -> Shown {
    Shown {
        id,
        top,
        place,
        frames,
    }
}

/// Steps of thread 1 from the entry on.
pub(crate) fn first(ways: &[Way]) -> Walk<'_> {
    of_thread(1, ways)
}

/// Steps of a thread from the entry on.
pub(crate) fn of_thread(thread: u32, ways: &[Way]) -> Walk<'_> {
    Walk {
        start: Start::Entry,
        thread,
        ways,
    }
}

/// Steps of a thread from where thread 1 stands at line 2 of f called with 0, and thread 2 there in
/// the other context.
pub(crate) fn from_both(thread: u32, ways: &[Way]) -> Walk<'_> {
    let zero = called(0, ArgKey::Zero, 2);
    let any = called(0, ArgKey::Any, 2);
    Walk {
        start: Start::Pair(zero, any),
        thread,
        ways,
    }
}
