//! Texts that are refused for what a name, a call or a jump is, and texts that are accepted.

use crate::texts::{accepts, refuses};
use c_check::FrontKind;

/// `break` and `continue` outside of loops.
#[test]
fn jumps(rt: HostRuntime) {
    let alloc = rt.alloc();
    assert!(rt;
        refuses(
            alloc,
            b"int main(void) { break; }",
            FrontKind::WrongKind,
            1,
            18
        )
    );
    assert!(rt;
        refuses(
            alloc,
            b"int main(void) { if (1) continue; }",
            FrontKind::WrongKind,
            1,
            25
        )
    );
}

/// A `return` that doesn't fit its function.
#[test]
fn returns(rt: HostRuntime) {
    let alloc = rt.alloc();
    assert!(rt;
        refuses(
            alloc,
            b"int main(void) { return; }",
            FrontKind::WrongKind,
            1,
            18
        )
    );
    assert!(rt;
        refuses(
            alloc,
            b"void f(void) { return 1; } int main(void) { }",
            FrontKind::WrongKind,
            1,
            16
        )
    );
    assert!(rt;
        refuses(
            alloc,
            b"void *w(void *a) { return 1; } int main(void) { }",
            FrontKind::WrongKind,
            1,
            20
        )
    );
}

/// The parameter of a thread function, a thread variable as a number, a number as a mutex.
#[test]
fn uses(rt: HostRuntime) {
    let alloc = rt.alloc();
    assert!(rt;
        refuses(
            alloc,
            b"void *w(void *a) { int x = a; } int main(void) { }",
            FrontKind::WrongKind,
            1,
            28
        )
    );
    assert!(rt;
        refuses(
            alloc,
            b"int main(void) { pthread_t t; return t; }",
            FrontKind::WrongKind,
            1,
            38
        )
    );
    assert!(rt;
        refuses(
            alloc,
            b"int main(void) { int m; pthread_mutex_lock(&m); }",
            FrontKind::WrongKind,
            1,
            45
        )
    );
}

/// A void function for a value, one that no thread may start in, an arbitrary number called alone.
#[test]
fn calls(rt: HostRuntime) {
    let alloc = rt.alloc();
    assert!(rt;
        refuses(
            alloc,
            b"void f(void) { } int main(void) { return f(); }",
            FrontKind::WrongKind,
            1,
            42
        )
    );
    assert!(rt;
        refuses(
            alloc,
            b"void f(void) { } int main(void) { pthread_t t; pthread_create(&t, NULL, f, NULL); }",
            FrontKind::WrongKind,
            1,
            73
        )
    );
    assert!(rt;
        refuses(
            alloc,
            b"int main(void) { __VERIFIER_nondet_int(); }",
            FrontKind::WrongKind,
            1,
            18
        )
    );
}

/// A call of `main`, and a `main` that is no int function without parameters.
#[test]
fn mains(rt: HostRuntime) {
    let alloc = rt.alloc();
    assert!(rt;
        refuses(
            alloc,
            b"int main(void) { return main(1); }",
            FrontKind::WrongKind,
            1,
            25
        )
    );
    assert!(rt;
        refuses(
            alloc,
            b"long main(void) { return 0; }",
            FrontKind::WrongKind,
            1,
            6
        )
    );
    assert!(rt;
        refuses(
            alloc,
            b"int main; int main(void) { }",
            FrontKind::WrongKind,
            1,
            5
        )
    );
}

/// A prototype that differs from the definition in the type of the result.
#[test]
fn prototypes(rt: HostRuntime) {
    let alloc = rt.alloc();
    assert!(rt;
        refuses(
            alloc,
            b"long f(int n) { return n; } int f(int n); int main(void) { }",
            FrontKind::WrongKind,
            1,
            33
        )
    );
}

/// Calls with another number of arguments.
#[test]
fn arguments(rt: HostRuntime) {
    let alloc = rt.alloc();
    assert!(rt;
        refuses(
            alloc,
            b"int f(int n) { return n; } int main(void) { return f(1, 2); }",
            FrontKind::WrongArity,
            1,
            52
        )
    );
    assert!(rt;
        refuses(
            alloc,
            b"int main(void) { return __VERIFIER_nondet_long(1); }",
            FrontKind::WrongArity,
            1,
            25
        )
    );
}

/// A text without `main`.
#[test]
fn no_main(rt: HostRuntime) {
    let alloc = rt.alloc();
    assert!(rt; refuses(alloc, b"", FrontKind::NoMain, 1, 1));
    assert!(rt; refuses(alloc, b"int f(void) { return 0; }", FrontKind::NoMain, 1, 1));
}

/// Scopes and uses that are right.
#[test]
fn scopes(rt: HostRuntime) {
    let alloc = rt.alloc();
    assert!(rt; accepts(alloc, b"int main(void) { int x = x; return x; }"));
    assert!(rt;
        accepts(
            alloc,
            b"int f(void) { return h(); } int h(void) { return 1; } int main(void) { }"
        )
    );
    assert!(rt;
        accepts(
            alloc,
            b"int f(int n) { { int n; } return 0; } int main(void) { }"
        )
    );
}

/// Returns and prototypes that are right.
#[test]
fn heads(rt: HostRuntime) {
    let alloc = rt.alloc();
    assert!(rt;
        accepts(
            alloc,
            b"void *w(void *a) { return; } void *v(void *) { return NULL; } int main(void) { }"
        )
    );
    assert!(rt;
        accepts(
            alloc,
            b"void __VERIFIER_nondet_int(void); int main(void) { }"
        )
    );
    assert!(rt;
        accepts(
            alloc,
            b"int f(int); int f(int n) { } int f(int m); int main(void) { int f = f; return f; }"
        )
    );
}

/// Literals and loops that are right.
#[test]
fn literals_and_loops(rt: HostRuntime) {
    let alloc = rt.alloc();
    assert!(rt;
        accepts(
            alloc,
            b"int g = -2147483648; long h = 2147483648; int main(void) { }"
        )
    );
    assert!(rt; accepts(alloc, b"int main(void) { while (1) { if (1) break; } }"));
}
