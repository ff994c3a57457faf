//! Texts at the limits: the last that is within each, and one beyond it with its fault.

use crate::texts::{accepts_made, numbered, refuses_made, repeated};
use c_check::FrontKind;

/// 65,536 bytes.
#[test]
fn bytes(rt: HostRuntime) {
    let alloc = rt.alloc();
    let head = b"int main(void) { }".as_slice();
    assert!(rt; accepts_made(alloc, repeated(alloc, head, b" ", b"", 65518)));
    assert!(rt;
        refuses_made(
            alloc,
            repeated(alloc, head, b" ", b"", 65519),
            FrontKind::TooLong,
            1,
            1
        )
    );
}

/// 64 operators in one expression.
#[test]
fn operators(rt: HostRuntime) {
    let alloc = rt.alloc();
    let head = b"int main(void) { return ".as_slice();
    assert!(rt; accepts_made(alloc, repeated(alloc, head, b"!", b"1; }", 64)));
    assert!(rt;
        refuses_made(
            alloc,
            repeated(alloc, head, b"!", b"1; }", 65),
            FrontKind::TooDeep,
            1,
            89
        )
    );
}

/// 8 parameters of a function.
#[test]
fn parameters(rt: HostRuntime) {
    let alloc = rt.alloc();
    let head = b"int f(int a".as_slice();
    let piece = (b", int p".as_slice(), b"".as_slice());
    let tail = b") { return 0; } int main(void) { }".as_slice();
    assert!(rt; accepts_made(alloc, numbered(alloc, head, piece, tail, 7)));
    assert!(rt;
        refuses_made(
            alloc,
            numbered(alloc, head, piece, tail, 8),
            FrontKind::Limit,
            1,
            74
        )
    );
}

/// 128 functions with `main`, which is the last: one more and `main` is beyond.
#[test]
fn functions(rt: HostRuntime) {
    let alloc = rt.alloc();
    let piece = (b"void f".as_slice(), b"(void) { }\n".as_slice());
    let tail = b"int main(void) { }".as_slice();
    assert!(rt; accepts_made(alloc, numbered(alloc, b"", piece, tail, 127)));
    assert!(rt;
        refuses_made(
            alloc,
            numbered(alloc, b"", piece, tail, 128),
            FrontKind::Limit,
            129,
            5
        )
    );
}

/// 64 globals.
#[test]
fn globals(rt: HostRuntime) {
    let alloc = rt.alloc();
    let piece = (b"int g".as_slice(), b";\n".as_slice());
    let tail = b"int main(void) { }".as_slice();
    assert!(rt; accepts_made(alloc, numbered(alloc, b"", piece, tail, 64)));
    assert!(rt;
        refuses_made(
            alloc,
            numbered(alloc, b"", piece, tail, 65),
            FrontKind::Limit,
            65,
            5
        )
    );
}

/// 8 mutexes.
#[test]
fn mutexes(rt: HostRuntime) {
    let alloc = rt.alloc();
    let piece = (
        b"pthread_mutex_t m".as_slice(),
        b" = PTHREAD_MUTEX_INITIALIZER;\n".as_slice(),
    );
    let tail = b"int main(void) { }".as_slice();
    assert!(rt; accepts_made(alloc, numbered(alloc, b"", piece, tail, 8)));
    assert!(rt;
        refuses_made(
            alloc,
            numbered(alloc, b"", piece, tail, 9),
            FrontKind::Limit,
            9,
            17
        )
    );
}

/// 128 slots: that of the returned value and 127 locals.
#[test]
fn slots(rt: HostRuntime) {
    let alloc = rt.alloc();
    let head = b"int main(void) {\n".as_slice();
    let piece = (b"int x".as_slice(), b";\n".as_slice());
    assert!(rt; accepts_made(alloc, numbered(alloc, head, piece, b"}", 127)));
    assert!(rt;
        refuses_made(
            alloc,
            numbered(alloc, head, piece, b"}", 128),
            FrontKind::Limit,
            1,
            5
        )
    );
}

/// 4,096 nodes. A graph has its entry, its exit and the start of its body, and a node between one
/// statement and the next: with the declaration, `n` assignments and the `return` that is added
/// there are `n + 4`.
#[test]
fn nodes(rt: HostRuntime) {
    let alloc = rt.alloc();
    let piece = (b"x = ".as_slice(), b";\n".as_slice());
    let head = b"int main(void) {\nint x;\n".as_slice();
    assert!(rt; accepts_made(alloc, numbered(alloc, head, piece, b"}", 4092)));
    assert!(rt;
        refuses_made(
            alloc,
            numbered(alloc, head, piece, b"}", 4093),
            FrontKind::Limit,
            1,
            5
        )
    );
}

/// The same of two functions: a `main` of one statement has 3 nodes, and is the one beyond.
#[test]
fn nodes_of_all(rt: HostRuntime) {
    let alloc = rt.alloc();
    let piece = (b"x = ".as_slice(), b";\n".as_slice());
    let head = b"void f(void) {\nint x;\n".as_slice();
    let tail = b"}\nint main(void) { }".as_slice();
    assert!(rt; accepts_made(alloc, numbered(alloc, head, piece, tail, 4089)));
    assert!(rt;
        refuses_made(
            alloc,
            numbered(alloc, head, piece, tail, 4090),
            FrontKind::Limit,
            4094,
            5
        )
    );
}

/// A missing `main` comes before a limit.
#[test]
fn no_main_first(rt: HostRuntime) {
    let alloc = rt.alloc();
    let piece = (b"int g".as_slice(), b";\n".as_slice());
    assert!(rt;
        refuses_made(
            alloc,
            numbered(alloc, b"", piece, b"", 65),
            FrontKind::NoMain,
            1,
            1
        )
    );
}
