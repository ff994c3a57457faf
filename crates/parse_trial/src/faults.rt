//! Texts that are no unit, each with its fault and the place of it.

use crate::show::reads;
use gob_tree::Memory;

#[test]
fn unexpected(rt: HostRuntime) {
    assert!(rt;
        reads(
            rt,
            true,
            b"int main(void) { return 1 }",
            b"unexpected @1.27"
        )
    );
    assert!(rt; reads(rt, true, b"int main(void) {\n", b"unexpected @2.1"));
    assert!(rt; reads(rt, true, b"int f(int) {", b"unexpected @1.12"));
    assert!(rt; reads(rt, true, b"int f(int a,) ;", b"unexpected @1.13"));
    assert!(rt; reads(rt, true, b"extern int x;", b"unexpected @1.13"));
    assert!(rt; reads(rt, true, b"extern void f(void) {", b"unexpected @1.21"));
    assert!(rt; reads(rt, true, b"int if;", b"unexpected @1.5"));
    assert!(rt; reads(rt, true, b"int NULL;", b"unexpected @1.5"));
    assert!(rt; reads(rt, true, b"int x = y;", b"unexpected @1.9"));
    assert!(rt; reads(rt, true, b"int x = - - 1;", b"unexpected @1.11"));
    assert!(rt; reads(rt, true, b"void f(void) { x; }", b"unexpected @1.17"));
    assert!(rt; reads(rt, true, b"void f(void) { else ; }", b"unexpected @1.16"));
    assert!(rt;
        reads(
            rt,
            true,
            b"void f(void) { if (a) int x; }",
            b"unexpected @1.23"
        )
    );
    assert!(rt; reads(rt, true, b"void f(void) { for (;) ; }", b"unexpected @1.22"));
    assert!(rt;
        reads(
            rt,
            true,
            b"void f(void) { for (pthread_t t; ; ) ; }",
            b"unexpected @1.21"
        )
    );
    assert!(rt; reads(rt, true, b"void f(void) { x = a +; }", b"unexpected @1.23"));
    assert!(rt;
        reads(
            rt,
            true,
            b"void f(void) { x = a = b; }",
            b"unexpected @1.22"
        )
    );
    assert!(rt; reads(rt, true, b"void f(void) { f(a; }", b"unexpected @1.19"));
    assert!(rt;
        reads(
            rt,
            true,
            b"void f(void) { pthread_join(&t, NULL); }",
            b"unexpected @1.29"
        )
    );
    assert!(rt;
        reads(
            rt,
            true,
            b"void f(void) { pthread_create(&t, 0, w, NULL); }",
            b"unexpected @1.35"
        )
    );
    assert!(rt; reads(rt, true, b"long long x;", b"unexpected @1.6"));
}

#[test]
fn unsupported(rt: HostRuntime) {
    assert!(rt;
        reads(
            rt,
            true,
            b"int main(void) { goto x; }",
            b"unsupported @1.18"
        )
    );
    assert!(rt; reads(rt, true, b"unsigned x;", b"unsupported @1.1"));
    assert!(rt; reads(rt, true, b"int x = sizeof", b"unsupported @1.9"));
    assert!(rt; reads(rt, true, b"int f(const int a);", b"unsupported @1.7"));
    assert!(rt; reads(rt, true, b"int x; x goto", b"unexpected @1.8"));
}

/// A text of a front, so many times a piece, and an end.
fn repeated(
    rt: HostRuntime,
    front: &[u8],
    count: usize,
    piece: &[u8],
    end: &[u8],
) -> Result<Vec<u8>, Memory> {
    let mut text = Vec::new(rt.alloc());
    text.extend_from_slice(front)?;
    for _ in 0..count {
        text.extend_from_slice(piece)?;
    }
    text.extend_from_slice(end)?;
    Ok(text)
}

/// Whether the text of a piece repeated so many times has the fault.
fn faults(
    rt: HostRuntime,
    front: &[u8],
    count: usize,
    piece: &[u8],
    end: &[u8],
    wanted: &[u8],
) -> bool {
    match repeated(rt, front, count, piece, end) {
        Ok(text) => reads(rt, true, text.as_slice(), wanted),
        Err(_) => false,
    }
}

#[test]
fn too_deep(rt: HostRuntime) {
    assert!(rt; faults(rt, b"void f(void) {", 65, b"{", b"", b"too deep @1.79"));
    assert!(rt; faults(rt, b"void f(void) {", 64, b"{", b"", b"unexpected @1.79"));
    assert!(rt;
        faults(
            rt,
            b"void f(void) {",
            64,
            b"{",
            b"int x;",
            b"too deep @1.79"
        )
    );
    assert!(rt; faults(rt, b"void f(void) {", 64, b"{", b";", b"too deep @1.79"));
    assert!(rt;
        faults(
            rt,
            b"void f(void) {",
            64,
            b"{",
            b"else",
            b"unexpected @1.79"
        )
    );
    assert!(rt;
        faults(
            rt,
            b"void f(void) {",
            64,
            b"{",
            b"goto",
            b"unsupported @1.79"
        )
    );
    assert!(rt;
        faults(
            rt,
            b"void f(void) { ",
            64,
            b"if(a);else ",
            b";",
            b"too deep @1.714"
        )
    );
    assert!(rt;
        faults(
            rt,
            b"void f(void) { ",
            63,
            b"if(a);else ",
            b"; )",
            b"unexpected @1.711"
        )
    );
    assert!(rt;
        faults(
            rt,
            b"void f(void) { x = ",
            65,
            b"!",
            b"a; }",
            b"too deep @1.84"
        )
    );
    assert!(rt;
        faults(
            rt,
            b"void f(void) { x = ",
            64,
            b"!",
            b"a; )",
            b"unexpected @1.87"
        )
    );
    assert!(rt;
        faults(
            rt,
            b"void f(void) { x = ",
            64,
            b"(",
            b"g()",
            b"too deep @1.85"
        )
    );
    assert!(rt;
        faults(
            rt,
            b"void f(void) { x += a",
            65,
            b"+1",
            b";",
            b"too deep @1.150"
        )
    );
    assert!(rt;
        faults(
            rt,
            b"void f(void) { g(a",
            64,
            b"+1",
            b", !b) )",
            b"unexpected @1.153"
        )
    );
}
