//! Each form of a statement once, in a function `f`.

use crate::show::reads;

#[test]
fn simple_statements(rt: HostRuntime) {
    assert!(rt;
        reads(
            rt,
            false,
            b"void f(void) { x = a - b - c; }",
            b"void int f() {x = ((a - b) - c);}"
        )
    );
    assert!(rt;
        reads(
            rt,
            false,
            b"void f(void) { x *= a + b; x -= 1; }",
            b"void int f() {x = (x * (a + b)); x = (x - 1);}"
        )
    );
    assert!(rt;
        reads(
            rt,
            false,
            b"void f(void) { x += 1; x /= 2; x %= 3; }",
            b"void int f() {x = (x + 1); x = (x / 2); x = (x % 3);}"
        )
    );
    assert!(rt;
        reads(
            rt,
            false,
            b"void f(void) { x++; ++x; x--; --x; }",
            b"void int f() {x = (x + 1); x = (x + 1); x = (x - 1); x = (x - 1);}"
        )
    );
    assert!(rt;
        reads(
            rt,
            false,
            b"void f(void) { g(); h(1, a + 2L); }",
            b"void int f() {g[]; h[1, (a + 2L)];}"
        )
    );
    assert!(rt;
        reads(
            rt,
            false,
            b"void f(void) { assert(!a == b); ; }",
            b"void int f() {assert ((!a) == b); ;}"
        )
    );
    assert!(rt;
        reads(
            rt,
            false,
            b"void f(void) { pthread_create(&t, NULL, w, NULL); pthread_join(t, NULL); }",
            b"void int f() {create t w; join t;}"
        )
    );
    assert!(rt;
        reads(
            rt,
            false,
            b"void f(void) { pthread_mutex_lock(&m); pthread_mutex_unlock(&m); }",
            b"void int f() {lock m; unlock m;}"
        )
    );
}

#[test]
fn declarations(rt: HostRuntime) {
    assert!(rt;
        reads(
            rt,
            false,
            b"void f(void) { int x; long y = 1, z; long int w = -2; }",
            b"void int f() {int x; long y = 1; long z; long w = (-2);}"
        )
    );
    assert!(rt;
        reads(
            rt,
            false,
            b"void f(void) { pthread_t a; pthread_t b, c; }",
            b"void int f() {thread a; thread b; thread c;}"
        )
    );
}

#[test]
fn branches_and_loops(rt: HostRuntime) {
    assert!(rt;
        reads(
            rt,
            false,
            b"void f(void) { if (a) if (b) x = 1; else x = 2; }",
            b"void int f() {if a {if b {x = 1;} else {x = 2;}}}"
        )
    );
    assert!(rt;
        reads(
            rt,
            false,
            b"void f(void) { if (a) { if (b) ; } else x = 2; }",
            b"void int f() {if a {{if b {;}}} else {x = 2;}}"
        )
    );
    assert!(rt;
        reads(
            rt,
            false,
            b"void f(void) { while (a < 3) a++; do { break; } while (b); }",
            b"void int f() {while (a < 3) {a = (a + 1);} do {{break;}} while b;}"
        )
    );
    assert!(rt;
        reads(
            rt,
            false,
            b"void f(void) { for (;;) continue; }",
            b"void int f() {for {} ; - {continue;}}"
        )
    );
    assert!(rt;
        reads(
            rt,
            false,
            b"void f(void) { for (i = 0; ; ) ; for (; a; ) ; for (; ; i++) ; }",
            b"void int f() {for {i = 0;} ; - {;} for {} a; - {;} for {} ; i = (i + 1); {;}}"
        )
    );
    assert!(rt;
        reads(
            rt,
            false,
            b"void f(void) { for (int i = 0, j = 1; i < j; i += 2) { } }",
            b"void int f() {for {int i = 0; int j = 1;} (i < j); i = (i + 2); {{}}}"
        )
    );
    assert!(rt;
        reads(
            rt,
            false,
            b"void f(void) { for (long i; ; g(i)) return; }",
            b"void int f() {for {long i;} ; g[i]; {return;}}"
        )
    );
}

#[test]
fn returns(rt: HostRuntime) {
    assert!(rt;
        reads(
            rt,
            false,
            b"int f(void) { return 1 + 2 * 3; }",
            b"number int f() {return (1 + (2 * 3));}"
        )
    );
    assert!(rt;
        reads(
            rt,
            false,
            b"void *f(void *arg) { return NULL; }",
            b"thread int f(int arg) {return NULL;}"
        )
    );
    assert!(rt;
        reads(
            rt,
            false,
            b"void f(void) { return; }",
            b"void int f() {return;}"
        )
    );
}
