//! Each form of an item once.

use crate::show::reads;

#[test]
fn globals(rt: HostRuntime) {
    assert!(rt;
        reads(
            rt,
            false,
            b"int x; long y = 5, z, w = -7; static int v = 9223372036854775807;",
            b"int x = 0; long y = 5; long z = 0; long w = -7; int v = 9223372036854775807;"
        )
    );
    assert!(rt;
        reads(
            rt,
            false,
            b"pthread_mutex_t m = PTHREAD_MUTEX_INITIALIZER; static pthread_mutex_t n = PTHREAD_MUTEX_INITIALIZER;",
            b"mutex m; mutex n;"
        )
    );
    assert!(rt; reads(rt, false, b"", b""));
}

#[test]
fn heads(rt: HostRuntime) {
    assert!(rt;
        reads(
            rt,
            false,
            b"int f(); long g(int, long b); extern void h(void); static long int k(long int x);",
            b"number int f(); number long g(int -, long b); void int h(); number long k(long x);"
        )
    );
    assert!(rt;
        reads(
            rt,
            false,
            b"void *w(void *); extern void *v(void *p); static void *u(void *q) { }",
            b"thread int w(int -); thread int v(int p); thread int u(int q) {}"
        )
    );
    assert!(rt;
        reads(
            rt,
            false,
            b"void *w(void *) { return NULL; }",
            b"thread int w(int -) {return NULL;}"
        )
    );
    assert!(rt;
        reads(
            rt,
            false,
            b"int f(int a, long b) { return a; } void g() { f(1, 2); }",
            b"number int f(int a, long b) {return a;} void int g() {f[1, 2];}"
        )
    );
}

#[test]
fn places(rt: HostRuntime) {
    assert!(rt;
        reads(
            rt,
            true,
            b"int x, y = -3;\nlong f(int a) {\n  int b = a, c;\n  return b;\n}\n",
            b"int x@1.5 = 0@1.5; int y@1.8 = -3@1.13; number long f@2.6(int a@2.12) {@3.3 int b@3.7 = a@3.11; @3.14 int c@3.14; @4.3 return b@4.10;}@5.1"
        )
    );
    assert!(rt;
        reads(
            rt,
            true,
            b"void g(void) { pthread_t s, t; for (i = 0; ; i++) ; if (a) x = 1; else { } }",
            b"void int g@1.6() {@1.16 thread s@1.26; @1.29 thread t@1.29; @1.32 for {@1.37 i@1.37 = 0;} ; @1.46 i@1.46 = (i@1.46 + 1); {@1.51 ;} @1.53 if a@1.57 {@1.60 x@1.60 = 1;} else {@1.72 {}}}@1.76"
        )
    );
}
