//! Printed tables, each worked out by hand.
use crate::ran::analysed;
use std::test::Fail;

const LONE: &[u8] = b"int main(void) { return 0; }";

const LONE_TABLE: &[u8] = b"main(){} 0 1:5 {}
main(){} 1 1:28 return=[0,0] {}
main(){} 2 1:18 {}
complete
";

const THREAD: &[u8] = b"int g = 0;
pthread_mutex_t m = PTHREAD_MUTEX_INITIALIZER;
void *work(void *a) {
  pthread_mutex_lock(&m);
  g = 5;
  pthread_mutex_unlock(&m);
  return NULL;
}
int main(void) {
  pthread_t t;
  pthread_create(&t, NULL, work, NULL);
  int x = g;
  return x;
}
";

const THREAD_TABLE: &[u8] = b"work(){} 0 3:7 {}
work(){} 1 8:1 {}
work(){} 2 4:3 {}
work(){} 3 5:3 {m}
work(){} 4 6:3 {m}
work(){} 5 7:3 {}
main(){} 0 9:5 x=[0,0] {}
main(){} 1 14:1 x=[0,5] return=[0,5] {}
main(){} 2 10:3 x=[0,0] {}
main(){} 3 11:3 x=[0,0] {}
main(){} 4 12:3 x=[0,0] {}
main(){} 5 13:3 x=[0,5] {}
main(){} 6 12:3 x=[0,0] {}
global g=[0,5]
complete
";

const LOOP: &[u8] = b"int main(void) {
  int i = 0;
  while (i < 10) i++;
  return i;
}
";

const LOOP_TABLE: &[u8] = b"main(){} 0 1:5 i=[0,0] {}
main(){} 1 5:1 i=[10,10] return=[10,10] {}
main(){} 2 2:3 i=[0,0] {}
main(){} 3 3:3 i=[0,10] {}
main(){} 4 4:3 i=[10,10] {}
main(){} 5 3:18 i=[0,9] {}
complete
";

const CALLS: &[u8] = b"int f(int n) {
  if (n <= 1) return 1;
  return f(n - 1);
}
int main(void) { return f(3); }
";

const CALLS_TABLE: &[u8] = b"f(Any){} 0 1:5 n=[1,3] {}
f(Any){} 1 4:1 n=[1,3] return=[1,1] {}
f(Any){} 2 2:3 n=[1,3] {}
f(Any){} 3 3:3 n=[2,3] {}
f(Any){} 4 2:15 n=[1,1] {}
f(Any){} 5 3:3 n=[2,3] {}
main(){} 0 5:5 {}
main(){} 1 5:31 return=[1,1] {}
main(){} 2 5:18 {}
main(){} 3 5:18 {}
complete
";

const VOID: &[u8] = b"int g = 0;
void put(int v) {
  g = v;
}
int main(void) {
  put(4);
  return 0;
}
";

const VOID_TABLE: &[u8] = b"put(Any){} 0 2:6 v=[4,4] {}
put(Any){} 1 4:1 v=[4,4] {}
put(Any){} 2 3:3 v=[4,4] {}
put(Any){} 3 4:1 v=[4,4] {}
main(){} 0 5:5 {}
main(){} 1 8:1 return=[0,0] {}
main(){} 2 6:3 {}
main(){} 3 7:3 {}
global g=[0,4]
complete
";

/// It also refuses a program that always answers want of memory, which no clause does.
#[test]
fn tables_are_printed(rt: HostRuntime) -> Result<(), Fail> {
    let rows = [
        (LONE, LONE_TABLE),
        (THREAD, THREAD_TABLE),
        (LOOP, LOOP_TABLE),
        (CALLS, CALLS_TABLE),
        (VOID, VOID_TABLE),
    ];
    for (text, table) in rows {
        let ran = analysed(rt.alloc(), text)?;
        assert_eq!(rt; ran.status.number(), 0);
        assert_eq!(rt; ran.written.as_slice(), table);
    }
    Ok(())
}

const ARBITRARY: &[u8] = b"int main(void) {
  int x = __VERIFIER_nondet_int();
  int y = x + 1;
  return y;
}
";

const QUOTIENT: &[u8] = b"int main(void) {
  int z;
  int q = 10 / z;
  return q;
}
";

const TWICE: &[u8] = b"int g = 0;
void *w(void *a) { g = 1; return NULL; }
int main(void) {
  pthread_t t;
  pthread_create(&t, NULL, w, NULL);
  int x = g + g;
  return x;
}
";

const WIDTHS: &[u8] = b"long t = 2147483647;
int main(void) {
  long a = t + 1;
  int b = a;
  return b;
}
";

/// Whether one of the lines is this one.
fn has_line(lines: &[u8], line: &[u8]) -> bool {
    lines.split(|byte| *byte == b'\n').any(|one| one == line)
}

#[test]
fn tables_have_these_lines(rt: HostRuntime) -> Result<(), Fail> {
    let rows: [(&[u8], &[u8]); 4] = [
        (
            ARBITRARY,
            b"main(){} 5 4:3 x=[-2147483648,2147483647] y=[-2147483648,2147483647] {}",
        ),
        (
            QUOTIENT,
            b"main(){} 4 4:3 z=[-2147483648,2147483647] q=[-10,10] {}",
        ),
        (TWICE, b"main(){} 5 7:3 x=[0,2] {}"),
        (
            WIDTHS,
            b"main(){} 5 5:3 a=[2147483648,2147483648] b=[-2147483648,2147483647] {}",
        ),
    ];
    for (text, line) in rows {
        let ran = analysed(rt.alloc(), text)?;
        assert_eq!(rt; ran.status.number(), 0);
        assert!(rt; has_line(ran.written.as_slice(), line));
    }
    Ok(())
}
