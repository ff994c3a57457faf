//! Whole programs.

use crate::show::reads;

const WORKERS: &[u8] = b"#include <pthread.h>
#include <assert.h>

int limit = 8;
int done;
int total;
pthread_mutex_t lock = PTHREAD_MUTEX_INITIALIZER;

int clamp(int v, int top);

int succ(int v)
{
    return v + 1;
}

int clamp(int v, int top)
{
    if (v < 0)
        return 0;
    if (v > top)
        return top;
    return v;
}

void *worker(void *arg)
{
    int i;
    for (i = 0; i < 4; i++) {
        pthread_mutex_lock(&lock);
        total = clamp(succ(i), limit);
        pthread_mutex_unlock(&lock);
    }
    done = 1;
    return NULL;
}

int main(void)
{
    pthread_t a, b;
    int seen = 0;

    pthread_create(&a, NULL, worker, NULL);
    pthread_create(&b, NULL, worker, NULL);
    while (!done)
        seen++;
    pthread_join(a, NULL);
    pthread_join(b, NULL);
    pthread_mutex_lock(&lock);
    seen = total;
    pthread_mutex_unlock(&lock);
    assert(seen >= 0);
    return 0;
}
";

const WORKERS_TREE: &[u8] = b"int limit = 8; int done = 0; int total = 0; mutex lock; \
number int clamp(int v, int top); \
number int succ(int v) {return (v + 1);} \
number int clamp(int v, int top) {if (v < 0) {return 0;} if (v > top) {return top;} return v;} \
thread int worker(int arg) {int i; for {i = 0;} (i < 4); i = (i + 1); \
{{lock lock; total = clamp[succ[i], limit]; unlock lock;}} done = 1; return NULL;} \
number int main() {thread a; thread b; int seen = 0; create a worker; create b worker; \
while (!done) {seen = (seen + 1);} join a; join b; lock lock; seen = total; unlock lock; \
assert (seen >= 0); return 0;}";

#[test]
fn workers_under_a_mutex(rt: HostRuntime) {
    assert!(rt; reads(rt, false, WORKERS, WORKERS_TREE));
}

/// Every production of the grammar.
const ALL: &[u8] = b"static int a = -1, b; long c = 2L;
pthread_mutex_t m = PTHREAD_MUTEX_INITIALIZER;
extern int f(int, long int x); void g(void); void *w(void *);
void g() { }
void *w(void *p) { return; }
static int f(int k, long x) {
  pthread_t t, u; long y = +x, z;
  { ; }
  y = k || a && b == c != k < 1 + 2 * 3 / 4 % 5 - (6) >= 7;
  y += 1; y -= 1; y *= 1; y /= 1; y %= 1; y++; --y;
  g(); g(f(k, y), !k); assert(k <= 1);
  pthread_create(&t, NULL, w, NULL); pthread_join(t, NULL);
  pthread_mutex_lock(&m); pthread_mutex_unlock(&m);
  if (k > 1) while (k) break; else do continue; while (k);
  for (int i = 0; i < 2; i++) g();
  for (k = 0; ; ) return k;
  for (;;) if (k) ;
  return NULL;
}
";

const ALL_TREE: &[u8] = b"int a = -1; int b = 0; long c = 2; mutex m; \
number int f(int -, long x); void int g(); thread int w(int -); \
void int g() {} thread int w(int p) {return;} \
number int f(int k, long x) {thread t; thread u; long y = x; long z; {;} \
y = (k || (a && ((b == c) != ((k < ((1 + (((2 * 3) / 4) % 5)) - 6)) >= 7)))); \
y = (y + 1); y = (y - 1); y = (y * 1); y = (y / 1); y = (y % 1); y = (y + 1); y = (y - 1); \
g[]; g[f[k, y], (!k)]; assert (k <= 1); create t w; join t; lock m; unlock m; \
if (k > 1) {while k {break;}} else {do {continue;} while k;} \
for {int i = 0;} (i < 2); i = (i + 1); {g[];} for {k = 0;} ; - {return k;} \
for {} ; - {if k {;}} return NULL;}";

#[test]
fn every_production(rt: HostRuntime) {
    assert!(rt; reads(rt, false, ALL, ALL_TREE));
}
