//! Edits that take a mutex away.
use crate::{carries, leaves_dirty, solves_to};
use std::test::Fail;

static CALLS_UNDER_LOCK: &[u8] = b"int g = 0;
pthread_mutex_t m = PTHREAD_MUTEX_INITIALIZER;
int get(void) { return g; }
int main(void) { pthread_mutex_lock(&m); int x = get(); pthread_mutex_unlock(&m); return x; }
";

static CALLS_WITHOUT: &[u8] = b"int g = 0;
int get(void) { return g; }
int main(void) { int x = get(); return x; }
";

#[test]
fn contexts_of_a_lost_mutex_go(rt: HostRuntime) -> Result<(), Fail> {
    let wanted = b"get(){} 0 2:5 {}
get(){} 1 2:27 return=[0,0] {}
get(){} 2 2:17 {}
get(){} 3 2:17 {}
main(){} 0 3:5 x=[0,0] {}
main(){} 1 3:43 x=[0,0] return=[0,0] {}
main(){} 2 3:18 x=[0,0] {}
main(){} 3 3:33 x=[0,0] {}
main(){} 4 3:18 x=[0,0] {}
global g=[0,0]
";
    assert!(rt; solves_to(rt.alloc(), CALLS_UNDER_LOCK, CALLS_WITHOUT, wanted));
    Ok(())
}

static TWO_MUTEXES: &[u8] = b"int g = 0;
pthread_mutex_t m = PTHREAD_MUTEX_INITIALIZER;
pthread_mutex_t n = PTHREAD_MUTEX_INITIALIZER;
void set(void) { g = 1; }
void *work(void *a) { pthread_mutex_lock(&n); set(); pthread_mutex_unlock(&n); return NULL; }
int get(void) { pthread_mutex_lock(&m); pthread_mutex_unlock(&m); return 2; }
int main(void) {
  pthread_t t;
  pthread_create(&t, NULL, work, NULL);
  int x = get();
  return x;
}
";

static THE_SECOND_ALONE: &[u8] = b"int g = 0;
pthread_mutex_t n = PTHREAD_MUTEX_INITIALIZER;
void set(void) { g = 1; }
void *work(void *a) { pthread_mutex_lock(&n); set(); pthread_mutex_unlock(&n); return NULL; }
int get(void) { return 2; }
int main(void) {
  pthread_t t;
  pthread_create(&t, NULL, work, NULL);
  int x = get();
  return x;
}
";

// n, the second mutex before, is the first one then.
#[test]
fn the_mutex_that_stays_is_held_under_its_new_number(rt: HostRuntime) -> Result<(), Fail> {
    let wanted = b"set(){n} 0 3:6 {n}
set(){n} 1 3:25 {n}
set(){n} 2 3:18 {n}
set(){n} 3 3:25 {n}
work(){} 0 4:7 {}
work(){} 1 4:93 {}
work(){} 2 4:23 {}
work(){} 3 4:47 {n}
work(){} 4 4:54 {n}
work(){} 5 4:80 {}
main(){} 0 6:5 x=[0,0] {}
main(){} 1 11:1 unreached
main(){} 2 7:3 x=[0,0] {}
main(){} 3 8:3 x=[0,0] {}
main(){} 4 9:3 x=[0,0] {}
main(){} 5 10:3 unreached
main(){} 6 9:3 unreached
global g=[0,1]
";
    assert!(rt; carries(rt.alloc(), TWO_MUTEXES, THE_SECOND_ALONE, wanted));
    assert!(rt; leaves_dirty(rt.alloc(), TWO_MUTEXES, THE_SECOND_ALONE, &[11, 15, 16]));
    Ok(())
}
