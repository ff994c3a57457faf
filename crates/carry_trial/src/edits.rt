//! Edits of a global's writer, and of places alone.
use crate::{carries, leaves_dirty, solves_to};
use std::test::Fail;

static WRITES_FIVE: &[u8] = b"int g = 0;
pthread_mutex_t m = PTHREAD_MUTEX_INITIALIZER;
void *work(void *a) {
  pthread_mutex_lock(&m);
  g = 5;
  pthread_mutex_unlock(&m);
  return NULL;
}
int main(void) {
  pthread_t t;
  pthread_create(&t, NULL, work, NULL);
  int x = g;
  return x;
}
";

static WRITES_THREE: &[u8] = b"int g = 0;
pthread_mutex_t m = PTHREAD_MUTEX_INITIALIZER;
void *work(void *a) {
  pthread_mutex_lock(&m);
  g = 3;
  pthread_mutex_unlock(&m);
  return NULL;
}
int main(void) {
  pthread_t t;
  pthread_create(&t, NULL, work, NULL);
  int x = g;
  return x;
}
";

static ONE_LINE_LOWER: &[u8] = b"
int g = 0;
pthread_mutex_t m = PTHREAD_MUTEX_INITIALIZER;
void *work(void *a) {
  pthread_mutex_lock(&m);
  g = 5;
  pthread_mutex_unlock(&m);
  return NULL;
}
int main(void) {
  pthread_t t;
  pthread_create(&t, NULL, work, NULL);
  int x = g;
  return x;
}
";

#[test]
fn a_writer_that_changed_takes_its_global_and_readers(rt: HostRuntime) -> Result<(), Fail> {
    let wanted = b"main(){} 0 9:5 x=[0,0] {}
main(){} 1 14:1 unreached
main(){} 2 10:3 x=[0,0] {}
main(){} 3 11:3 x=[0,0] {}
main(){} 4 12:3 x=[0,0] {}
main(){} 5 13:3 unreached
main(){} 6 12:3 unreached
global g=[0,0]
";
    assert!(rt; carries(rt.alloc(), WRITES_FIVE, WRITES_THREE, wanted));
    Ok(())
}

#[test]
fn lost_nodes_and_the_start_of_what_changed_are_dirty(rt: HostRuntime) -> Result<(), Fail> {
    assert!(rt; leaves_dirty(rt.alloc(), WRITES_FIVE, WRITES_THREE, &[1, 4, 5, 6]));
    Ok(())
}

#[test]
fn solving_goes_on_from_what_is_kept(rt: HostRuntime) -> Result<(), Fail> {
    let wanted = b"work(){} 0 3:7 {}
work(){} 1 8:1 {}
work(){} 2 4:3 {}
work(){} 3 5:3 {m}
work(){} 4 6:3 {m}
work(){} 5 7:3 {}
main(){} 0 9:5 x=[0,0] {}
main(){} 1 14:1 x=[0,3] return=[0,3] {}
main(){} 2 10:3 x=[0,0] {}
main(){} 3 11:3 x=[0,0] {}
main(){} 4 12:3 x=[0,0] {}
main(){} 5 13:3 x=[0,3] {}
main(){} 6 12:3 x=[0,0] {}
global g=[0,3]
";
    assert!(rt; solves_to(rt.alloc(), WRITES_FIVE, WRITES_THREE, wanted));
    Ok(())
}

#[test]
fn places_alone_change_nothing(rt: HostRuntime) -> Result<(), Fail> {
    let wanted = b"work(){} 0 4:7 {}
work(){} 1 9:1 {}
work(){} 2 5:3 {}
work(){} 3 6:3 {m}
work(){} 4 7:3 {m}
work(){} 5 8:3 {}
main(){} 0 10:5 x=[0,0] {}
main(){} 1 15:1 x=[0,5] return=[0,5] {}
main(){} 2 11:3 x=[0,0] {}
main(){} 3 12:3 x=[0,0] {}
main(){} 4 13:3 x=[0,0] {}
main(){} 5 14:3 x=[0,5] {}
main(){} 6 13:3 x=[0,0] {}
global g=[0,5]
";
    assert!(rt; carries(rt.alloc(), WRITES_FIVE, ONE_LINE_LOWER, wanted));
    Ok(())
}

#[test]
fn places_alone_make_nothing_dirty(rt: HostRuntime) -> Result<(), Fail> {
    assert!(rt; leaves_dirty(rt.alloc(), WRITES_FIVE, ONE_LINE_LOWER, &[]));
    Ok(())
}
