use constraint_sys::{ArgKey, Key, System, Unknown};
use gob_tree::Memory;
use lockset_dom::Locks;
use post_check::{Breach, post_check};
use solved_texts::{solved, without};
use std::alloc::Global;
use std::test::Fail;
use td_solver::Run;

/// Function 0 is work, which writes a global under a mutex, 1 is main, which reads it.
const THREAD: &[u8] = b"int g = 0;
pthread_mutex_t m = PTHREAD_MUTEX_INITIALIZER;
void *work(void *a) {
  pthread_mutex_lock(&m);
  g = 5;
  pthread_mutex_unlock(&m);
  return NULL;
}
int main(void) {
  pthread_t t;
  pthread_create(&t, NULL, work, NULL);
  int x = g;
  return x;
}
";

fn found(alloc: Global, run: &Run) -> Result<Option<Breach>, Memory> {
    let program = run.source().program();
    let system = System::of(alloc, program)?;
    post_check(alloc, program, &system, run.table())
}

#[test]
fn a_solved_table_has_no_breach(rt: HostRuntime) -> Result<(), Fail> {
    let run = solved(rt.alloc(), THREAD)?;
    assert!(rt; found(rt.alloc(), &run)?.is_none());
    Ok(())
}

/// A node of work.
fn in_work(node: u16) -> Unknown {
    let key = Key {
        a: ArgKey::Absent,
        b: ArgKey::Absent,
        locks: Locks::empty(),
    };
    Unknown::Point { func: 0, key, node }
}

/// The unknown and the target of the first breach of a run's table without a node of work.
fn found_without(
    alloc: Global,
    run: &Run,
    node: u16,
) -> Result<Option<(Unknown, Unknown)>, Memory> {
    let program = run.source().program();
    let rest = without(alloc, program, run.table(), &in_work(node))?;
    let system = System::of(alloc, program)?;
    match post_check(alloc, program, &system, &rest)? {
        Some(breach) => Ok(Some((breach.unknown, breach.target))),
        None => Ok(None),
    }
}

#[test]
fn a_node_that_is_missing_is_the_target(rt: HostRuntime) -> Result<(), Fail> {
    let run = solved(rt.alloc(), THREAD)?;
    let wanted = Some((in_work(0), in_work(3)));
    assert!(rt; found_without(rt.alloc(), &run, 3)? == wanted);
    Ok(())
}
