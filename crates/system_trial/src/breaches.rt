use crate::texts::node;
use constraint_sys::{System, Unknown, Value};
use gob_tree::Memory;
use post_check::{Breach, post_check};
use solved_texts::{run_of, solved, without};
use std::alloc::Global;
use std::test::Fail;
use td_solver::Run;

/// The first breach of a run's table.
fn found(alloc: Global, run: &Run) -> Result<Option<Breach>, Memory> {
    let program = run.source().program();
    let system = System::of(alloc, program)?;
    post_check(alloc, program, &system, run.table())
}

/// The same of the table without one of its unknowns.
fn found_without(alloc: Global, run: &Run, gone: &Unknown) -> Result<Option<Breach>, Memory> {
    let program = run.source().program();
    let rest = without(alloc, program, run.table(), gone)?;
    let system = System::of(alloc, program)?;
    post_check(alloc, program, &system, &rest)
}

/// Whether a breach has this unknown, and this target.
fn is_of(breach: &Option<Breach>, unknown: &Unknown, target: &Unknown) -> bool {
    match breach {
        Some(b) => b.unknown == *unknown && b.target == *target,
        None => false,
    }
}

const SHORT: &[u8] = b"int main(void) { return 0; }";

/// Whether the run's table has Bottom at a point.
fn is_bottom(run: &Run, u: &Unknown) -> bool {
    match run.table().get(u) {
        Some(Value::State(state)) => state.is_bottom(),
        _ => false,
    }
}

// the solved table, with the exit's turn left out: Bottom stands there
#[test]
fn an_exit_that_is_bottom_is_the_breach(rt: HostRuntime) -> Result<(), Fail> {
    let mut run = run_of(rt.alloc(), SHORT)?;
    let (exit, body) = (node(0, 1), node(0, 2));
    assert!(rt; run.dirty().contains(&body));
    if run.dirty().contains(&body) {
        run.apply(rt.alloc(), body)?;
    }
    assert!(rt; is_bottom(&run, &exit));
    assert!(rt; !is_bottom(&run, &body));
    let breach = found(rt.alloc(), &run)?;
    assert!(rt; is_of(&breach, &exit, &exit));
    Ok(())
}

/// Function 0 is work, which writes a global under a mutex, 1 is main, which reads it.
const THREAD: &[u8] = b"int g = 0;
pthread_mutex_t m = PTHREAD_MUTEX_INITIALIZER;
void *work(void *a) {
  pthread_mutex_lock(&m);
  g = 5;
  pthread_mutex_unlock(&m);
  return NULL;
}
int main(void) {
  pthread_t t;
  pthread_create(&t, NULL, work, NULL);
  int x = g;
  return x;
}
";

#[test]
fn a_root_that_is_missing_is_the_breach(rt: HostRuntime) -> Result<(), Fail> {
    let run = solved(rt.alloc(), THREAD)?;
    for root in [Unknown::Global(0), node(1, 0)] {
        let breach = found_without(rt.alloc(), &run, &root)?;
        assert!(rt; is_of(&breach, &root, &root));
    }
    Ok(())
}
