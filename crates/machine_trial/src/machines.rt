//! Machines of small texts, read after each step.
use c_check::front;
use gob_tree::Unit;
use std::alloc::Global;
use std::test::Fail;
use tree_run::{Choice, FrameView, Machine, Next, Stepped, run};

const CALLING: &[u8] = b"pthread_mutex_t m = PTHREAD_MUTEX_INITIALIZER;
int g = 7;
int f(int n) {
  return n + g;
}
int main(void) {
  pthread_mutex_lock(&m);
  int x = f(3);
  pthread_mutex_unlock(&m);
  return x;
}
";

const COUNTING: &[u8] = b"int main(void) {
  int i;
  for (i = 0; i < 2; i = i + 1)
    continue;
  return i;
}
";

const CREATING: &[u8] = b"int g = 0;
void *w(void *a) { g = 1; return NULL; }
int main(void) {
  pthread_t t;
  pthread_create(&t, NULL, w, NULL);
  return g;
}
";

/// Steps of thread 1, each of which moves.
fn moves<'u>(
    alloc: Global,
    machine: &mut Machine<'u>,
    unit: &'u Unit,
    steps: u64,
) -> Result<(), Fail> {
    for _ in 0..steps {
        if machine.thread_count() == u32::MAX
            || machine.step(alloc, unit, 1, 0)? != Stepped::Moved
        {
            return Err(Fail::new("a step doesn't move"));
        }
    }
    Ok(())
}

/// A frame of thread 1, which is there.
fn frame<'m, 'u>(machine: &'m Machine<'u>, i: u64) -> Result<FrameView<'m, 'u>, Fail> {
    match machine.frame(1, i) {
        Some(frame) => Ok(frame),
        None => Err(Fail::new("there is no such frame")),
    }
}

/// The kind of a thing to do, and the line that it stands on; 0 and 0 for none.
fn kind_of(next: Option<Next<'_>>) -> (u8, u32) {
    match next {
        None => (0, 0),
        Some(Next::Stmt(p)) => (1, p.place.line),
        Some(Next::Test(p)) => (2, p.place.line),
        Some(Next::Last(p)) => (3, p.place.line),
    }
}

#[test]
fn a_machine_begins_in_main(rt: HostRuntime) -> Result<(), Fail> {
    let source = front(rt.alloc(), CALLING)?;
    let machine = Machine::new(rt.alloc(), source.unit())?;
    assert_eq!(rt; machine.globals(), [7].as_slice());
    assert_eq!(rt;
        (machine.thread_count(), machine.owner(0), machine.depth(1)),
        (1, None, 1)
    );
    assert_eq!(rt; (machine.depth(0), machine.depth(2)), (0, 0));
    assert!(rt; machine.top(0).is_none() && machine.top(2).is_none());
    assert!(rt; machine.frame(1, 1).is_none());
    Ok(())
}

/// What is seen of a thread's topmost frame: its function, and where its next statement stands.
fn seen(machine: &Machine<'_>, thread: u32) -> Option<(u16, u32, u32)> {
    match machine.top(thread) {
        Some(top) => Some((top.func, top.place.line, top.place.column)),
        None => None,
    }
}

/// A created thread has the next number and its function in front; its creator keeps the number.
#[test]
fn a_created_thread_begins_in_its_function(rt: HostRuntime) -> Result<(), Fail> {
    let source = front(rt.alloc(), CREATING)?;
    let mut machine = Machine::new(rt.alloc(), source.unit())?;
    assert_eq!(rt; seen(&machine, 1), Some((1, 4, 3)));
    assert_eq!(rt; frame(&machine, 0)?.threads(), [None].as_slice());
    moves(rt.alloc(), &mut machine, source.unit(), 2)?;
    assert_eq!(rt; (machine.thread_count(), machine.depth(2)), (2, 1));
    assert_eq!(rt;
        (seen(&machine, 1), seen(&machine, 2)),
        (Some((1, 6, 3)), Some((0, 2, 20)))
    );
    assert_eq!(rt; frame(&machine, 0)?.threads(), [Some(2)].as_slice());
    Ok(())
}

/// The lock, and then the call: in front of `f` the parameter has the argument.
#[test]
fn a_call_pushes_a_frame(rt: HostRuntime) -> Result<(), Fail> {
    let source = front(rt.alloc(), CALLING)?;
    let mut machine = Machine::new(rt.alloc(), source.unit())?;
    moves(rt.alloc(), &mut machine, source.unit(), 1)?;
    assert_eq!(rt; (machine.owner(0), machine.depth(1)), (Some(1), 1));
    moves(rt.alloc(), &mut machine, source.unit(), 1)?;
    assert_eq!(rt; machine.depth(1), 2);
    let called = frame(&machine, 1)?;
    assert_eq!(rt; (called.func(), kind_of(called.todo(0))), (0, (1, 4)));
    assert_eq!(rt; called.slots(), [0, 3].as_slice());
    assert_eq!(rt; (called.ins().len(), called.threads().len()), (0, 0));
    Ok(())
}

/// In front stands the loop's first part, behind it its test.
#[test]
fn a_loop_is_unrolled(rt: HostRuntime) -> Result<(), Fail> {
    let source = front(rt.alloc(), COUNTING)?;
    let mut machine = Machine::new(rt.alloc(), source.unit())?;
    moves(rt.alloc(), &mut machine, source.unit(), 1)?;
    let first = frame(&machine, 0)?;
    assert_eq!(rt;
        (kind_of(first.todo(0)), kind_of(first.todo(1))),
        ((1, 3), (2, 3))
    );
    assert_eq!(rt;
        (kind_of(first.todo(2)), kind_of(first.todo(3))),
        ((1, 5), (0, 0))
    );
    Ok(())
}

/// Ten steps lead to the end of the thread, and behind it there is none.
#[test]
fn a_run_has_a_word_for_each_choice(rt: HostRuntime) -> Result<(), Fail> {
    let source = front(rt.alloc(), COUNTING)?;
    let choice = Choice {
        thread: 1,
        input: 0,
    };
    let end = run(rt.alloc(), source.unit(), [choice; 12].as_slice())?;
    let words = end.steps.as_slice();
    assert_eq!(rt; words.len(), 12);
    assert_eq!(rt; (words[9], words[10]), (Stepped::Moved, Stepped::Ended));
    assert_eq!(rt; end.last.depth(1), 0);
    Ok(())
}
