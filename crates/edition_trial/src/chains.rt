use crate::texts::{TWICE, WORKER, called, point, top, waiting};
use crate::{has_chain, stands_at};
use constraint_sys::ArgKey;
use std::test::Fail;

#[test]
fn a_thread_begins_a_chain(rt: HostRuntime) -> Result<(), Fail> {
    let alloc = rt.alloc();
    assert!(rt; has_chain(alloc, WORKER, point(0, 3), &[top(point(0, 3))]));
    assert!(rt; has_chain(alloc, WORKER, point(1, 6), &[top(point(1, 6))]));
    assert!(rt; has_chain(alloc, WORKER, point(0, 9), &[]));
    Ok(())
}

#[test]
fn each_context_has_its_own_caller_below(rt: HostRuntime) -> Result<(), Fail> {
    let alloc = rt.alloc();
    let zero = [waiting(point(1, 2), 1), top(called(0, ArgKey::Zero, 2))];
    let any = [waiting(point(1, 6), 4), top(called(0, ArgKey::Any, 2))];
    assert!(rt; has_chain(alloc, TWICE, called(0, ArgKey::Zero, 2), &zero));
    assert!(rt; has_chain(alloc, TWICE, called(0, ArgKey::Any, 2), &any));
    assert!(rt; stands_at(alloc, TWICE, 1, 6, 6));
    Ok(())
}

// g is called from f, which the first call in `main` enters, and straight from `main`, later
#[test]
fn the_shorter_chain_is_taken(rt: HostRuntime) -> Result<(), Fail> {
    let text = b"int g(void) { return 1; }
int f(void) { return g(); }
int main(void) { int a = f(); int b = g(); return a; }";
    let wanted = [waiting(point(2, 3), 3), top(point(0, 2))];
    assert!(rt; has_chain(rt.alloc(), text, point(0, 2), &wanted));
    Ok(())
}

#[test]
fn the_first_of_two_calls_is_taken(rt: HostRuntime) -> Result<(), Fail> {
    let text = b"int f(void) { return 1; }
int main(void) { int a = f(); int b = f(); return a; }";
    let wanted = [waiting(point(1, 2), 1), top(point(0, 2))];
    assert!(rt; has_chain(rt.alloc(), text, point(0, 2), &wanted));
    Ok(())
}
