use crate::texts::{TWICE, WORKER, called, point, step};
use crate::{at_node, goes_on, offers, reads};
use arg_graph::{Label, Step};
use constraint_sys::ArgKey;
use std::test::Fail;

#[test]
fn a_create_offers_itself_and_its_thread(rt: HostRuntime) -> Result<(), Fail> {
    let alloc = rt.alloc();
    let wanted = [step(Label::Do(2), 1, 4), step(Label::Thread(2), 0, 0)];
    assert!(rt; offers(alloc, WORKER, point(1, 3), &wanted));
    assert!(rt; reads(alloc, WORKER, 1, Label::Do(2), b"create work"));
    assert!(rt; reads(alloc, WORKER, 1, Label::Thread(2), b"thread work"));
    Ok(())
}

#[test]
fn a_call_is_gone_over_before_it_is_entered(rt: HostRuntime) -> Result<(), Fail> {
    let alloc = rt.alloc();
    let label = Label::Enter(1);
    let to = called(0, ArgKey::Zero, 0);
    let wanted = [step(Label::Over(1), 1, 4), Step { label, to }];
    assert!(rt; offers(alloc, TWICE, point(1, 2), &wanted));
    assert!(rt; reads(alloc, TWICE, 1, label, b"into f(0)"));
    assert!(rt; goes_on(alloc, TWICE, point(1, 2), 1, Some(point(1, 4))));
    assert!(rt; goes_on(alloc, TWICE, point(1, 2), 0, None));
    Ok(())
}

#[test]
fn a_call_that_never_returns_is_entered_alone(rt: HostRuntime) -> Result<(), Fail> {
    let alloc = rt.alloc();
    let text = b"int f(void) { while (1) ; return 0; } int main(void) { int x = f(); return x; }";
    assert!(rt; offers(alloc, text, point(1, 2), &[step(Label::Enter(1), 0, 0)]));
    assert!(rt; goes_on(alloc, text, point(1, 2), 1, None));
    Ok(())
}

#[test]
fn what_is_not_reached_is_no_vertex(rt: HostRuntime) -> Result<(), Fail> {
    let alloc = rt.alloc();
    let text = b"int main(void) { if (0) return 1; return 0; }";
    assert!(rt; offers(alloc, text, point(0, 2), &[step(Label::Do(2), 0, 3)]));
    assert!(rt; offers(alloc, text, point(0, 4), &[]));
    assert!(rt; at_node(alloc, text, 0, 4, &[]));
    Ok(())
}

// the context that arises first comes last
#[test]
fn the_vertices_at_a_node_are_in_order(rt: HostRuntime) -> Result<(), Fail> {
    let text = b"int f(int n) { return n; }
int main(void) { int a = f(__VERIFIER_nondet_int()); int b = f(0); return b; }";
    let wanted = [called(0, ArgKey::Zero, 2), called(0, ArgKey::Any, 2)];
    assert!(rt; at_node(rt.alloc(), text, 0, 2, &wanted));
    Ok(())
}
