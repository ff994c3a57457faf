//! Threads that step together.
use crate::texts::{TWICE, called, deep, from_both, point};
use arg_graph::Label;
use constraint_sys::ArgKey;
use edition_texts::{Way, shows};
use std::test::Fail;

#[test]
fn both_contexts_stand_at_a_line(rt: HostRuntime) -> Result<(), Fail> {
    let zero = deep(1, called(0, ArgKey::Zero, 2), (2, 3), 2);
    let any = deep(2, called(0, ArgKey::Any, 2), (2, 3), 2);
    assert!(rt; shows(rt.alloc(), TWICE, &from_both(1, &[]), &[zero, any])?);
    Ok(())
}

#[test]
fn an_edge_takes_both_contexts_along(rt: HostRuntime) -> Result<(), Fail> {
    let alloc = rt.alloc();
    let zero = deep(1, called(0, ArgKey::Zero, 1), (3, 1), 2);
    let any = deep(2, called(0, ArgKey::Any, 1), (3, 1), 2);
    let edge = [Way::By(Label::Do(1))];
    assert!(rt; shows(alloc, TWICE, &from_both(2, &edge), &[zero, any])?);
    assert!(rt; shows(alloc, TWICE, &from_both(1, &[Way::Next]), &[zero, any])?);
    Ok(())
}

// the callers wait at different calls
#[test]
fn leaving_takes_no_other_call_along(rt: HostRuntime) -> Result<(), Fail> {
    let alloc = rt.alloc();
    let leave = [Way::Next, Way::By(Label::Leave)];
    let first = deep(1, point(1, 4), (5, 3), 1);
    let second = deep(2, point(1, 7), (6, 3), 1);
    assert!(rt; shows(alloc, TWICE, &from_both(1, &leave), &[first])?);
    assert!(rt; shows(alloc, TWICE, &from_both(2, &leave), &[second])?);
    assert!(rt; shows(alloc, TWICE, &from_both(1, &[Way::Out]), &[first])?);
    assert!(rt; shows(alloc, TWICE, &from_both(2, &[Way::Out]), &[second])?);
    Ok(())
}
