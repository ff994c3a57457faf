//! Watched expressions.
use crate::texts::{HIDDEN, TWICE, in_f, in_main};
use arg_graph::Vertex;
use constraint_sys::ArgKey;
use edition_texts::{Unanswered, watched};
use std::alloc::Global;
use std::test::Fail;

#[test]
fn a_context_has_its_own_intervals(rt: HostRuntime) -> Result<(), Fail> {
    let alloc = rt.alloc();
    let zero = Some(in_f(ArgKey::Zero));
    let any = Some(in_f(ArgKey::Any));
    assert!(rt; watched(alloc, TWICE, zero, b"n")? == Some((0, 0)));
    assert!(rt; watched(alloc, TWICE, any, b"n")? == Some((-2147483648, 2147483647)));
    assert!(rt; watched(alloc, TWICE, zero, b"n > 0")? == Some((0, 0)));
    assert!(rt; watched(alloc, TWICE, any, b"n > 0")? == Some((0, 1)));
    assert!(rt; watched(alloc, TWICE, any, b"10 / n")? == Some((-10, 10)));
    Ok(())
}

#[test]
fn an_expression_without_a_value_has_no_interval(rt: HostRuntime) -> Result<(), Fail> {
    let alloc = rt.alloc();
    assert!(rt; watched(alloc, TWICE, Some(in_f(ArgKey::Zero)), b"10 / n")?.is_none());
    assert!(rt; watched(alloc, TWICE, None, b"1 / 0")?.is_none());
    assert!(rt; watched(alloc, HIDDEN, Some(in_main(0, 3)), b"x / (x - 3)")?.is_none());
    Ok(())
}

#[test]
fn names_are_locals_first(rt: HostRuntime) -> Result<(), Fail> {
    let alloc = rt.alloc();
    let at = Some(in_main(0, 3));
    assert!(rt; watched(alloc, HIDDEN, at, b"x")? == Some((3, 3)));
    assert!(rt; watched(alloc, HIDDEN, None, b"x")? == Some((7, 7)));
    assert!(rt; watched(alloc, HIDDEN, None, b"x / (x - 3)")? == Some((1, 1)));
    Ok(())
}

/// Whether an expression has a name that nothing there has.
fn has_unknown_name(alloc: Global, text: &[u8], v: Option<Vertex>, expression: &[u8]) -> bool {
    match watched(alloc, text, v, expression) {
        Ok(_) => false,
        Err(why) => why == Unanswered::Name,
    }
}

#[test]
fn an_unknown_name_is_told(rt: HostRuntime) -> Result<(), Fail> {
    let alloc = rt.alloc();
    assert!(rt; has_unknown_name(alloc, TWICE, Some(in_f(ArgKey::Any)), b"q"));
    assert!(rt; has_unknown_name(alloc, TWICE, Some(in_f(ArgKey::Any)), b"0 && q"));
    assert!(rt; has_unknown_name(alloc, TWICE, None, b"n"));
    assert!(rt; has_unknown_name(alloc, HIDDEN, Some(in_main(0, 3)), b"y"));
    Ok(())
}
