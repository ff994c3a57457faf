//! The nodes of lines.
use crate::texts::{HIDDEN, TWICE, bare};
use edition_texts::{Unanswered, resolves, stops_at};
use std::test::Fail;

#[test]
fn a_line_has_its_least_node(rt: HostRuntime) -> Result<(), Fail> {
    let alloc = rt.alloc();
    assert!(rt; resolves(alloc, TWICE, 1, Some((0, 0)))?);
    assert!(rt; resolves(alloc, TWICE, 2, Some((0, 2)))?);
    assert!(rt; resolves(alloc, TWICE, 3, Some((0, 1)))?);
    assert!(rt; resolves(alloc, TWICE, 4, Some((1, 0)))?);
    assert!(rt; resolves(alloc, TWICE, 6, Some((1, 3)))?);
    let one_line = b"int f(void) { return 1; } int main(void) { return f(); }";
    assert!(rt; resolves(alloc, one_line, 1, Some((0, 0)))?);
    Ok(())
}

#[test]
fn a_line_without_a_statement_has_none(rt: HostRuntime) -> Result<(), Fail> {
    let alloc = rt.alloc();
    assert!(rt; resolves(alloc, HIDDEN, 0, None)?);
    assert!(rt; resolves(alloc, HIDDEN, 1, None)?);
    assert!(rt; resolves(alloc, HIDDEN, 6, None)?);
    let asked = [bare(1)];
    assert!(rt; stops_at(alloc, HIDDEN, &asked, &[]).err() == Some(Unanswered::NoNode));
    Ok(())
}
