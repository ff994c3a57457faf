//! Readers of a global and of a point.
use constraint_sys::{ArgKey, Key, Unknown};
use dep_index::DepIndex;
use gob_tree::Memory;
use lockset_dom::Locks;
use std::alloc::Global;
use std::test::Fail;

const GLOBAL: Unknown = Unknown::Global(0);

/// The point of a node of the first function, where nothing is known of arguments and locks.
fn node(node: u16) -> Unknown {
    let key = Key {
        a: ArgKey::Absent,
        b: ArgKey::Absent,
        locks: Locks::empty(),
    };
    Unknown::Point { func: 0, key, node }
}

fn are_readers(index: &DepIndex, of: &Unknown, wanted: &[Unknown]) -> bool {
    index.readers(of) == wanted
}

/// The first node reads the global, the second one the global and the first node's point.
fn two_notes(alloc: Global) -> Result<DepIndex, Memory> {
    let mut index = DepIndex::new(alloc);
    index.note(alloc, node(1), &[GLOBAL])?;
    index.note(alloc, node(2), &[GLOBAL, node(1)])?;
    Ok(index)
}

#[test]
fn readers_are_those_that_were_noted(rt: HostRuntime) -> Result<(), Fail> {
    let index = two_notes(rt.alloc())?;
    assert!(rt; are_readers(&index, &GLOBAL, &[node(1), node(2)]));
    assert!(rt; are_readers(&index, &node(1), &[node(2)]));
    Ok(())
}

#[test]
fn a_note_takes_the_place_of_the_last_one(rt: HostRuntime) -> Result<(), Fail> {
    let mut index = two_notes(rt.alloc())?;
    index.note(rt.alloc(), node(1), &[])?;
    assert!(rt; are_readers(&index, &GLOBAL, &[node(2)]));
    Ok(())
}

#[test]
fn a_forgotten_reader_reads_nothing(rt: HostRuntime) -> Result<(), Fail> {
    let mut index = two_notes(rt.alloc())?;
    index.note(rt.alloc(), node(1), &[])?;
    index.forget(node(2));
    assert!(rt; are_readers(&index, &GLOBAL, &[]));
    assert!(rt; are_readers(&index, &node(1), &[]));
    Ok(())
}
