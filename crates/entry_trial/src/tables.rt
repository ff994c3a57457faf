use constraint_sys::{ArgKey, Key, Table, Unknown};
use gob_tree::Memory;
use lockset_dom::Locks;
use solved_texts::solved;
use std::alloc::Global;
use std::test::Fail;

/// Nodes 0, the exit 1, and the body's 2.
const SHORT: &[u8] = b"int g = 9;
int main(void) { return g; }";

fn node(node: u16) -> Unknown {
    let key = Key {
        a: ArgKey::Absent,
        b: ArgKey::Absent,
        locks: Locks::empty(),
    };
    Unknown::Point { func: 0, key, node }
}

// globals come behind points, and points by their nodes
#[test]
fn unknowns_are_told_in_their_order(rt: HostRuntime) -> Result<(), Fail> {
    let run = solved(rt.alloc(), SHORT)?;
    let sorted = run.table().sorted(rt.alloc())?;
    assert!(rt;
        sorted.as_slice() == [node(0), node(1), node(2), node(3), Unknown::Global(0)].as_slice()
    );
    Ok(())
}

#[test]
fn a_copy_has_as_many_entries(rt: HostRuntime) -> Result<(), Fail> {
    let run = solved(rt.alloc(), SHORT)?;
    let copy = run.table().copy(rt.alloc())?;
    assert!(rt; copy.len() == 5);
    assert!(rt; copy.unknown(0) == Some(node(0)));
    assert!(rt; copy.unknown(5).is_none());
    Ok(())
}

/// A table of one entry of another one, where it is there.
fn alone(alloc: Global, table: &Table, u: Unknown) -> Result<Table, Memory> {
    let mut one = Table::new(alloc);
    if let Some(value) = table.get(&u) {
        one.add(u, value.copy(alloc)?)?;
    }
    Ok(one)
}

#[test]
fn an_entry_is_added(rt: HostRuntime) -> Result<(), Fail> {
    let run = solved(rt.alloc(), SHORT)?;
    let one = alone(rt.alloc(), run.table(), node(1))?;
    assert!(rt; one.len() == 1);
    assert!(rt; one.get(&node(1)).is_some());
    Ok(())
}
