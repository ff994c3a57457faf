use constraint_sys::{Dirty, Table, Unknown};
use std::test::Fail;

#[test]
fn an_empty_table_and_an_empty_set_hold_nothing(rt: HostRuntime) -> Result<(), Fail> {
    let alloc = rt.alloc();
    let table = Table::new(alloc);
    assert_eq!(rt; table.len(), 0);
    assert!(rt; table.get(&Unknown::Global(0)).is_none());
    assert_eq!(rt; table.copy(alloc)?.len(), 0);
    assert_eq!(rt; table.sorted(alloc)?.len(), 0);
    let dirty = Dirty::new(alloc);
    assert!(rt; dirty.is_empty());
    assert!(rt; !dirty.contains(&Unknown::Global(0)));
    assert!(rt; dirty.first().is_none());
    Ok(())
}
