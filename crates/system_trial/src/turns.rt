use crate::texts::{LOOP, node};
use constraint_sys::Value;
use solved_texts::{given_to, job_of, risen_by, turned};
use std::test::Fail;

// the node behind the start of main, whose edge from it is the only one
#[test]
fn a_point_gets_what_its_edges_give(rt: HostRuntime) -> Result<(), Fail> {
    let job = job_of(rt.alloc(), LOOP)?;
    match given_to(rt.alloc(), &job, &node(1, 2))? {
        Some(given) => {
            assert!(rt; !given.value.is_bottom());
            assert!(rt; given.effects.is_empty());
            assert!(rt; given.reads.as_slice() == [node(1, 0)].as_slice());
        }
        None => assert!(rt; false, "not dirty"),
    }
    Ok(())
}

#[test]
fn a_point_rises_where_its_edges_are_reached(rt: HostRuntime) -> Result<(), Fail> {
    let job = job_of(rt.alloc(), LOOP)?;
    let behind = risen_by(rt.alloc(), &job, &node(1, 2))?;
    assert!(rt; behind.as_slice() == [node(1, 2)].as_slice());
    let later = risen_by(rt.alloc(), &job, &node(1, 3))?;
    assert!(rt; later.is_empty());
    Ok(())
}

#[test]
fn a_turn_raises_its_point_and_wakes_its_readers(rt: HostRuntime) -> Result<(), Fail> {
    let mut job = job_of(rt.alloc(), LOOP)?;
    let first = node(1, 2);
    assert!(rt; turned(rt.alloc(), &mut job, &first)?);
    assert!(rt; !job.dirty.contains(&first));
    assert!(rt; job.dirty.contains(&node(1, 3)));
    match job.table.get(&first) {
        Some(Value::State(state)) => assert!(rt; !state.is_bottom()),
        _ => assert!(rt; false, "no state"),
    }
    Ok(())
}
