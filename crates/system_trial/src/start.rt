use crate::texts::{LOOP, node};
use constraint_sys::{
    System, Value, function_at, initial, initial_value, main_start, main_start_value,
};
use solved_texts::job_of;
use std::test::Fail;

#[test]
fn all_nodes_but_the_start_are_dirty_at_first(rt: HostRuntime) -> Result<(), Fail> {
    let job = job_of(rt.alloc(), LOOP)?;
    let (_table, dirty) = initial(rt.alloc(), job.source.program())?;
    assert!(rt; !dirty.is_empty());
    assert!(rt; dirty.first() == Some(node(1, 1)));
    for n in 1..6 {
        assert!(rt; dirty.contains(&node(1, n)), "{n}");
    }
    assert!(rt; !dirty.contains(&node(1, 0)));
    Ok(())
}

#[test]
fn main_starts_with_zeros(rt: HostRuntime) -> Result<(), Fail> {
    let job = job_of(rt.alloc(), LOOP)?;
    let program = job.source.program();
    assert!(rt; main_start(program) == node(1, 0));
    match main_start_value(rt.alloc(), program)? {
        Value::State(s) => assert!(rt; !s.is_bottom() && s.room() == 2),
        Value::Number(_) => assert!(rt; false, "a number"),
    }
    Ok(())
}

#[test]
fn globals_start_with_their_numbers(rt: HostRuntime) -> Result<(), Fail> {
    let job = job_of(rt.alloc(), LOOP)?;
    for decl in job.source.program().globals.as_slice() {
        match initial_value(decl) {
            Value::Number(v) => assert!(rt; v.lo() == 9 && v.hi() == 9),
            Value::State(_) => assert!(rt; false, "a state"),
        }
    }
    Ok(())
}

#[test]
fn a_system_has_the_thresholds(rt: HostRuntime) -> Result<(), Fail> {
    let job = job_of(rt.alloc(), LOOP)?;
    let system = System::of(rt.alloc(), job.source.program())?;
    let wanted = [-2147483648, -1, 0, 1, 2, 6, 7, 8, 9, 10, 11, 2147483647];
    assert!(rt; system.thresholds().as_slice() == wanted.as_slice());
    Ok(())
}

#[test]
fn a_function_has_its_edges(rt: HostRuntime) -> Result<(), Fail> {
    let job = job_of(rt.alloc(), LOOP)?;
    let program = job.source.program();
    if program.funcs.len() > 1 {
        assert!(rt; function_at(program, 1).edges.len() == 6);
    }
    Ok(())
}
