use constraint_sys::System;
use gob_tree::Memory;
use solved_texts::{Unsolved, job_of};
use std::alloc::Global;
use std::test::Fail;

/// Edges of `main`, the only function: 0 from 0 to 2; 1 `i = 0` to 3; 2 and 3 the guards, to 5 and to
/// 4; 4 `i = i + 1` from 5 to 3; 5 the return from 4 to 1.
const LOOP: &[u8] = b"int main(void) {
  int i = 0;
  while (i < 10) i++;
  return i;
}
";

fn system_of_loop(alloc: Global) -> Result<System, Unsolved> {
    let job = job_of(alloc, LOOP)?;
    match System::of(alloc, job.source.program()) {
        Ok(system) => Ok(system),
        Err(Memory) => Err(Unsolved::Memory),
    }
}

#[test]
fn edges_are_found_by_their_end(rt: HostRuntime) -> Result<(), Fail> {
    let system = system_of_loop(rt.alloc())?;
    assert!(rt; System::into(&system, 0, 3) == [1, 4].as_slice());
    assert!(rt; System::into(&system, 0, 0).is_empty());
    Ok(())
}

#[test]
fn edges_are_found_by_their_beginning(rt: HostRuntime) -> Result<(), Fail> {
    let system = system_of_loop(rt.alloc())?;
    assert!(rt; system.out_of(0, 3) == [2, 3].as_slice());
    assert!(rt; system.out_of(0, 1).is_empty());
    assert!(rt; system.out_of(9, 0).is_empty(), "no such function");
    Ok(())
}
