//! A loop whose run is stopped after some turns.
use crate::run_of;
use std::alloc::Global;
use std::test::Fail;
use td_solver::Progress;

/// It has five nodes other than 0, all dirty at first, so that no three turns end it. No run of it takes
/// more than 450 turns, whatever their order.
const LOOP: &[u8] = b"int main(void) {
  int i = 0;
  while (i < 10) i++;
  return i;
}
";

/// The turns of a run that is dirty after so many more and that `finish` then gives back; `None` where
/// it isn't dirty or is finished.
fn given_back_after(alloc: Global, turns: u64) -> Option<usize> {
    let mut run = run_of(alloc, LOOP)?;
    if run.advance(alloc, turns) != Progress::Dirty {
        return None;
    }
    match run.finish() {
        Ok(_) => None,
        Err(back) => Some(back.trace().len()),
    }
}

/// The progress of a run that was given back and then goes on, with whether it can then be finished.
fn ended_after(alloc: Global, turns: u64, more: u64) -> Option<(Progress, bool)> {
    let mut run = run_of(alloc, LOOP)?;
    let _dirty = run.advance(alloc, turns);
    let Err(mut back) = run.finish() else {
        return None;
    };
    let progress = back.advance(alloc, more);
    Some((progress, back.finish().is_ok()))
}

#[test]
fn a_dirty_run_is_not_finished_but_given_back(rt: HostRuntime) -> Result<(), Fail> {
    for turns in [0_u64, 2, 3] {
        assert!(rt; given_back_after(rt.alloc(), turns) == Some(turns as usize));
    }
    assert!(rt; given_back_after(rt.alloc(), 450).is_none());
    Ok(())
}

#[test]
fn a_run_that_was_given_back_goes_on(rt: HostRuntime) -> Result<(), Fail> {
    assert!(rt; ended_after(rt.alloc(), 2, 1) == Some((Progress::Dirty, false)));
    assert!(rt; ended_after(rt.alloc(), 2, 450) == Some((Progress::Clean, true)));
    Ok(())
}
