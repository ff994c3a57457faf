//! Files and sinks that fail.
use crate::ran::{Faults, NAME, NO_FAULTS, analysed, run_with};
use std::test::Fail;

const SMALL: &[u8] = b"int main(void) { return 0; }";

#[test]
fn failing_files_and_sinks_are_told(rt: HostRuntime) -> Result<(), Fail> {
    let words = ["analyse", NAME];
    let unread = run_with(rt.alloc(), &words, SMALL, Faults { load: 1, write: 0 })?;
    assert_eq!(rt; unread.status.number(), 3);
    assert_eq!(rt; unread.written.as_slice(), b"read fault\n".as_slice());
    let missing = run_with(rt.alloc(), &["analyse", "other.c"], SMALL, NO_FAULTS)?;
    assert_eq!(rt; missing.status.number(), 3);
    let unwritten = run_with(rt.alloc(), &words, SMALL, Faults { load: 0, write: 1 })?;
    assert_eq!(rt; unwritten.status.number(), 4);
    assert!(rt; unwritten.written.is_empty());
    Ok(())
}

/// Its table has 78 bytes, which are 12 writes of at most 7.
#[test]
fn a_later_write_that_fails_leaves_a_prefix(rt: HostRuntime) -> Result<(), Fail> {
    let whole = analysed(rt.alloc(), SMALL)?;
    for write in 1..13 {
        let faults = Faults { load: 0, write };
        let cut = run_with(rt.alloc(), &["analyse", NAME], SMALL, faults)?;
        assert_eq!(rt; cut.status.number(), 4, "write {write}");
        assert!(rt; whole.written.starts_with(cut.written.as_slice()));
    }
    Ok(())
}

/// The 13th call has the sink pass on the 12 writes.
#[test]
fn a_table_that_is_not_passed_on_is_a_write_fault(rt: HostRuntime) -> Result<(), Fail> {
    let whole = analysed(rt.alloc(), SMALL)?;
    let faults = Faults { load: 0, write: 13 };
    let held = run_with(rt.alloc(), &["analyse", NAME], SMALL, faults)?;
    assert_eq!(rt; held.status.number(), 4);
    assert_eq!(rt; held.written.as_slice(), whole.written.as_slice());
    Ok(())
}

/// A status whose line can't be written stays.
#[test]
fn a_line_that_can_not_be_written_changes_no_status(rt: HostRuntime) -> Result<(), Fail> {
    let no_write = Faults { load: 0, write: 1 };
    let refused = run_with(rt.alloc(), &["analyse", NAME], b"", no_write)?;
    assert_eq!(rt; refused.status.number(), 5);
    let usage = run_with(rt.alloc(), &["analyse"], b"", no_write)?;
    assert_eq!(rt; usage.status.number(), 2);
    let spent = run_with(
        rt.alloc(),
        &["analyse", NAME, "--budget=1"],
        SMALL,
        no_write,
    )?;
    assert_eq!(rt; spent.status.number(), 7);
    let unread = run_with(rt.alloc(), &["analyse", "no.c"], SMALL, no_write)?;
    assert_eq!(rt; unread.status.number(), 3);
    Ok(())
}
