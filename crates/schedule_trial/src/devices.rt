//! Files and sinks that fail.
use crate::ran::{Faults, run_by, run_of};
use std::test::Fail;

const SMALL: &[u8] = b"int main(void) { return 0; }";

/// The load of the file is the first, that of the schedule the second; both are made.
#[test]
fn a_load_that_fails_is_told(rt: HostRuntime) -> Result<(), Fail> {
    for load in [1, 2] {
        let faults = Faults { load, write: 0 };
        let unread = run_of(rt.alloc(), ("one.c", "schedule"), SMALL, b"1 0", faults)?;
        assert_eq!(rt; unread.status, 3);
        assert_eq!(rt; unread.written.as_slice(), b"read fault\n".as_slice());
        assert_eq!(rt; unread.asked, 2);
    }
    Ok(())
}

/// Its lines have 25 bytes, which are 4 writes of at most 7.
#[test]
fn a_write_that_fails_leaves_a_prefix(rt: HostRuntime) -> Result<(), Fail> {
    let names = ("one.c", "schedule");
    let whole = run_by(rt.alloc(), SMALL, b"1 0")?;
    assert_eq!(rt; whole.status, 0);
    assert_eq!(rt;
        whole.written.as_slice(),
        b"1 1 moved\nthread 1 ended\n".as_slice()
    );
    for (write, sent) in [(1, 0), (2, 7), (3, 14), (4, 21)] {
        let faults = Faults { load: 0, write };
        let cut = run_of(rt.alloc(), names, SMALL, b"1 0", faults)?;
        assert_eq!(rt; cut.status, 4);
        assert_eq!(rt; cut.written.len(), sent);
        assert!(rt; whole.written.starts_with(cut.written.as_slice()));
    }
    Ok(())
}

/// A status whose line can't be written stays.
#[test]
fn a_line_that_can_not_be_written_changes_no_status(rt: HostRuntime) -> Result<(), Fail> {
    let faults = Faults { load: 0, write: 2 };
    let bad_line = run_of(rt.alloc(), ("one.c", "schedule"), SMALL, b"x", faults)?;
    assert_eq!(rt; bad_line.status, 11);
    assert_eq!(rt; bad_line.written.as_slice(), b"script ".as_slice());
    let faults = Faults { load: 0, write: 1 };
    let refused = run_of(rt.alloc(), ("one.c", "schedule"), b"", b"x", faults)?;
    assert_eq!(rt; refused.status, 5);
    assert!(rt; refused.written.is_empty());
    let unread = run_of(rt.alloc(), ("one.c", "no"), SMALL, b"x", faults)?;
    assert_eq!(rt; unread.status, 3);
    assert!(rt; unread.written.is_empty());
    Ok(())
}
