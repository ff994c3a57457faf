//! Sinks that fail.
use crate::ran::{run_of, run_with};
use std::test::Fail;

const WORDS: [&str; 4] = ["load", "1", "--functions", "1"];

/// Its lines have 108 bytes, which are 16 writes of at most 7.
#[test]
fn a_write_that_fails_leaves_a_prefix(rt: HostRuntime) -> Result<(), Fail> {
    let whole = run_of(rt.alloc(), &WORDS)?;
    assert_eq!(rt; whole.status, 0);
    assert_eq!(rt; whole.written.len(), 108);
    for (write, sent) in [(1, 0), (2, 7), (9, 56), (16, 105)] {
        let cut = run_with(rt.alloc(), &WORDS, 1000, write)?;
        assert_eq!(rt; cut.status, 4);
        assert_eq!(rt; cut.written.len(), sent);
        assert!(rt; whole.written.starts_with(cut.written.as_slice()));
    }
    Ok(())
}

/// A sink without room for the last line.
#[test]
fn a_full_device_leaves_a_prefix(rt: HostRuntime) -> Result<(), Fail> {
    let whole = run_of(rt.alloc(), &WORDS)?;
    let cut = run_with(rt.alloc(), &WORDS, 92, 0)?;
    assert_eq!(rt; cut.status, 4);
    assert_eq!(rt; cut.written.len(), 92);
    assert!(rt; whole.written.starts_with(cut.written.as_slice()));
    Ok(())
}
