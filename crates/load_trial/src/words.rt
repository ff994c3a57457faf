//! Spellings of the words.
use crate::ran::run_of;
use std::test::Fail;

#[test]
fn the_same_words_otherwise_spelled(rt: HostRuntime) -> Result<(), Fail> {
    let first = run_of(rt.alloc(), &["load", "1", "--functions", "1"])?;
    let lists: [&[&str]; 4] = [
        &["load", "1", "--functions=1"],
        &["load", "--functions=1", "1"],
        &["load", "--functions", "00000001", "1"],
        &["load", "000000000000000001", "--functions", "1"],
    ];
    for list in lists {
        let other = run_of(rt.alloc(), list)?;
        assert_eq!(rt; other.status, 0);
        assert_eq!(rt; other.written.as_slice(), first.written.as_slice());
    }
    Ok(())
}

#[test]
fn words_without_a_reading_give_the_usage_line(rt: HostRuntime) -> Result<(), Fail> {
    let lists: [&[&str]; 9] = [
        &["load"],
        &["load", "one"],
        &["load", "-1"],
        &["load", "1", "2"],
        &["load", "1000000000000000000"],
        &["load", "1", "--functions"],
        &["load", "1", "--functions", "0"],
        &["load", "1", "--functions", "121"],
        &["load", "1", "--budget", "5"],
    ];
    for list in lists {
        let ran = run_of(rt.alloc(), list)?;
        assert_eq!(rt; ran.status, 2);
        let line = b"usage: gobpie analyse|run|replay|load|debug|serve\n";
        assert_eq!(rt; ran.written.as_slice(), line.as_slice());
    }
    Ok(())
}
