//! Schedules that have a bad line, and which of several faults is told.
use crate::ran::{NO_FAULTS, run_by, run_of};
use std::test::Fail;

const SMALL: &[u8] = b"int main(void) { return 0; }";

/// Its one fault is the name in column 25.
const WRONG: &[u8] = b"int main(void) { return y; }";

#[test]
fn an_empty_schedule_has_no_choices(rt: HostRuntime) -> Result<(), Fail> {
    let ended = run_by(rt.alloc(), SMALL, b"")?;
    assert_eq!(rt; ended.status, 0);
    assert_eq!(rt;
        ended.written.as_slice(),
        b"thread 1 main 1:18\n".as_slice()
    );
    Ok(())
}

/// Of a schedule with a bad line no choice is made.
#[test]
fn the_first_bad_line_is_told(rt: HostRuntime) -> Result<(), Fail> {
    let rows: [(&[u8], &[u8]); 12] = [
        (b"1 0\nx", b"script 2\n"),
        (b"1 0\n\n1 0\n", b"script 2\n"),
        (b"\n", b"script 1\n"),
        (b"1 0\n1  0\nx", b"script 2\n"),
        (b"1 0 \n", b"script 1\n"),
        (b"1\n", b"script 1\n"),
        (b"-1 0\n", b"script 1\n"),
        (b"1 +1\n", b"script 1\n"),
        (b"1 0\r\n", b"script 1\n"),
        (b"1234567890 0\n", b"script 1\n"),
        (b"1 9223372036854775808\n", b"script 1\n"),
        (b"1 0\n1 0\n1 00000000000000000000\n", b"script 3\n"),
    ];
    for (schedule, line) in rows {
        let refused = run_by(rt.alloc(), SMALL, schedule)?;
        assert_eq!(rt; refused.status, 11);
        assert_eq!(rt; refused.written.as_slice(), line);
    }
    Ok(())
}

/// Leading zeros, the greatest numbers and a last line without its LF.
#[test]
fn lines_that_have_the_form_are_taken(rt: HostRuntime) -> Result<(), Fail> {
    let rows: [(&[u8], &[u8]); 4] = [
        (b"000000001 -0", b"1 1 moved\nthread 1 ended\n"),
        (
            b"999999999 9223372036854775807\n",
            b"1 999999999 none\nthread 1 main 1:18\n",
        ),
        (
            b"2 -9223372036854775808\n",
            b"1 2 none\nthread 1 main 1:18\n",
        ),
        (
            b"0 0000000000000000000\n",
            b"1 0 none\nthread 1 main 1:18\n",
        ),
    ];
    for (schedule, lines) in rows {
        let ended = run_by(rt.alloc(), SMALL, schedule)?;
        assert_eq!(rt; ended.status, 0);
        assert_eq!(rt; ended.written.as_slice(), lines);
    }
    Ok(())
}

/// A schedule of LF alone is bad at its first line, unless it is too long.
#[test]
fn a_longer_schedule_is_told_by_line_0(rt: HostRuntime) -> Result<(), Fail> {
    let mut schedule = vec![in rt.alloc(); b'\n'; 4_194_304]?;
    let most = run_by(rt.alloc(), SMALL, schedule.as_slice())?;
    assert_eq!(rt; most.status, 11);
    assert_eq!(rt; most.written.as_slice(), b"script 1\n".as_slice());
    schedule.push(b'\n')?;
    let more = run_by(rt.alloc(), SMALL, schedule.as_slice())?;
    assert_eq!(rt; more.status, 11);
    assert_eq!(rt; more.written.as_slice(), b"script 0\n".as_slice());
    Ok(())
}

/// What is wrong with the source comes before the schedule's bad line, and a file that isn't there
/// before both.
#[test]
fn of_several_faults_the_first_is_told(rt: HostRuntime) -> Result<(), Fail> {
    let both = run_by(rt.alloc(), WRONG, b"x")?;
    assert_eq!(rt; both.status, 5);
    assert_eq!(rt;
        both.written.as_slice(),
        b"refused 1:25 Undeclared\n".as_slice()
    );
    assert_eq!(rt; both.asked, 2);
    for names in [("one.c", "no"), ("no.c", "schedule"), ("no.c", "no")] {
        let unread = run_of(rt.alloc(), names, WRONG, b"x", NO_FAULTS)?;
        assert_eq!(rt; unread.status, 3);
        assert_eq!(rt; unread.written.as_slice(), b"read fault\n".as_slice());
        assert_eq!(rt; unread.asked, 2);
    }
    Ok(())
}

#[test]
fn a_longer_text_is_refused_before_the_schedule(rt: HostRuntime) -> Result<(), Fail> {
    let text = vec![in rt.alloc(); b' '; 65_537]?;
    let both = run_by(rt.alloc(), text.as_slice(), b"x")?;
    assert_eq!(rt; both.status, 5);
    assert_eq!(rt;
        both.written.as_slice(),
        b"refused 1:1 TooLong\n".as_slice()
    );
    Ok(())
}
