//! What is printed of generated programs. A global is 0 at first, and then what a function of the last
//! text writes to it, so its interval ends at the greatest of these constants.
use crate::ran::run_of;
use std::test::Fail;

/// The one function is changed by each of the eight edits. That of number 1 writes 53 to g0 under the
/// mutex at first; that of 107 writes 64 to g0; that of 2 only reads; that of 26 writes 98 to g3, and
/// after 99 comes 0.
#[test]
fn eight_edits_of_the_one_function(rt: HostRuntime) -> Result<(), Fail> {
    let rows: [(&str, &[u8]); 4] = [
        (
            "1",
            b"functions 1 edits 8 published 9 breaches 0
global g0=[0,61]
global g1=[0,0]
global g2=[0,0]
global g3=[0,0]
",
        ),
        (
            "107",
            b"functions 1 edits 8 published 9 breaches 0
global g0=[0,72]
global g1=[0,0]
global g2=[0,0]
global g3=[0,0]
",
        ),
        (
            "2",
            b"functions 1 edits 8 published 9 breaches 0
global g0=[0,0]
global g1=[0,0]
global g2=[0,0]
global g3=[0,0]
",
        ),
        (
            "26",
            b"functions 1 edits 8 published 9 breaches 0
global g0=[0,0]
global g1=[0,0]
global g2=[0,0]
global g3=[0,6]
",
        ),
    ];
    for (number, lines) in rows {
        let ran = run_of(rt.alloc(), &["load", number, "--functions", "1"])?;
        assert_eq!(rt; ran.status, 0);
        assert_eq!(rt; ran.asked, 0);
        assert!(rt; ran.written.as_slice() == lines, "of {number}");
    }
    Ok(())
}

/// Both functions of number 259 write g0, at first 96 and 63. Each gets four edits: 100 is 0 again, so
/// that 67 is the greater one in the end.
#[test]
fn edits_go_round_the_functions(rt: HostRuntime) -> Result<(), Fail> {
    let ran = run_of(rt.alloc(), &["load", "259", "--functions", "2"])?;
    let lines = b"functions 2 edits 8 published 9 breaches 0
global g0=[0,67]
global g1=[0,0]
global g2=[0,0]
global g3=[0,0]
";
    assert_eq!(rt; ran.status, 0);
    assert!(rt; ran.written.as_slice() == lines.as_slice());
    Ok(())
}

#[test]
fn forty_functions_where_none_are_named(rt: HostRuntime) -> Result<(), Fail> {
    let ran = run_of(rt.alloc(), &["load", "1"])?;
    let lines = b"functions 40 edits 8 published 9 breaches 0
global g0=[0,69]
global g1=[0,83]
global g2=[0,99]
global g3=[0,69]
";
    assert_eq!(rt; ran.status, 0);
    assert!(rt; ran.written.as_slice() == lines.as_slice());
    Ok(())
}

#[test]
fn the_most_functions(rt: HostRuntime) -> Result<(), Fail> {
    let ran = run_of(rt.alloc(), &["load", "1", "--functions=120"])?;
    let lines = b"functions 120 edits 8 published 9 breaches 0
global g0=[0,98]
global g1=[0,96]
global g2=[0,99]
global g3=[0,99]
";
    assert_eq!(rt; ran.status, 0);
    assert!(rt; ran.written.as_slice() == lines.as_slice());
    Ok(())
}
