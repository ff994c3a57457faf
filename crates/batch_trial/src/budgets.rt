//! Budgets of turns.
use crate::ran::{NAME, NO_FAULTS, analysed, run_with};
use std::test::Fail;

const LOOP: &[u8] = b"int main(void) {
  int i = 0;
  while (i < 10) i++;
  return i;
}
";

/// Five nodes are dirty at first, so three turns, and four, can't end it.
#[test]
fn a_budget_that_does_not_suffice_is_spent(rt: HostRuntime) -> Result<(), Fail> {
    let rows: [(&[&str], &[u8]); 4] = [
        (&["analyse", NAME, "--budget", "3"], b"spent 3\n"),
        (&["analyse", "--budget", "3", NAME], b"spent 3\n"),
        (&["analyse", NAME, "--budget=4"], b"spent 4\n"),
        (&["analyse", NAME, "--budget", "00000001"], b"spent 1\n"),
    ];
    for (words, line) in rows {
        let spent = run_with(rt.alloc(), words, LOOP, NO_FAULTS)?;
        assert_eq!(rt; spent.status.number(), 7);
        assert_eq!(rt; spent.written.as_slice(), line);
    }
    Ok(())
}

/// No solution of it takes more than 450 turns, whatever their order.
#[test]
fn a_budget_that_suffices_gives_the_table(rt: HostRuntime) -> Result<(), Fail> {
    let table = analysed(rt.alloc(), LOOP)?;
    assert_eq!(rt; table.status.number(), 0);
    for words in [
        ["analyse", NAME, "--budget=450"],
        ["analyse", "--budget=450", NAME],
        ["analyse", NAME, "--budget=10000000"],
    ] {
        let ample = run_with(rt.alloc(), words.as_slice(), LOOP, NO_FAULTS)?;
        assert_eq!(rt; ample.status.number(), 0);
        assert_eq!(rt; ample.written.as_slice(), table.written.as_slice());
    }
    Ok(())
}

#[test]
fn words_without_a_reading_give_the_usage_line(rt: HostRuntime) -> Result<(), Fail> {
    let lists: [&[&str]; 8] = [
        &[],
        &["analyse"],
        &["analyse", NAME, NAME],
        &["analyse", NAME, "--budget=0"],
        &["analyse", NAME, "--budget=10000001"],
        &["analyse", NAME, "--budget"],
        &["solve", NAME],
        &["debug", NAME],
    ];
    for list in lists {
        let ran = run_with(rt.alloc(), list, LOOP, NO_FAULTS)?;
        assert_eq!(rt; ran.status.number(), 2);
        let line = b"usage: gobpie analyse|run|replay|load|debug|serve\n";
        assert_eq!(rt; ran.written.as_slice(), line.as_slice());
    }
    Ok(())
}
