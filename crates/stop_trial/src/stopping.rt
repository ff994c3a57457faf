//! Breakpoints with and without conditions.
use crate::texts::{HIDDEN, NINE, TWICE, bare, in_f, in_main, three, where_holds};
use arg_graph::Vertex;
use constraint_sys::ArgKey;
use edition_texts::{Unanswered, stops_at};
use std::alloc::Global;
use std::test::Fail;

/// Whether a breakpoint of a line with a condition has one stop at just these vertices.
fn is_at(
    alloc: Global,
    text: &[u8],
    line: u32,
    cond: &[u8],
    wanted: &[Vertex],
) -> Result<bool, Unanswered> {
    stops_at(alloc, text, &[where_holds(line, cond)], &[(0, wanted)])
}

/// Whether a breakpoint of a line with a condition has no stop.
fn is_nowhere(alloc: Global, text: &[u8], line: u32, cond: &[u8]) -> Result<bool, Unanswered> {
    stops_at(alloc, text, &[where_holds(line, cond)], &[])
}

#[test]
fn a_condition_keeps_the_contexts_where_it_may_hold(rt: HostRuntime) -> Result<(), Fail> {
    let alloc = rt.alloc();
    let both = [in_f(ArgKey::Zero), in_f(ArgKey::Any)];
    assert!(rt; stops_at(alloc, TWICE, &[bare(2)], &[(0, &both)])?);
    let same: [&[u8]; 5] = [
        b"n > 0",
        b"0 < n",
        b"n + 0 > 0",
        b"!(n <= 0)",
        b"10 / n > 2",
    ];
    for cond in same {
        assert!(rt; is_at(alloc, TWICE, 2, cond, &[in_f(ArgKey::Any)])?);
    }
    assert!(rt; is_at(alloc, TWICE, 2, b"n < 1", &both)?);
    Ok(())
}

#[test]
fn breaks_keep_their_numbers(rt: HostRuntime) -> Result<(), Fail> {
    let asked = [
        where_holds(2, b"n > 0"),
        where_holds(2, b"n == 2147483648"),
        bare(7),
    ];
    let any = [in_f(ArgKey::Any)];
    let last = [in_main(1, 5)];
    assert!(rt; stops_at(rt.alloc(), TWICE, &asked, &[(0, &any), (2, &last)])?);
    Ok(())
}

#[test]
fn unknown_names_hold_nowhere(rt: HostRuntime) -> Result<(), Fail> {
    let alloc = rt.alloc();
    assert!(rt; is_nowhere(alloc, TWICE, 2, b"q > 0")?);
    assert!(rt; is_nowhere(alloc, TWICE, 2, b"1 || q")?);
    // a is a local of `main`, and f is a function
    assert!(rt; is_nowhere(alloc, TWICE, 2, b"a == 0")?);
    assert!(rt; is_nowhere(alloc, TWICE, 2, b"f == f")?);
    // a is a mutex
    assert!(rt; is_nowhere(alloc, NINE, 4, b"a + 1")?);
    Ok(())
}

#[test]
fn what_is_no_expression_is_told(rt: HostRuntime) -> Result<(), Fail> {
    let alloc = rt.alloc();
    let no_expressions: [&[u8]; 5] = [b"", b"n >", b"n = 1", b"f(n)", b"__VERIFIER_nondet_int()"];
    for cond in no_expressions {
        let told = is_nowhere(alloc, TWICE, 2, cond).err();
        assert!(rt; told == Some(Unanswered::NotAnExpression));
    }
    Ok(())
}

#[test]
fn a_local_hides_a_global(rt: HostRuntime) -> Result<(), Fail> {
    let alloc = rt.alloc();
    let at = [in_main(0, 3)];
    assert!(rt; is_at(alloc, HIDDEN, 4, b"x == 3", &at)?);
    assert!(rt; is_at(alloc, HIDDEN, 4, b"x + 0 == 3", &at)?);
    assert!(rt; is_nowhere(alloc, HIDDEN, 4, b"x == 7")?);
    assert!(rt; is_nowhere(alloc, HIDDEN, 4, b"x + 0 == 7")?);
    Ok(())
}

#[test]
fn nine_contexts_stop(rt: HostRuntime) -> Result<(), Fail> {
    let zeros = three(ArgKey::Zero);
    let ones = three(ArgKey::One);
    let any = three(ArgKey::Any);
    let all = [
        zeros[0], zeros[1], zeros[2], ones[0], ones[1], ones[2], any[0], any[1], any[2],
    ];
    assert!(rt; stops_at(rt.alloc(), NINE, &[bare(4)], &[(0, &all)])?);
    Ok(())
}

// the first of each pair is decided for all vertices at once, the second vertex by vertex
#[test]
fn six_of_nine_contexts_stop(rt: HostRuntime) -> Result<(), Fail> {
    let alloc = rt.alloc();
    let ones = three(ArgKey::One);
    let any = three(ArgKey::Any);
    let six = [ones[0], ones[1], ones[2], any[0], any[1], any[2]];
    let ways: [&[u8]; 8] = [
        b"n > 0",
        b"n + 0 > 0",
        b"n >= 1",
        b"n + 0 >= 1",
        b"0 != n",
        b"0 != n + 0",
        b"1 == n",
        b"n",
    ];
    for cond in ways {
        assert!(rt; is_at(alloc, NINE, 4, cond, &six)?);
    }
    Ok(())
}

#[test]
fn other_six_stop(rt: HostRuntime) -> Result<(), Fail> {
    let alloc = rt.alloc();
    let zeros = three(ArgKey::Zero);
    let any = three(ArgKey::Any);
    let six = [zeros[0], zeros[1], zeros[2], any[0], any[1], any[2]];
    let ways: [&[u8]; 8] = [
        b"n < 1",
        b"n + 0 < 1",
        b"1 > n",
        b"1 > n + 0",
        b"n <= 0",
        b"n + 0 <= 0",
        b"n == 0",
        b"n + 0 == 0",
    ];
    for cond in ways {
        assert!(rt; is_at(alloc, NINE, 4, cond, &six)?);
    }
    Ok(())
}

#[test]
fn three_of_nine_contexts_stop(rt: HostRuntime) -> Result<(), Fail> {
    let alloc = rt.alloc();
    let any = three(ArgKey::Any);
    let ways: [&[u8]; 4] = [b"n > 1", b"n + 0 > 1", b"-5 >= n", b"n + 0 == 2147483647"];
    for cond in ways {
        assert!(rt; is_at(alloc, NINE, 4, cond, &any)?);
    }
    let none: [&[u8]; 2] = [b"n > 2147483647", b"n + 0 > 2147483647"];
    for cond in none {
        assert!(rt; is_nowhere(alloc, NINE, 4, cond)?);
    }
    Ok(())
}
