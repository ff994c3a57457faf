//! Moves by statements.
use crate::texts::{
    ARBITRARY, BRANCH, LATER, LONE, LOOP, READER, TWICE, alone, called, deep, first, of_thread,
    point,
};
use arg_graph::Label;
use constraint_sys::ArgKey;
use edition_texts::{Unanswered, Way, holds, offers, refusal, shows};
use std::test::Fail;

#[test]
fn a_statement_that_reads_twice_is_one_move(rt: HostRuntime) -> Result<(), Fail> {
    let alloc = rt.alloc();
    let three = [Way::Next, Way::Next, Way::Next];
    assert!(rt; shows(alloc, READER, &first(&three), &[alone(point(1, 4), (6, 3))])?);
    let four = [Way::Next, Way::Next, Way::Next, Way::Next];
    assert!(rt; shows(alloc, READER, &first(&four), &[alone(point(1, 5), (7, 3))])?);
    assert!(rt; holds(alloc, READER, &first(&four), 1, (0, 2))?);
    Ok(())
}

#[test]
fn one_edge_of_it_stays_inside(rt: HostRuntime) -> Result<(), Fail> {
    let alloc = rt.alloc();
    let edge = [Way::Next, Way::Next, Way::Next, Way::By(Label::Do(3))];
    assert!(rt; shows(alloc, READER, &first(&edge), &[alone(point(1, 6), (6, 3))])?);
    assert!(rt; holds(alloc, READER, &first(&edge), 1, (0, 0))?);
    Ok(())
}

#[test]
fn a_branch_takes_no_side(rt: HostRuntime) -> Result<(), Fail> {
    let alloc = rt.alloc();
    let branching = Some(Unanswered::Branching);
    let two = [Way::Next, Way::Next];
    assert!(rt; shows(alloc, BRANCH, &first(&two), &[alone(point(0, 3), (1, 25))])?);
    let third = [Way::Next, Way::Next, Way::Next];
    assert!(rt; refusal(alloc, BRANCH, &first(&third)) == branching);
    let entry = [Way::Next, Way::Next, Way::Into];
    assert!(rt; refusal(alloc, BRANCH, &first(&entry)) == branching);
    Ok(())
}

#[test]
fn a_branch_in_a_statement_ends_the_move(rt: HostRuntime) -> Result<(), Fail> {
    let alloc = rt.alloc();
    let two = [Way::Next, Way::Next];
    assert!(rt;
        shows(
            alloc,
            ARBITRARY,
            &first(&two),
            &[alone(point(0, 4), (1, 18))]
        )?
    );
    let wanted: [(Label, &[u8]); 2] = [(Label::Do(2), b"$0"), (Label::Do(3), b"!($0)")];
    assert!(rt; offers(alloc, ARBITRARY, &first(&two), &wanted)?);
    let third = [Way::Next, Way::Next, Way::Next];
    assert!(rt; refusal(alloc, ARBITRARY, &first(&third)) == Some(Unanswered::Branching));
    Ok(())
}

#[test]
fn calls_are_gone_over(rt: HostRuntime) -> Result<(), Fail> {
    let alloc = rt.alloc();
    let two = [Way::Next, Way::Next];
    assert!(rt; shows(alloc, TWICE, &first(&two), &[alone(point(1, 3), (6, 3))])?);
    let three = [Way::Next, Way::Next, Way::Next];
    assert!(rt; shows(alloc, TWICE, &first(&three), &[alone(point(1, 5), (7, 3))])?);
    Ok(())
}

#[test]
fn the_first_call_on_the_way_is_entered(rt: HostRuntime) -> Result<(), Fail> {
    let alloc = rt.alloc();
    let at_once = deep(1, called(0, ArgKey::Zero, 0), (1, 5), 2);
    assert!(rt; shows(alloc, TWICE, &first(&[Way::Next, Way::Into]), &[at_once])?);
    let later = deep(1, called(0, ArgKey::Any, 0), (1, 5), 2);
    let third = [Way::Next, Way::Next, Way::Into];
    assert!(rt; shows(alloc, TWICE, &first(&third), &[later])?);
    Ok(())
}

#[test]
fn no_call_of_another_statement_is_entered(rt: HostRuntime) -> Result<(), Fail> {
    let alloc = rt.alloc();
    let wanted = [alone(point(1, 3), (4, 3))];
    assert!(rt; shows(alloc, LATER, &first(&[Way::Next, Way::Into]), &wanted)?);
    Ok(())
}

#[test]
fn a_return_ends_a_move(rt: HostRuntime) -> Result<(), Fail> {
    let alloc = rt.alloc();
    let exit = [Way::Next, Way::Into, Way::Next, Way::Next];
    let at_exit = deep(1, called(0, ArgKey::Zero, 1), (3, 1), 2);
    assert!(rt; shows(alloc, TWICE, &first(&exit), &[at_exit])?);
    let left = [Way::Next, Way::Into, Way::Next, Way::Next, Way::Next];
    assert!(rt; shows(alloc, TWICE, &first(&left), &[alone(point(1, 4), (5, 3))])?);
    Ok(())
}

#[test]
fn a_loop_is_gone_round_by_statements(rt: HostRuntime) -> Result<(), Fail> {
    let alloc = rt.alloc();
    let test = [alone(point(0, 2), (1, 18))];
    let body = [alone(point(0, 4), (1, 28))];
    assert!(rt; shows(alloc, LOOP, &first(&[Way::Next]), &test)?);
    assert!(rt; shows(alloc, LOOP, &first(&[Way::Next, Way::Next]), &body)?);
    let three = [Way::Next, Way::Next, Way::Next];
    assert!(rt; shows(alloc, LOOP, &first(&three), &test)?);
    Ok(())
}

#[test]
fn at_the_end_no_step_is_left(rt: HostRuntime) -> Result<(), Fail> {
    let alloc = rt.alloc();
    let two = [Way::Next, Way::Next];
    assert!(rt; shows(alloc, LONE, &first(&two), &[alone(point(0, 1), (1, 28))])?);
    let third = [Way::Next, Way::Next, Way::Next];
    assert!(rt; refusal(alloc, LONE, &first(&third)) == Some(Unanswered::NoStep));
    let entry = [Way::Next, Way::Next, Way::Into];
    assert!(rt; refusal(alloc, LONE, &first(&entry)) == Some(Unanswered::NoStep));
    Ok(())
}

#[test]
fn an_unknown_thread_makes_no_move(rt: HostRuntime) -> Result<(), Fail> {
    let alloc = rt.alloc();
    let unknown = Some(Unanswered::UnknownThread);
    assert!(rt; refusal(alloc, LONE, &of_thread(2, &[Way::Next])) == unknown);
    assert!(rt; refusal(alloc, LONE, &of_thread(2, &[Way::Into])) == unknown);
    Ok(())
}
