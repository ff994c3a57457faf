//! Steps by single edges.
use crate::texts::{
    BRANCH, LONE, READER, TWICE, alone, called, deep, first, from_both, of_thread, point,
};
use arg_graph::Label;
use constraint_sys::ArgKey;
use edition_texts::{Unanswered, Way, copies, offers, refusal, shows};
use std::test::Fail;

#[test]
fn the_entry_is_the_start_of_main(rt: HostRuntime) -> Result<(), Fail> {
    assert!(rt; shows(rt.alloc(), LONE, &first(&[]), &[alone(point(0, 0), (1, 5))])?);
    Ok(())
}

#[test]
fn refused_steps_say_why(rt: HostRuntime) -> Result<(), Fail> {
    let alloc = rt.alloc();
    let unknown = Some(Unanswered::UnknownThread);
    let not_offered = Some(Unanswered::NotOffered);
    let edge = [Way::By(Label::Do(0))];
    assert!(rt; refusal(alloc, LONE, &of_thread(9, &edge)) == unknown);
    assert!(rt; refusal(alloc, LONE, &of_thread(9, &[Way::Out])) == unknown);
    assert!(rt; refusal(alloc, LONE, &first(&[Way::By(Label::Do(5))])) == not_offered);
    assert!(rt; refusal(alloc, LONE, &first(&[Way::By(Label::Leave)])) == not_offered);
    assert!(rt; refusal(alloc, LONE, &first(&[Way::Out])) == not_offered);
    Ok(())
}

#[test]
fn a_copy_has_the_same_threads(rt: HostRuntime) -> Result<(), Fail> {
    let alloc = rt.alloc();
    assert!(rt; copies(alloc, TWICE, &first(&[Way::Next, Way::Into]))?);
    assert!(rt; copies(alloc, TWICE, &from_both(1, &[]))?);
    Ok(())
}

#[test]
fn a_branch_is_taken_either_way(rt: HostRuntime) -> Result<(), Fail> {
    let alloc = rt.alloc();
    let wanted: [(Label, &[u8]); 2] = [(Label::Do(2), b"x"), (Label::Do(3), b"!(x)")];
    assert!(rt; offers(alloc, BRANCH, &first(&[Way::Next, Way::Next]), &wanted)?);
    let into = [Way::Next, Way::Next, Way::By(Label::Do(2))];
    assert!(rt; shows(alloc, BRANCH, &first(&into), &[alone(point(0, 5), (1, 32))])?);
    let past = [Way::Next, Way::Next, Way::By(Label::Do(3))];
    assert!(rt; shows(alloc, BRANCH, &first(&past), &[alone(point(0, 4), (1, 39))])?);
    Ok(())
}

#[test]
fn a_call_is_gone_over_or_entered(rt: HostRuntime) -> Result<(), Fail> {
    let alloc = rt.alloc();
    let over = [Way::Next, Way::By(Label::Over(1))];
    assert!(rt; shows(alloc, TWICE, &first(&over), &[alone(point(1, 4), (5, 3))])?);
    let enter = [Way::Next, Way::By(Label::Enter(1))];
    let inside = deep(1, called(0, ArgKey::Zero, 0), (1, 5), 2);
    assert!(rt; shows(alloc, TWICE, &first(&enter), &[inside])?);
    Ok(())
}

#[test]
fn a_call_is_left_at_its_exit_alone(rt: HostRuntime) -> Result<(), Fail> {
    let alloc = rt.alloc();
    let behind = [alone(point(1, 4), (5, 3))];
    let body = [Way::Next, Way::Into, Way::Next];
    let leave = [Way::Next, Way::Into, Way::Next, Way::By(Label::Leave)];
    assert!(rt; refusal(alloc, TWICE, &first(&leave)) == Some(Unanswered::NotOffered));
    let exit = [Way::Next, Way::Into, Way::Next, Way::Next];
    let wanted: [(Label, &[u8]); 1] = [(Label::Leave, b"leave")];
    assert!(rt; offers(alloc, TWICE, &first(&exit), &wanted)?);
    let left = [
        Way::Next,
        Way::Into,
        Way::Next,
        Way::Next,
        Way::By(Label::Leave),
    ];
    assert!(rt; shows(alloc, TWICE, &first(&left), &behind)?);
    let out = [Way::Next, Way::Into, Way::Next, Way::Out];
    assert!(rt; shows(alloc, TWICE, &first(&out), &behind)?);
    let inside = deep(1, called(0, ArgKey::Zero, 2), (2, 3), 2);
    assert!(rt; shows(alloc, TWICE, &first(&body), &[inside])?);
    Ok(())
}

#[test]
fn a_started_thread_stands_alone(rt: HostRuntime) -> Result<(), Fail> {
    let alloc = rt.alloc();
    let at_create = [Way::Next, Way::Next];
    let wanted: [(Label, &[u8]); 2] = [
        (Label::Do(2), b"create w"),
        (Label::Thread(2), b"thread w"),
    ];
    assert!(rt; offers(alloc, READER, &first(&at_create), &wanted)?);
    let into = [Way::Next, Way::Next, Way::By(Label::Thread(2))];
    assert!(rt; shows(alloc, READER, &first(&into), &[alone(point(0, 0), (2, 7))])?);
    Ok(())
}
