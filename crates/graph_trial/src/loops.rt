use crate::build_up::{X, Y, at, binary, drawn_one, g, int, part, set, two};
use crate::drawing::lines;
use gob_tree::{BinOp, Expr, Seq, Stmt};
use std::test::Fail;

// while (g) x = 4; (the body goes back to the test with its input)
#[test]
fn a_while(rt: HostRuntime) -> Result<(), Fail> {
    let alloc = rt.alloc();
    let body = part(alloc, 13, set(X, int(4)))?;
    let wanted = [
        "nodes 1:5 9:1 2:3 3:3 2:3 2:13",
        "slots int int long int",
        "0 skip -> 2, silent",
        "2 %3 = @0 -> 4",
        "4 if %3 -> 5",
        "4 unless %3 -> 3",
        "5 %1 = 4 -> 2",
        "3 %0 = 0 -> 1",
    ];
    let wanted = lines(alloc, wanted.as_slice())?;
    let told = drawn_one(alloc, Stmt::While(g(), body))?;
    assert_eq!(rt; told.as_str(), wanted.as_str());
    Ok(())
}

// while (x) break;
#[test]
fn a_while_and_a_break(rt: HostRuntime) -> Result<(), Fail> {
    let alloc = rt.alloc();
    let body = part(alloc, 13, Stmt::Break)?;
    let wanted = [
        "nodes 1:5 9:1 2:3 3:3 2:13",
        "slots int int long",
        "0 skip -> 2, silent",
        "2 if %1 -> 4",
        "2 unless %1 -> 3",
        "4 skip -> 3",
        "3 %0 = 0 -> 1",
    ];
    let wanted = lines(alloc, wanted.as_slice())?;
    let told = drawn_one(alloc, Stmt::While(Expr::Local(X), body))?;
    assert_eq!(rt; told.as_str(), wanted.as_str());
    Ok(())
}

// while (x) { while (g) break; continue; }
#[test]
fn a_while_in_a_while(rt: HostRuntime) -> Result<(), Fail> {
    let alloc = rt.alloc();
    let leave = part(alloc, 25, Stmt::Break)?;
    let list = two(alloc, (15, Stmt::While(g(), leave)), (32, Stmt::Continue))?;
    let body = part(alloc, 13, Stmt::Block(list))?;
    let wanted = [
        "nodes 1:5 9:1 2:3 3:3 2:15 2:32 2:15 2:25",
        "slots int int long int",
        "0 skip -> 2, silent",
        "2 if %1 -> 4",
        "2 unless %1 -> 3",
        "4 %3 = @0 -> 6",
        "6 if %3 -> 7",
        "6 unless %3 -> 5",
        "7 skip -> 5",
        "5 skip -> 2",
        "3 %0 = 0 -> 1",
    ];
    let wanted = lines(alloc, wanted.as_slice())?;
    let told = drawn_one(alloc, Stmt::While(Expr::Local(X), body))?;
    assert_eq!(rt; told.as_str(), wanted.as_str());
    Ok(())
}

// do x = 4; while (g); (it starts where its body does)
#[test]
fn a_do(rt: HostRuntime) -> Result<(), Fail> {
    let alloc = rt.alloc();
    let body = part(alloc, 6, set(X, int(4)))?;
    let wanted = [
        "nodes 1:5 9:1 2:6 3:3 2:3 2:3",
        "slots int int long int",
        "0 skip -> 2, silent",
        "2 %1 = 4 -> 4",
        "4 %3 = @0 -> 5",
        "5 if %3 -> 2",
        "5 unless %3 -> 3",
        "3 %0 = 0 -> 1",
    ];
    let wanted = lines(alloc, wanted.as_slice())?;
    let told = drawn_one(alloc, Stmt::DoWhile(body, g()))?;
    assert_eq!(rt; told.as_str(), wanted.as_str());
    Ok(())
}

// do continue; while (x);
#[test]
fn a_do_and_a_continue(rt: HostRuntime) -> Result<(), Fail> {
    let alloc = rt.alloc();
    let body = part(alloc, 6, Stmt::Continue)?;
    let wanted = [
        "nodes 1:5 9:1 2:6 3:3 2:3",
        "slots int int long",
        "0 skip -> 2, silent",
        "2 skip -> 4",
        "4 if %1 -> 2",
        "4 unless %1 -> 3",
        "3 %0 = 0 -> 1",
    ];
    let wanted = lines(alloc, wanted.as_slice())?;
    let told = drawn_one(alloc, Stmt::DoWhile(body, Expr::Local(X)))?;
    assert_eq!(rt; told.as_str(), wanted.as_str());
    Ok(())
}

// do break; while (x);
#[test]
fn a_do_and_a_break(rt: HostRuntime) -> Result<(), Fail> {
    let alloc = rt.alloc();
    let body = part(alloc, 6, Stmt::Break)?;
    let wanted = [
        "nodes 1:5 9:1 2:6 3:3 2:3",
        "slots int int long",
        "0 skip -> 2, silent",
        "2 skip -> 3",
        "4 if %1 -> 2",
        "4 unless %1 -> 3",
        "3 %0 = 0 -> 1",
    ];
    let wanted = lines(alloc, wanted.as_slice())?;
    let told = drawn_one(alloc, Stmt::DoWhile(body, Expr::Local(X)))?;
    assert_eq!(rt; told.as_str(), wanted.as_str());
    Ok(())
}

// for (x = 0; x < g; x = 4) continue; (it starts where its first part does)
#[test]
fn a_whole_for(rt: HostRuntime) -> Result<(), Fail> {
    let alloc = rt.alloc();
    let mut first = Seq::new(alloc);
    first.push(at(2, 8, set(X, int(0))))?;
    let test = binary(alloc, BinOp::Lt, Expr::Local(X), g())?;
    let last = part(alloc, 22, set(X, int(4)))?;
    let body = part(alloc, 29, Stmt::Continue)?;
    let wanted = [
        "nodes 1:5 9:1 2:8 3:3 2:3 2:3 2:29 2:22",
        "slots int int long int",
        "0 skip -> 2, silent",
        "2 %1 = 0 -> 4",
        "4 %3 = @0 -> 5",
        "5 if (%1 < %3) -> 6",
        "5 unless (%1 < %3) -> 3",
        "6 skip -> 7",
        "7 %1 = 4 -> 4",
        "3 %0 = 0 -> 1",
    ];
    let wanted = lines(alloc, wanted.as_slice())?;
    let told = drawn_one(alloc, Stmt::For(first, Some(test), Some(last), body))?;
    assert_eq!(rt; told.as_str(), wanted.as_str());
    Ok(())
}

// for (x = 0, y = 4; x; ) break;
#[test]
fn a_for_with_two_first_parts(rt: HostRuntime) -> Result<(), Fail> {
    let alloc = rt.alloc();
    let first = two(alloc, (8, set(X, int(0))), (15, set(Y, int(4))))?;
    let body = part(alloc, 25, Stmt::Break)?;
    let wanted = [
        "nodes 1:5 9:1 2:8 3:3 2:3 2:15 2:25 2:3",
        "slots int int long",
        "0 skip -> 2, silent",
        "2 %1 = 0 -> 5",
        "5 %2 = 4 -> 4",
        "4 if %1 -> 6",
        "4 unless %1 -> 3",
        "6 skip -> 3",
        "7 skip -> 4, silent",
        "3 %0 = 0 -> 1",
    ];
    let wanted = lines(alloc, wanted.as_slice())?;
    let told = drawn_one(alloc, Stmt::For(first, Some(Expr::Local(X)), None, body))?;
    assert_eq!(rt; told.as_str(), wanted.as_str());
    Ok(())
}

// for (;;) ;
#[test]
fn a_bare_for(rt: HostRuntime) -> Result<(), Fail> {
    let alloc = rt.alloc();
    let body = part(alloc, 12, Stmt::Empty)?;
    let wanted = [
        "nodes 1:5 9:1 2:3 3:3 2:3 2:12 2:3",
        "slots int int long",
        "0 skip -> 2, silent",
        "2 skip -> 4, silent",
        "4 if 1 -> 5",
        "4 unless 1 -> 3",
        "5 skip -> 6",
        "6 skip -> 4, silent",
        "3 %0 = 0 -> 1",
    ];
    let wanted = lines(alloc, wanted.as_slice())?;
    let told = drawn_one(alloc, Stmt::For(Seq::new(alloc), None, None, body))?;
    assert_eq!(rt; told.as_str(), wanted.as_str());
    Ok(())
}
