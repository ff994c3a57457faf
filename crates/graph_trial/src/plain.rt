use crate::build_up::{X, Y, at, binary, drawn_body, drawn_one, g, int, set, two};
use crate::drawing::lines;
use gob_tree::{BinOp, Boxed, Expr, Seq, Stmt, Target, Width};
use std::test::Fail;

// each is one edge from node 2 to node 3, the statement behind it
#[test]
fn one_edge_each(rt: HostRuntime) -> Result<(), Fail> {
    let alloc = rt.alloc();
    let long = Expr::Number(4, Width::W64);
    let write = Stmt::Assign(Target::Global(1), int(4));
    let call = Stmt::CallOnly(1, Seq::new(alloc));
    let mut rows = Seq::new(alloc);
    rows.push((Stmt::Declare(X, None), "2 %1 = ? -> 3"))?;
    rows.push((Stmt::Declare(Y, None), "2 %2 = ? -> 3"))?;
    rows.push((Stmt::Declare(X, Some(int(4))), "2 %1 = 4 -> 3"))?;
    rows.push((Stmt::DeclareThread(0), "2 skip -> 3"))?;
    rows.push((set(Y, long), "2 %2 = 4L -> 3"))?;
    rows.push((set(X, Expr::Local(Y)), "2 %1 = %2 -> 3"))?;
    rows.push((write, "2 @1 = 4 -> 3"))?;
    rows.push((call, "2 call f1 -> 3"))?;
    rows.push((Stmt::Create(0, 1), "2 create t0 f1 -> 3"))?;
    rows.push((Stmt::Join(1), "2 join t1 -> 3"))?;
    rows.push((Stmt::Lock(2), "2 lock 2 -> 3"))?;
    rows.push((Stmt::Unlock(3), "2 unlock 3 -> 3"))?;
    rows.push((Stmt::Assert(int(1)), "2 assert 1 -> 3"))?;
    rows.push((Stmt::Empty, "2 skip -> 3"))?;
    rows.push((Stmt::Block(Seq::new(alloc)), "2 skip -> 3"))?;
    for (stmt, edge) in rows.into_vec() {
        let wanted = [
            "nodes 1:5 9:1 2:3 3:3",
            "slots int int long",
            "0 skip -> 2, silent",
            edge,
            "3 %0 = 0 -> 1",
        ];
        let wanted = lines(alloc, wanted.as_slice())?;
        let told = drawn_one(alloc, stmt)?;
        assert_eq!(rt; told.as_str(), wanted.as_str());
    }
    Ok(())
}

// one input into a temporary int, before the edge that the statement has
#[test]
fn one_input_each(rt: HostRuntime) -> Result<(), Fail> {
    let alloc = rt.alloc();
    let sum = binary(alloc, BinOp::Add, g(), int(1))?;
    let below = binary(alloc, BinOp::Lt, Expr::Local(X), g())?;
    let mut args = Seq::new(alloc);
    args.push(g())?;
    args.push(Expr::Local(Y))?;
    let mut rows = Seq::new(alloc);
    rows.push((Stmt::Declare(X, Some(g())), "4 %1 = %3 -> 3"))?;
    rows.push((Stmt::Assign(Target::Global(1), sum), "4 @1 = (%3 + 1) -> 3"))?;
    rows.push((Stmt::Assert(below), "4 assert (%1 < %3) -> 3"))?;
    rows.push((Stmt::CallOnly(1, args), "4 call f1 %3 %2 -> 3"))?;
    for (stmt, edge) in rows.into_vec() {
        let wanted = [
            "nodes 1:5 9:1 2:3 3:3 2:3",
            "slots int int long int",
            "0 skip -> 2, silent",
            "2 %3 = @0 -> 4",
            edge,
            "3 %0 = 0 -> 1",
        ];
        let wanted = lines(alloc, wanted.as_slice())?;
        let told = drawn_one(alloc, stmt)?;
        assert_eq!(rt; told.as_str(), wanted.as_str());
    }
    Ok(())
}

// return; and return g; lead to the exit
#[test]
fn returns(rt: HostRuntime) -> Result<(), Fail> {
    let alloc = rt.alloc();
    let mut body = Seq::new(alloc);
    body.push(at(2, 3, Stmt::Return(None)))?;
    let wanted = [
        "nodes 1:5 9:1 2:3",
        "slots int int long",
        "0 skip -> 2, silent",
        "2 skip -> 1",
    ];
    let wanted = lines(alloc, wanted.as_slice())?;
    let told = drawn_body(alloc, body)?;
    assert_eq!(rt; told.as_str(), wanted.as_str());
    let mut body = Seq::new(alloc);
    body.push(at(2, 3, Stmt::Return(Some(g()))))?;
    let wanted = [
        "nodes 1:5 9:1 2:3 2:3",
        "slots int int long int",
        "0 skip -> 2, silent",
        "2 %3 = @0 -> 3",
        "3 %0 = %3 -> 1",
    ];
    let wanted = lines(alloc, wanted.as_slice())?;
    let told = drawn_body(alloc, body)?;
    assert_eq!(rt; told.as_str(), wanted.as_str());
    Ok(())
}

// { int x = 4; { ; y = x; } }
#[test]
fn blocks(rt: HostRuntime) -> Result<(), Fail> {
    let alloc = rt.alloc();
    let inner = two(alloc, (18, Stmt::Empty), (20, set(Y, Expr::Local(X))))?;
    let first = Stmt::Declare(X, Some(int(4)));
    let outer = two(alloc, (5, first), (16, Stmt::Block(inner)))?;
    let wanted = [
        "nodes 1:5 9:1 2:5 3:3 2:18 2:20",
        "slots int int long",
        "0 skip -> 2, silent",
        "2 %1 = 4 -> 4",
        "4 skip -> 5",
        "5 %2 = %1 -> 3",
        "3 %0 = 0 -> 1",
    ];
    let wanted = lines(alloc, wanted.as_slice())?;
    let told = drawn_one(alloc, Stmt::Block(outer))?;
    assert_eq!(rt; told.as_str(), wanted.as_str());
    Ok(())
}

// int main(void) { int x = 0; while (x < 10) x++; return x; }, its statements in lines 2 to 4
#[test]
fn counting(rt: HostRuntime) -> Result<(), Fail> {
    let alloc = rt.alloc();
    let test = binary(alloc, BinOp::Lt, Expr::Local(X), int(10))?;
    let next = binary(alloc, BinOp::Add, Expr::Local(X), int(1))?;
    let mut body = Seq::new(alloc);
    body.push(at(2, 3, Stmt::Declare(X, Some(int(0)))))?;
    let step = Boxed::new(alloc, at(3, 18, set(X, next)))?;
    body.push(at(3, 3, Stmt::While(test, step)))?;
    body.push(at(4, 3, Stmt::Return(Some(Expr::Local(X)))))?;
    let wanted = [
        "nodes 1:5 9:1 2:3 3:3 4:3 3:18",
        "slots int int long",
        "0 skip -> 2, silent",
        "2 %1 = 0 -> 3",
        "3 if (%1 < 10) -> 5",
        "3 unless (%1 < 10) -> 4",
        "5 %1 = (%1 + 1) -> 3",
        "4 %0 = %1 -> 1",
    ];
    let wanted = lines(alloc, wanted.as_slice())?;
    let told = drawn_body(alloc, body)?;
    assert_eq!(rt; told.as_str(), wanted.as_str());
    Ok(())
}
