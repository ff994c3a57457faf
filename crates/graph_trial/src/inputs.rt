use crate::build_up::{X, Y, at, binary, drawn_body, drawn_one, g, h, int, set};
use crate::drawing::lines;
use gob_tree::{BinOp, Boxed, Expr, Seq, UnOp, Width};
use std::test::Fail;

// x = -g + __VERIFIER_nondet_int();
#[test]
fn two_inputs_from_left_to_right(rt: HostRuntime) -> Result<(), Fail> {
    let alloc = rt.alloc();
    let left = Expr::Unary(UnOp::Neg, Boxed::new(alloc, g())?);
    let sum = binary(alloc, BinOp::Add, left, Expr::Nondet(Width::W32))?;
    let wanted = [
        "nodes 1:5 9:1 2:3 3:3 2:3 2:3",
        "slots int int long int int",
        "0 skip -> 2, silent",
        "2 %3 = @0 -> 4",
        "4 %4 = ? -> 5",
        "5 %1 = (-%3 + %4) -> 3",
        "3 %0 = 0 -> 1",
    ];
    let wanted = lines(alloc, wanted.as_slice())?;
    let told = drawn_one(alloc, set(X, sum))?;
    assert_eq!(rt; told.as_str(), wanted.as_str());
    Ok(())
}

// y = h - __VERIFIER_nondet_long();
#[test]
fn two_long_inputs(rt: HostRuntime) -> Result<(), Fail> {
    let alloc = rt.alloc();
    let left = binary(alloc, BinOp::Sub, h(), Expr::Nondet(Width::W64))?;
    let wanted = [
        "nodes 1:5 9:1 2:3 3:3 2:3 2:3",
        "slots int int long long long",
        "0 skip -> 2, silent",
        "2 %3 = @1 -> 4",
        "4 %4 = ? -> 5",
        "5 %2 = (%3 - %4) -> 3",
        "3 %0 = 0 -> 1",
    ];
    let wanted = lines(alloc, wanted.as_slice())?;
    let told = drawn_one(alloc, set(Y, left))?;
    assert_eq!(rt; told.as_str(), wanted.as_str());
    Ok(())
}

// x = f1(f2(g), 4);
#[test]
fn a_call_in_a_call(rt: HostRuntime) -> Result<(), Fail> {
    let alloc = rt.alloc();
    let mut inner = Seq::new(alloc);
    inner.push(g())?;
    let mut args = Seq::new(alloc);
    args.push(Expr::Call(2, Width::W64, inner))?;
    args.push(int(4))?;
    let call = Expr::Call(1, Width::W32, args);
    let wanted = [
        "nodes 1:5 9:1 2:3 3:3 2:3 2:3 2:3",
        "slots int int long int long int",
        "0 skip -> 2, silent",
        "2 %3 = @0 -> 4",
        "4 %4 = call f2 %3 -> 5",
        "5 %5 = call f1 %4 4 -> 6",
        "6 %1 = %5 -> 3",
        "3 %0 = 0 -> 1",
    ];
    let wanted = lines(alloc, wanted.as_slice())?;
    let told = drawn_one(alloc, set(X, call))?;
    assert_eq!(rt; told.as_str(), wanted.as_str());
    Ok(())
}

// x = g; y = h; x = g + g; (each statement takes the least of the width from the first on)
#[test]
fn temporaries_are_taken_again(rt: HostRuntime) -> Result<(), Fail> {
    let alloc = rt.alloc();
    let mut body = Seq::new(alloc);
    body.push(at(2, 3, set(X, g())))?;
    body.push(at(3, 3, set(Y, h())))?;
    body.push(at(4, 3, set(X, binary(alloc, BinOp::Add, g(), g())?)))?;
    let wanted = [
        "nodes 1:5 9:1 2:3 3:3 2:3 4:3 3:3 4:3 4:3",
        "slots int int long int long int",
        "0 skip -> 2, silent",
        "2 %3 = @0 -> 4",
        "4 %1 = %3 -> 3",
        "3 %4 = @1 -> 6",
        "6 %2 = %4 -> 5",
        "5 %3 = @0 -> 7",
        "7 %5 = @0 -> 8",
        "8 %1 = (%3 + %5) -> 1",
    ];
    let wanted = lines(alloc, wanted.as_slice())?;
    let told = drawn_body(alloc, body)?;
    assert_eq!(rt; told.as_str(), wanted.as_str());
    Ok(())
}

// x = x && !y; (no input on the right, so it stands on the edge whole)
#[test]
fn an_and_without_inputs(rt: HostRuntime) -> Result<(), Fail> {
    let alloc = rt.alloc();
    let right = Expr::Unary(UnOp::Not, Boxed::new(alloc, Expr::Local(Y))?);
    let both = binary(alloc, BinOp::And, Expr::Local(X), right)?;
    let wanted = [
        "nodes 1:5 9:1 2:3 3:3",
        "slots int int long",
        "0 skip -> 2, silent",
        "2 %1 = (%1 && !%2) -> 3",
        "3 %0 = 0 -> 1",
    ];
    let wanted = lines(alloc, wanted.as_slice())?;
    let told = drawn_one(alloc, set(X, both))?;
    assert_eq!(rt; told.as_str(), wanted.as_str());
    Ok(())
}

// x = g || 4; (likewise)
#[test]
fn an_or_with_an_input_on_its_left(rt: HostRuntime) -> Result<(), Fail> {
    let alloc = rt.alloc();
    let either = binary(alloc, BinOp::Or, g(), int(4))?;
    let wanted = [
        "nodes 1:5 9:1 2:3 3:3 2:3",
        "slots int int long int",
        "0 skip -> 2, silent",
        "2 %3 = @0 -> 4",
        "4 %1 = (%3 || 4) -> 3",
        "3 %0 = 0 -> 1",
    ];
    let wanted = lines(alloc, wanted.as_slice())?;
    let told = drawn_one(alloc, set(X, either))?;
    assert_eq!(rt; told.as_str(), wanted.as_str());
    Ok(())
}

// x = g && h; (0 decides, anything else goes on to the right)
#[test]
fn an_and_with_inputs(rt: HostRuntime) -> Result<(), Fail> {
    let alloc = rt.alloc();
    let both = binary(alloc, BinOp::And, g(), h())?;
    let wanted = [
        "nodes 1:5 9:1 2:3 3:3 2:3 2:3 2:3 2:3 2:3",
        "slots int int long int int long",
        "0 skip -> 2, silent",
        "2 %3 = @0 -> 4",
        "4 if %3 -> 5, silent",
        "4 unless %3 -> 6, silent",
        "6 %4 = 0 -> 7, silent",
        "5 %5 = @1 -> 8",
        "8 %4 = (%5 != 0) -> 7, silent",
        "7 %1 = %4 -> 3",
        "3 %0 = 0 -> 1",
    ];
    let wanted = lines(alloc, wanted.as_slice())?;
    let told = drawn_one(alloc, set(X, both))?;
    assert_eq!(rt; told.as_str(), wanted.as_str());
    Ok(())
}

// x = x || g; (0 goes on to the right, anything else decides)
#[test]
fn an_or_with_an_input(rt: HostRuntime) -> Result<(), Fail> {
    let alloc = rt.alloc();
    let either = binary(alloc, BinOp::Or, Expr::Local(X), g())?;
    let wanted = [
        "nodes 1:5 9:1 2:3 3:3 2:3 2:3 2:3 2:3",
        "slots int int long int int",
        "0 skip -> 2, silent",
        "2 if %1 -> 4, silent",
        "2 unless %1 -> 5, silent",
        "4 %3 = 1 -> 6, silent",
        "5 %4 = @0 -> 7",
        "7 %3 = (%4 != 0) -> 6, silent",
        "6 %1 = %3 -> 3",
        "3 %0 = 0 -> 1",
    ];
    let wanted = lines(alloc, wanted.as_slice())?;
    let told = drawn_one(alloc, set(X, either))?;
    assert_eq!(rt; told.as_str(), wanted.as_str());
    Ok(())
}
