use crate::build_up::{X, drawn_one, g, int, part, set, two};
use crate::drawing::lines;
use gob_tree::{Expr, Stmt};
use std::test::Fail;

// if (x) ;
#[test]
fn an_if(rt: HostRuntime) -> Result<(), Fail> {
    let alloc = rt.alloc();
    let yes = part(alloc, 10, Stmt::Empty)?;
    let wanted = [
        "nodes 1:5 9:1 2:3 3:3 2:10",
        "slots int int long",
        "0 skip -> 2, silent",
        "2 if %1 -> 4",
        "2 unless %1 -> 3",
        "4 skip -> 3",
        "3 %0 = 0 -> 1",
    ];
    let wanted = lines(alloc, wanted.as_slice())?;
    let told = drawn_one(alloc, Stmt::If(Expr::Local(X), yes, None))?;
    assert_eq!(rt; told.as_str(), wanted.as_str());
    Ok(())
}

// if (g) x = 1; else { x = 4; ; }
#[test]
fn an_if_and_an_else(rt: HostRuntime) -> Result<(), Fail> {
    let alloc = rt.alloc();
    let yes = part(alloc, 10, set(X, int(1)))?;
    let list = two(alloc, (24, set(X, int(4))), (31, Stmt::Empty))?;
    let no = part(alloc, 22, Stmt::Block(list))?;
    let wanted = [
        "nodes 1:5 9:1 2:3 3:3 2:3 2:10 2:24 2:31",
        "slots int int long int",
        "0 skip -> 2, silent",
        "2 %3 = @0 -> 4",
        "4 if %3 -> 5",
        "4 unless %3 -> 6",
        "5 %1 = 1 -> 3",
        "6 %1 = 4 -> 7",
        "7 skip -> 3",
        "3 %0 = 0 -> 1",
    ];
    let wanted = lines(alloc, wanted.as_slice())?;
    let told = drawn_one(alloc, Stmt::If(g(), yes, Some(no)))?;
    assert_eq!(rt; told.as_str(), wanted.as_str());
    Ok(())
}
