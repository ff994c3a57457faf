//! Texts of expressions, each with its tree or its refusal.

use c_parse::{ExprFault, RawExpr, parse_expr};
use gob_tree::{BinOp, UnOp, Width};
use std::test::Fail;

fn is_refused(rt: HostRuntime, text: &[u8]) -> bool {
    matches!(
        parse_expr(rt.alloc(), text),
        Err(ExprFault::NotAnExpression)
    )
}

fn is_binary(expr: &RawExpr, wanted: BinOp) -> bool {
    match expr {
        RawExpr::Binary(op, _, _) => *op == wanted,
        _ => false,
    }
}

/// Whether a text is the operator over an expression of the second operator and a third.
fn has_left(rt: HostRuntime, text: &[u8], outer: BinOp, inner: BinOp) -> bool {
    match parse_expr(rt.alloc(), text) {
        Ok(RawExpr::Binary(op, left, _)) => op == outer && is_binary(left.get(), inner),
        _ => false,
    }
}

fn has_right(rt: HostRuntime, text: &[u8], outer: BinOp, inner: BinOp) -> bool {
    match parse_expr(rt.alloc(), text) {
        Ok(RawExpr::Binary(op, _, right)) => op == outer && is_binary(right.get(), inner),
        _ => false,
    }
}

#[test]
fn operators_group_by_level_and_to_the_left(rt: HostRuntime) {
    assert!(rt; has_left(rt, b"a - b - c", BinOp::Sub, BinOp::Sub));
    assert!(rt; has_left(rt, b"a / b * c", BinOp::Mul, BinOp::Div));
    assert!(rt; has_right(rt, b"a + b % c", BinOp::Add, BinOp::Rem));
    assert!(rt; has_right(rt, b"a < b + c", BinOp::Lt, BinOp::Add));
    assert!(rt; has_right(rt, b"a == b >= c", BinOp::Eq, BinOp::Ge));
    assert!(rt; has_right(rt, b"a && b != c", BinOp::And, BinOp::Ne));
    assert!(rt; has_right(rt, b"a || b && c", BinOp::Or, BinOp::And));
    assert!(rt; has_left(rt, b"(a || b) <= c", BinOp::Le, BinOp::Or));
    assert!(rt; has_right(rt, b"+a > +(b - c)", BinOp::Gt, BinOp::Sub));
}

#[test]
fn a_prefix_binds_tighter_than_an_operator(rt: HostRuntime) -> Result<(), Fail> {
    match parse_expr(rt.alloc(), b"!a == 2147483648") {
        Ok(RawExpr::Binary(BinOp::Eq, left, right)) => {
            assert!(rt; matches!(left.get(), RawExpr::Unary(UnOp::Not, _)));
            assert!(rt; matches!(right.get(), RawExpr::Number(2_147_483_648, Width::W64)));
            Ok(())
        }
        _ => Err(Fail::from("the text is an expression")),
    }
}

#[test]
fn what_is_no_expression(rt: HostRuntime) {
    assert!(rt; is_refused(rt, b""));
    assert!(rt; is_refused(rt, b"a +"));
    assert!(rt; is_refused(rt, b"a b"));
    assert!(rt; is_refused(rt, b"(a"));
    assert!(rt; is_refused(rt, b"a)"));
    assert!(rt; is_refused(rt, b"f(a)"));
    assert!(rt; is_refused(rt, b"a++"));
    assert!(rt; is_refused(rt, b"a = 1"));
    assert!(rt; is_refused(rt, b"goto"));
    assert!(rt; is_refused(rt, b"NULL"));
    assert!(rt; is_refused(rt, b"007"));
    assert!(rt; is_refused(rt, b"1 + __VERIFIER_nondet_long"));
    assert!(rt; is_refused(rt, b"__VERIFIER_nondet_int"));
}
