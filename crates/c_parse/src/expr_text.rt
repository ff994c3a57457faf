//! The expressions of a debugger's questions.

ghost use Rattle.std.specs.Prelude.{◌≡◌, ℕ, List, IfOk, IsErrOf};
ghost use Rattle.c_lex.specs.Tokens.{AreTokens};
ghost use Rattle.c_parse.specs.Expression.{IsExpression, expr_fault, is_arbitrary, is_plain};
ghost use Rattle.c_parse.specs.declared.fault.ExprFault.TheVariants.{NotAnExpression};
ghost use Rattle.c_parse.specs.declared.raw.expr.RawExpr.{RawExpr as RawExprValue};

use crate::expression::{TOP, level};
use crate::fault::ExprFault;
use crate::raw::RawExpr;
use crate::stop::Stop;
use crate::terminals::terminals_of;
use c_lex::{LexFault, Token, lex, one_cut};
use gob_tree::Text;
use std::alloc::Global;

fn is_arbitrary(name: &Text) -> bool
    ensures { result ≡ is_arbitrary name.now }
{
    let name = name.as_bytes();
    name == b"__VERIFIER_nondet_int".as_slice() || name == b"__VERIFIER_nondet_long".as_slice()
}

/// Whether an expression has no call and no arbitrary number.
fn is_plain(expr: &RawExpr) -> bool
    ensures { result ≡ is_plain expr.now }
{
    match expr {
        RawExpr::Number(_, _) => true,
        RawExpr::Name(name) => !is_arbitrary(&name.text),
        RawExpr::Unary(_, a) => is_plain(a.get()),
        RawExpr::Binary(_, a, b) => is_plain(a.get()) && is_plain(b.get()),
        RawExpr::Call(_, _) => false,
    }
}

/// The expression that the tokens of a text spell.
#[tactic(auto, using(crate::proofs::Expressions::is_given))]
fn expr_of(alloc: Global, text: &[u8], tokens: &[Token]) -> Result<RawExpr, ExprFault>
    requires { AreTokens text.now tokens.now }
    ensures found { IfOk result (λ e. IsExpression text.now e) }
    ensures not_one { IsErrOf result NotAnExpression → (e : RawExprValue) → IsExpression text.now e → ⊥ }
{
    one_cut();
    let terminals = terminals_of(alloc, text, tokens)?;
    let all = terminals.as_slice();
    match level(alloc, TOP, 0, all) {
        Ok((expr, rest, _)) => {
            if rest.is_empty() {
                if is_plain(&expr) {
                    return Ok(expr);
                }
                return Err(ExprFault::NotAnExpression);
            }
            Err(ExprFault::NotAnExpression)
        }
        Err(Stop::At(_, _)) => Err(ExprFault::NotAnExpression),
        Err(Stop::Memory) => Err(ExprFault::Memory),
    }
}

/// A text that has no tokens is no expression.
fn expr_fault(fault: LexFault) -> ExprFault
    ensures { result ≡ expr_fault fault }
{
    match fault {
        LexFault::Memory => ExprFault::Memory,
        _ => ExprFault::NotAnExpression,
    }
}

/// The expression that a text is, by the grammar of expressions and its limit of 64 operators,
/// prefixes and parentheses; it has no calls, and so no arbitrary numbers.
///
/// # Errors
///
/// `NotAnExpression` for every other text, and `Memory` for want of memory.
pub fn parse_expr(alloc: Global, text: &[u8]) -> Result<RawExpr, ExprFault>
    ensures found { IfOk result (λ e. IsExpression text.now e) }
    ensures not_one { IsErrOf result NotAnExpression → (e : RawExprValue) → IsExpression text.now e → ⊥ }
{
    one_cut();
    match lex(alloc, text) {
        Ok(tokens) => expr_of(alloc, text, tokens.as_slice()),
        Err(fault) => Err(expr_fault(fault)),
    }
}

/// A text is one expression at most.
pub fn one_expression()
    ensures { (text : List ℕ) (a b : RawExprValue) → IsExpression text a → IsExpression text b → a ≡ b }
{
    one_cut();
}
