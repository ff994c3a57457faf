//! The grammar of GobPie's C profile: tokens to trees with names as written, or the first fault.
#![tactic(auto)]

mod clause;
mod declaration;
mod expr_text;
mod expression;
mod fault;
mod fault_of;
mod fixed;
mod head;
mod law;
mod raw;
mod simple;
mod statement;
mod stop;
mod terminal;
mod terminals;
mod unit;
mod unit_text;

pub use expr_text::{one_expression, parse_expr};
pub use fault::{ExprFault, ParseFault};
pub use law::{one_fault, one_unit};
pub use raw::{
    RawExpr, RawHead, RawItem, RawName, RawParam, RawPlaced, RawReturn, RawStmt, RawUnit,
};
pub use terminal::{Kind, Terminal};
pub use unit_text::parse;
