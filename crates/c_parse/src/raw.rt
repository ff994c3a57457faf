//! Trees with names as they are written.

mod expr;
mod stmt;
mod unit;

pub use expr::{RawExpr, RawName};
pub use stmt::{RawPlaced, RawReturn, RawStmt};
pub use unit::{RawHead, RawItem, RawParam, RawUnit};
