//! The node at which a line of a text is.
ghost use Rattle.std.specs.Prelude.{◌≡◌, ◌≤◌, ℕ, IfNone, IfSome, length};
ghost use Rattle.gob_tree.specs.Formed.{IsFormed};
ghost use Rattle.breakpoint_eval.specs.Lines.{IsLeastOn, StandsIn, StandsOn};

use constraint_sys::function_at;
use gob_tree::{FuncGraph, Program};

/// The least function, and in it the least node, whose place has this line, counted from 1; `None`
/// exactly where no node's has.
pub fn resolve(program: &Program, line: u32) -> Option<(u16, u16)>
    requires { IsFormed program.now }
    ensures found { IfSome result (λ at. IsLeastOn program.now line at.0 at.1) }
    ensures none { IfNone result ((f node : ℕ) → ¬ StandsOn program.now line f node) }
{
    for func in 0..program.funcs.len() {
        let func = func as u16;
        if let Some(node) = node_on(function_at(program, func), line) {
            return Some((func, node));
        }
    }
    None
}

/// The first node of a function whose place has a line.
fn node_on(function: &FuncGraph, line: u32) -> Option<u16>
    requires { length function.now.nodes ≤ 4096 }
    ensures found { IfSome result (λ node. StandsIn function.now line node) }
    ensures least { (other : ℕ) → IfSome result (λ node. StandsIn function.now line other → node ≤ other) }
    ensures none { (other : ℕ) → IfNone result (¬ StandsIn function.now line other) }
{
    for (node, place) in function.nodes.as_slice().iter().enumerate() {
        if place.line == line {
            return Some(node as u16);
        }
    }
    None
}
