//! The functions of a program.
ghost use Rattle.std.specs.Prelude.{◌≡◌, ◌<◌, ◌≤◌, Some, length, slice_get};
ghost use Rattle.gob_tree.specs.Formed.{IsFormed, IsFormedFunction};

use gob_tree::{FuncGraph, Program};

/// A function of the program, by its number.
pub fn function_at(program: &Program, func: u16) -> &FuncGraph
    requires formed { IsFormed program.now }
    requires in_range { func < length program.now.funcs }
    ensures is { slice_get program.now.funcs func ≡ Some result.now }
    ensures formed { IsFormedFunction program.now result.now }
    ensures nodes_limit { length result.now.nodes ≤ 4096 }
{
    &program.funcs.as_slice()[func as usize]
}

/// The number of a function's slots.
pub(crate) fn room(function: &FuncGraph) -> u16
    requires { length function.now.slots ≤ 128 }
    ensures { result ≡ length function.now.slots }
{
    function.slots.len() as u16
}
