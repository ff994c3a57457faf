ghost use Rattle.std.specs.Prelude.{◌≡◌, IfOk, OnOk};
ghost use Rattle.constraint_sys.specs.Sound.{IsShaped};

use constraint_sys::{Table, Unknown};
use gob_tree::{Memory, Program};
use std::alloc::Global;

/// A table of the program without one of its unknowns; `Memory` is want of memory.
pub fn without(
    alloc: Global,
    program: &Program,
    table: &Table,
    gone: &Unknown,
) -> Result<Table, Memory>
    requires { IsShaped program.now table.now }
    ensures { IfOk result (λ rest. IsShaped program.now rest) }
{
    let mut rest = Table::new(alloc);
    for i in 0..table.len() {
        if let Some(u) = table.unknown(i) {
            if u != *gone {
                add(alloc, program, table, &mut rest, u)?;
            }
        }
    }
    Ok(rest)
}

/// Takes over the entry of an unknown, unless there is one already.
#[tactic(auto, using(crate::proofs::Shaping::shaped_push))]
fn add(
    alloc: Global,
    program: &Program,
    table: &Table,
    rest: &mut Table,
    u: Unknown,
) -> Result<(), Memory>
    requires table { IsShaped program.now table.now }
    requires rest { IsShaped program.now rest.old }
    ensures { OnOk result (IsShaped program.now rest.new) }
{
    if let Some(v) = table.get(&u) {
        if rest.get(&u).is_none() {
            rest.add(u, v.copy(alloc)?)?;
        }
    }
    Ok(())
}
