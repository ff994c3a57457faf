//! `main`'s start and the globals.
ghost use Rattle.std.specs.Prelude.{◌≡◌, ◌++◌, ◌∷◌, ◌≤◌, [], OnOk, filter, length};
ghost use Rattle.gob_tree.specs.Formed.{IsFormed};
ghost use Rattle.constraint_sys.specs.Carry.{with_roots};
ghost use Rattle.constraint_sys.specs.Turn.{initial_globals, is_absent};

use constraint_sys::{Table, Unknown, Value, initial_value, main_start, main_start_value};
use gob_tree::{GlobalDecl, Memory, Program};
use std::alloc::Global;

/// Adds `main`'s start and each global that is absent, with what they begin with.
pub(crate) fn add_roots(alloc: Global, program: &Program, table: &mut Table) -> Result<(), Memory>
    requires { IsFormed program.now }
    ensures { OnOk result (table.new ≡ with_roots program.now table.old) }
{
    let value = main_start_value(alloc, program)?;
    add_absent(table, main_start(program), value)?;
    add_globals(table, program.globals.as_slice())
}

/// Adds each global that is absent.
fn add_globals(table: &mut Table, globals: &[GlobalDecl]) -> Result<(), Memory>
    requires { length globals.now ≤ 64 }
    ensures { OnOk result (table.new ≡ table.old ++ filter (is_absent table.old) (initial_globals 0 globals.now)) }
{
    let count = globals.len() as u16;
    for g in 0..count {
        add_absent(
            table,
            Unknown::Global(g),
            initial_value(&globals[g as usize]),
        )?;
    }
    Ok(())
}

fn add_absent(table: &mut Table, u: Unknown, value: Value) -> Result<(), Memory>
    ensures { OnOk result (table.new ≡ table.old ++ filter (is_absent table.old) ((u, value) ∷ [])) }
{
    if table.get(&u).is_none() {
        table.add(u, value)?;
    }
    Ok(())
}
