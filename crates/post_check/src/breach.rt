//! The first breach of a table.
ghost use Rattle.std.specs.Prelude.{◌≡◌, ◌↔◌, IfOk, IfSome, MatchOption, None};
ghost use Rattle.gob_tree.specs.Formed.{IsFormed};
ghost use Rattle.constraint_sys.specs.Breach.{BreaksAt, IsFirstBreach};
ghost use Rattle.constraint_sys.specs.Index.{IsSystemOf};
ghost use Rattle.constraint_sys.specs.PostSolution.{IsPostSolution};
ghost use Rattle.constraint_sys.specs.Sound.{IsShaped};
ghost use Rattle.constraint_sys.specs.Table.{IsThere};
ghost use Rattle.post_check.specs.Unbroken.{HasItsNodes, IsFirstOfTable, IsUnbroken, IsWhole};

use crate::missing::{missing_root, new_missing_node};
use crate::unbounded::unbounded;
use constraint_sys::{System, Table, Unknown};
use gob_tree::{Memory, Program};
use std::alloc::Global;

/// Where a table isn't a post-solution: the unknown, and what it fails for, which is a missing root, the
/// unknown's least missing node, the unknown itself, or the target of an effect.
#[derive(Clone, Copy, Debug, PartialEq, Eq)]
pub struct Breach {
    pub unknown: Unknown,
    pub target: Unknown,
}

/// The first breach of a table, in the order of unknowns; `None` exactly where the table is a
/// post-solution. `Memory` is want of memory.
pub fn post_check(
    alloc: Global,
    program: &Program,
    system: &System,
    table: &Table,
) -> Result<Option<Breach>, Memory>
    requires formed { IsFormed program.now }
    requires system { IsSystemOf program.now system.now }
    requires shaped { IsShaped program.now table.now }
    ensures none { IfOk result (λ found. (found ≡ None) ↔ IsPostSolution program.now table.now) }
    ensures first { IfOk result (λ found. IfSome found (λ b. IsFirstBreach program.now table.now b.unknown b.target)) }
{
    match missing_root(program, table) {
        Some(root) => {
            let target = root;
            Ok(Some(Breach {
                unknown: root,
                target,
            }))
        }
        None => first_of_table(alloc, program, system, table),
    }
}

/// The first breach of an unknown of the table.
fn first_of_table(
    alloc: Global,
    program: &Program,
    system: &System,
    table: &Table,
) -> Result<Option<Breach>, Memory>
    requires formed { IsFormed program.now }
    requires system { IsSystemOf program.now system.now }
    requires shaped { IsShaped program.now table.now }
    ensures { IfOk result (λ found. MatchOption found (IsWhole program.now table.now) (λ b. IsFirstOfTable program.now table.now b.unknown b.target)) }
{
    let unknowns = table.sorted(alloc)?;
    let mut last: Option<Unknown> = None;
    for u in unknowns.as_slice() {
        if let Some(target) = breach_of(alloc, program, system, table, &last, u)? {
            return Ok(Some(Breach {
                unknown: *u,
                target,
            }));
        }
        last = Some(*u);
    }
    Ok(None)
}

/// The target of an unknown's breach. The nodes of its function and context are looked for only where
/// the unknown that was checked before it is of another one.
fn breach_of(
    alloc: Global,
    program: &Program,
    system: &System,
    table: &Table,
    last: &Option<Unknown>,
    u: &Unknown,
) -> Result<Option<Unknown>, Memory>
    requires formed { IsFormed program.now }
    requires system { IsSystemOf program.now system.now }
    requires shaped { IsShaped program.now table.now }
    requires there { IsThere table.now u.now }
    requires last { IfSome last.now (HasItsNodes program.now table.now) }
    ensures { IfOk result (λ found. MatchOption found (IsUnbroken program.now table.now u.now) (λ v. BreaksAt program.now table.now u.now v)) }
{
    match new_missing_node(program, table, last, u) {
        Some(node) => Ok(Some(node)),
        None => unbounded(alloc, program, system, table, u),
    }
}
