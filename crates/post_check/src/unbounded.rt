//! What a table doesn't bound: a value with which an unknown begins, what a point's edges contribute to
//! it, and their effects.
ghost use Rattle.std.specs.Prelude.{◌≡◌, ◌<◌, ◌↔◌, All, IfOk, IsTrue, MatchOption, length};
ghost use Rattle.gob_tree.specs.Formed.{IsFormed};
ghost use Rattle.constraint_sys.specs.Breach.{BoundsItself, IsFirstUnbounded};
ghost use Rattle.constraint_sys.specs.Contribution.{contribution_at};
ghost use Rattle.constraint_sys.specs.Index.{IsSystemOf};
ghost use Rattle.constraint_sys.specs.PostSolution.{BoundsAt, main_start_value};
ghost use Rattle.constraint_sys.specs.Sound.{CanTurn, IsShaped, IsShapedEntry};
ghost use Rattle.constraint_sys.specs.Table.{IsThere, main_start};
ghost use Rattle.constraint_sys.specs.declared.unknown.Unknown.TheVariants.{Global as TheGlobal};
ghost use Rattle.constraint_sys.specs.declared.value.Effect.{Effect as TheEffect};
ghost use Rattle.constraint_sys.specs.declared.value.Value.TheVariants.{State as StateOf};
ghost use Rattle.post_check.specs.Unbroken.{AreBounded, BoundsAll, IsFirstUnboundedOf};

use constraint_sys::{
    Contribution, Effect, System, Table, Unknown, Value, contribution, initial_value, main_start,
    main_start_value,
};
use gob_tree::{Memory, Program};
use state_dom::State;
use std::alloc::Global;

/// The unknown itself where the table doesn't bound what it gets there, else the target of the first
/// effect that the table doesn't bound.
pub(crate) fn unbounded(
    alloc: Global,
    program: &Program,
    system: &System,
    table: &Table,
    u: &Unknown,
) -> Result<Option<Unknown>, Memory>
    requires formed { IsFormed program.now }
    requires system { IsSystemOf program.now system.now }
    requires shaped { IsShaped program.now table.now }
    requires there { IsThere table.now u.now }
    ensures { IfOk result (λ found. MatchOption found (BoundsAll program.now table.now u.now) (IsFirstUnboundedOf program.now table.now u.now)) }
{
    match u {
        Unknown::Point { node, .. } => {
            if *node > 0 {
                unbounded_at_point(alloc, program, system, table, u)
            } else {
                let bounded = bounds_start(alloc, program, table, u)?;
                Ok(unless(bounded, u))
            }
        }
        Unknown::Global(g) => Ok(unless(bounds_global(program, table, *g), u)),
    }
}

/// The unknown where the answer is no.
fn unless(yes: bool, u: &Unknown) -> Option<Unknown>
    ensures { MatchOption result (IsTrue yes) (λ v. (v ≡ u.now) × (IsTrue yes → ⊥)) }
{
    if yes { None } else { Some(*u) }
}

/// Whether an unknown bounds the value with which `main` begins, where it is `main`'s start.
fn bounds_start(
    alloc: Global,
    program: &Program,
    table: &Table,
    u: &Unknown,
) -> Result<bool, Memory>
    requires formed { IsFormed program.now }
    requires shaped { IsShaped program.now table.now }
    ensures { IfOk result (λ yes. IsTrue yes ↔ (u.now ≡ main_start program.now → BoundsAt table.now u.now (main_start_value program.now))) }
{
    if *u != main_start(program) {
        return Ok(true);
    }
    let value = main_start_value(alloc, program)?;
    Ok(table.bounds(program, u, &value))
}

/// Whether a global bounds its initial value.
fn bounds_global(program: &Program, table: &Table, g: u16) -> bool
    requires formed { IsFormed program.now }
    requires shaped { IsShaped program.now table.now }
    requires in_range { g < length program.now.globals }
    ensures { IsTrue result ↔ BoundsItself program.now table.now (TheGlobal g) }
{
    let value = initial_value(&program.globals.as_slice()[g as usize]);
    table.bounds(program, &Unknown::Global(g), &value)
}

/// The same of a point of a node other than 0, by its contribution.
fn unbounded_at_point(
    alloc: Global,
    program: &Program,
    system: &System,
    table: &Table,
    u: &Unknown,
) -> Result<Option<Unknown>, Memory>
    requires formed { IsFormed program.now }
    requires system { IsSystemOf program.now system.now }
    requires shaped { IsShaped program.now table.now }
    requires there { CanTurn table.now u.now }
    ensures { IfOk result (λ found. MatchOption found (BoundsAll program.now table.now u.now) (IsFirstUnboundedOf program.now table.now u.now)) }
{
    let given = contribution(alloc, program, system, table, *u)?;
    Ok(unbounded_by(program, table, u, given))
}

/// The same by the contribution.
fn unbounded_by(
    program: &Program,
    table: &Table,
    u: &Unknown,
    given: Contribution,
) -> Option<Unknown>
    requires formed { IsFormed program.now }
    requires shaped { IsShaped program.now table.now }
    requires there { CanTurn table.now u.now }
    requires given { given ≡ contribution_at program.now table.now u.now }
    ensures { MatchOption result (BoundsAll program.now table.now u.now) (IsFirstUnboundedOf program.now table.now u.now) }
{
    let Contribution {
        value,
        effects,
        reads: _,
    } = given;
    if !bounds_state(program, table, u, value) {
        return Some(*u);
    }
    first_unbounded(program, table, effects.as_slice())
}

/// Whether a point bounds a state.
fn bounds_state(program: &Program, table: &Table, u: &Unknown, state: State) -> bool
    requires shaped { IsShaped program.now table.now }
    requires fits { IsShapedEntry program.now u.now (StateOf state) }
    ensures { IsTrue result ↔ BoundsAt table.now u.now (StateOf state) }
{
    let value = Value::State(state);
    table.bounds(program, u, &value)
}

/// The target of the first effect that the table doesn't bound.
fn first_unbounded(program: &Program, table: &Table, effects: &[Effect]) -> Option<Unknown>
    requires shaped { IsShaped program.now table.now }
    requires fit { All (λ (e : TheEffect). IsShapedEntry program.now e.target e.value) effects.now }
    ensures { MatchOption result (All (AreBounded table.now) effects.now) (IsFirstUnbounded table.now effects.now) }
{
    for e in effects {
        if !table.bounds(program, &e.target, &e.value) {
            return Some(e.target);
        }
    }
    None
}
