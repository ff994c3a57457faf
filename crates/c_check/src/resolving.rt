//! From a tree with names as they are written to a unit with numbers for names.

ghost use Rattle.std.specs.Prelude.{◌≡◌, [], IfOk, MatchResult};
ghost use Rattle.std.specs.List.{position_or_len};
ghost use Rattle.gob_tree.specs.WellMade.{IsWellMade};
ghost use Rattle.c_check.specs.Faults.{Checks, Passes, IsFirst};
ghost use Rattle.c_check.specs.Spelled.{IsSpelled};
ghost use Rattle.c_check.specs.Stages.{whole_faults, whole_unit};
ghost use Rattle.c_check.specs.Units.{is_main_function, after_items, made_of, no_main_faults, unit_faults, unit_of};

use crate::fault::{FrontFault, FrontKind, ask};
use crate::limits::check_limits;
use crate::scope::{is_main, next_number};
use crate::units::Making;
use c_parse::{RawItem, RawUnit};
use gob_tree::{Function, Memory, Place, Unit};
use std::alloc::Global;

/// The number of `main`, or the number of functions where there is none.
#[tactic(auto, using(crate::proofs::Mains::here_is_main, crate::proofs::Mains::not_here))]
fn main_number(funcs: &[Function]) -> usize
    ensures { result ≡ position_or_len is_main_function funcs.now }
{
    for (i, function) in funcs.iter().enumerate() {
        if is_main(&function.name) {
            return i;
        }
    }
    funcs.len()
}

/// There is a `main`.
#[tactic(auto, using(crate::proofs::Mains::main_is_there, crate::proofs::Mains::still_none))]
fn check_has_main(funcs: &[Function]) -> Result<(), FrontFault>
    ensures { Passes result (no_main_faults funcs.now) }
{
    for function in funcs {
        if is_main(&function.name) {
            return Ok(());
        }
    }
    ask(false, FrontKind::NoMain, Place { line: 1, column: 1 })
}

/// All items, and then what is asked of the whole unit.
#[tactic(auto, using(crate::proofs::Firsts::first_left, crate::proofs::Firsts::first_right, crate::proofs::Firsts::none_of))]
fn fill(alloc: Global, making: &mut Making, items: &[RawItem]) -> Result<(), FrontFault>
    ensures { MatchResult result (λ _. (whole_faults items.now making.old ≡ []) × (making.new ≡ after_items items.now making.old)) (λ fault. IsFirst fault (whole_faults items.now making.old)) }
{
    making.add_items(alloc, items)?;
    check_has_main(making.funcs.as_slice())?;
    check_limits(items)
}

/// What the items of a tree become, where the checks and the limits find no fault.
#[tactic(auto, using(crate::proofs::Firsts::want_is_first, crate::proofs::Resolved::refused, crate::proofs::Resolved::accepted))]
fn made(alloc: Global, raw: &RawUnit) -> Result<Making, FrontFault>
    ensures { Checks result (unit_faults raw.now) (made_of raw.now) }
{
    let items = raw.items.as_slice();
    let mut making = Making::new(alloc, items)?;
    match fill(alloc, &mut making, items) {
        Ok(()) => Ok(making),
        Err(fault) => Err(fault),
    }
}

/// The unit of what was made of all items.
fn finished(making: Making) -> Result<Unit, Memory>
    ensures { IfOk result (λ unit. unit ≡ whole_unit making) }
{
    let number = main_number(making.funcs.as_slice());
    let Making {
        funcs,
        globals,
        mutexes,
        ..
    } = making;
    let main = next_number(number)?;
    Ok(Unit {
        funcs,
        globals,
        mutexes,
        main,
    })
}

/// The checks of a unit, without the law that what they accept is well made.
#[tactic(auto, using(crate::proofs::Firsts::want_is_first))]
fn checked(alloc: Global, raw: &RawUnit) -> Result<Unit, FrontFault>
    ensures { Checks result (unit_faults raw.now) (unit_of raw.now) }
{
    let making = made(alloc, raw)?;
    Ok(finished(making)?)
}

/// The unit that a tree becomes, or its first fault: the faults of the checks in the order of the
/// text, and those at one place in the order `BadLiteral`, `Undeclared`, `Redeclared`, `WrongKind`,
/// `WrongArity`; then `NoMain`; then `Limit` for functions, parameters, globals and mutexes.
///
/// Numbers of functions, globals and mutexes are those of their definitions. In a function the
/// slots are the returned value, the parameters, and the declared numbers in order; thread
/// variables are numbered apart.
///
/// # Errors
///
/// The first fault, at its place. `Memory` is want of memory; it is also told of a tree with more
/// than 65,535 declarations of one kind, which no text within its limit has.
pub fn resolve(alloc: Global, raw: &RawUnit) -> Result<Unit, FrontFault>
    requires { IsSpelled raw.now.items }
    ensures checked { Checks result (unit_faults raw.now) (unit_of raw.now) }
    ensures made { IfOk result IsWellMade }
{
    checked(alloc, raw)
}
