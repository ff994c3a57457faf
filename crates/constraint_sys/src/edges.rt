//! What a point gets from the edges that end there.
ghost use Rattle.std.specs.Prelude.{◌≡◌, ◌<◌, ◌++◌, ◌∷◌, [], IfOk, OnOk, length};
ghost use Rattle.gob_tree.specs.Formed.{IsFormed};
ghost use Rattle.state_dom.specs.StateValue.{Bottom, join_of, room_of};
ghost use Rattle.constraint_sys.specs.Contribution.{contribution_at, contribution_of};
ghost use Rattle.constraint_sys.specs.Index.{IsSystemOf};
ghost use Rattle.constraint_sys.specs.Sound.{IsShaped, CanTurn};

use crate::functions::{function_at, room};
use crate::keys::point;
use crate::system::System;
use crate::table::Table;
use crate::transfer::outcome;
use crate::unknown::{Key, Unknown};
use crate::value::{Contribution, Outcome};
use gob_tree::{Memory, Program, Seq};
use state_dom::State;
use std::alloc::Global;

/// What a point of the table gets from the edges that end at its node, which isn't 0; `Memory` is
/// want of memory.
pub fn contribution(
    alloc: Global,
    program: &Program,
    system: &System,
    table: &Table,
    u: Unknown,
) -> Result<Contribution, Memory>
    requires formed { IsFormed program.now }
    requires system { IsSystemOf program.now system.now }
    requires shaped { IsShaped program.now table.now }
    requires there { CanTurn table.now u }
    ensures { IfOk result (λ c. c ≡ contribution_at program.now table.now u) }
{
    contribution_to(alloc, program, system, table, &u)
}

/// The same of a point that is lent.
pub(crate) fn contribution_to(
    alloc: Global,
    program: &Program,
    system: &System,
    table: &Table,
    u: &Unknown,
) -> Result<Contribution, Memory>
    requires formed { IsFormed program.now }
    requires system { IsSystemOf program.now system.now }
    requires shaped { IsShaped program.now table.now }
    requires there { CanTurn table.now u.now }
    ensures { IfOk result (λ c. c ≡ contribution_at program.now table.now u.now) }
{
    match u {
        Unknown::Point { func, key, node } => {
            of_point(alloc, program, system, table, *func, key, *node)
        }
        Unknown::Global(_) => unreachable!(),
    }
}

fn of_point(
    alloc: Global,
    program: &Program,
    system: &System,
    table: &Table,
    func: u16,
    key: &Key,
    node: u16,
) -> Result<Contribution, Memory>
    requires formed { IsFormed program.now }
    requires system { IsSystemOf program.now system.now }
    requires shaped { IsShaped program.now table.now }
    requires in_range { func < length program.now.funcs }
    ensures { IfOk result (λ c. c ≡ contribution_of program.now table.now func key.now node) }
{
    let function = function_at(program, func);
    let edges = function.edges.as_slice();
    let mut given = nothing(alloc, room(function))?;
    for i in system.into(func, node) {
        let n = *i as usize;
        let edge = &edges[n];
        let outcome = outcome(alloc, program, table, func, key, edge)?;
        add(&mut given, point(func, key, edge.from), outcome)?;
    }
    Ok(given)
}

/// The contribution of no edge.
fn nothing(alloc: Global, room: u16) -> Result<Contribution, Memory>
    ensures { IfOk result (λ c. c ≡ record { value = Bottom room; effects = []; reads = [] }) }
{
    Ok(Contribution {
        value: State::bottom(alloc, room)?,
        effects: Seq::new(alloc),
        reads: Seq::new(alloc),
    })
}

/// Adds what one edge gives from its start.
fn add(given: &mut Contribution, start: Unknown, outcome: Outcome) -> Result<(), Memory>
    requires room { room_of given.old.value ≡ room_of outcome.value }
    ensures value { OnOk result (given.new.value ≡ join_of given.old.value outcome.value) }
    ensures effects { OnOk result (given.new.effects ≡ given.old.effects ++ outcome.effects) }
    ensures reads { OnOk result (given.new.reads ≡ given.old.reads ++ start ∷ outcome.reads) }
    ensures room { OnOk result (room_of given.new.value ≡ room_of given.old.value) }
{
    given.value.join_into(&outcome.value);
    given.reads.push(start)?;
    for u in outcome.reads.as_slice() {
        given.reads.push(*u)?;
    }
    for e in outcome.effects.into_vec() {
        given.effects.push(e)?;
    }
    Ok(())
}
