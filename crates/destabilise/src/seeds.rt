//! The unknowns that are removed by themselves.
ghost use Rattle.std.specs.Prelude.{◌↔◌, ◌≤◌, IfOk, IsTrue, Contains, length};
ghost use Rattle.std.specs.Option.{option_copied};
ghost use Rattle.lockset_dom.specs.Members.{Holds};
ghost use Rattle.constraint_sys.specs.Table.{IsThere};
ghost use Rattle.constraint_sys.specs.declared.unknown.Unknown.{Unknown as TheUnknown};
ghost use Rattle.destabilise.specs.Seeds.{HasMembersBelow, HoldsUnmatched, IsSeed, IsUnreached, KnowsMutexesBelow, LacksMatch, locks_at};

use crate::links::{is_start, push_if};
use crate::marks::Marks;
use crate::matching::Matching;
use constraint_sys::{Table, Unknown, Value};
use gob_tree::Memory;
use lockset_dom::Locks;
use std::alloc::Global;

/// The unknowns of the table that are removed by themselves.
pub(crate) fn seeds(
    alloc: Global,
    matching: &Matching,
    table: &Table,
    from_main: &Marks,
) -> Result<Vec<Unknown>, Memory>
    requires few { length matching.now.mutexes ≤ 8 }
    requires mutexes { (u : TheUnknown) → IsThere table.now u → KnowsMutexesBelow (length matching.now.mutexes) table.now u }
    ensures { (u : TheUnknown) → IfOk result (λ us. Contains us.items u ↔ (IsThere table.now u × IsSeed matching.now from_main.now table.now u)) }
{
    let unknowns = table.sorted(alloc)?;
    let mut found = Vec::new(alloc);
    for u in unknowns.as_slice() {
        push_if(&mut found, u, is_seed(matching, table, from_main, u))?;
    }
    Ok(found)
}

fn is_seed(matching: &Matching, table: &Table, from_main: &Marks, u: &Unknown) -> bool
    requires few { length matching.now.mutexes ≤ 8 }
    requires mutexes { KnowsMutexesBelow (length matching.now.mutexes) table.now u.now }
    ensures { IsTrue result ↔ IsSeed matching.now from_main.now table.now u.now }
{
    match u {
        Unknown::Point { func, key, node: _ } => {
            if lacks_match(matching.funcs.as_slice(), *func) {
                return true;
            }
            if holds_unmatched(matching.mutexes.as_slice(), &key.locks) {
                return true;
            }
            if knows_unmatched(matching.mutexes.as_slice(), table.get(u)) {
                return true;
            }
            is_unreached(from_main, u)
        }
        Unknown::Global(g) => lacks_match(matching.globals.as_slice(), *g),
    }
}

fn is_unreached(from_main: &Marks, u: &Unknown) -> bool
    ensures { IsTrue result ↔ IsUnreached from_main.now u.now }
{
    is_start(u) && !from_main.contains(u)
}

/// Whether the locks of a state hold a mutex without a match.
fn knows_unmatched(mutexes: &[Option<u16>], value: Option<&Value>) -> bool
    requires few { length mutexes.now ≤ 8 }
    requires members { HasMembersBelow (length mutexes.now) (locks_at (option_copied value)) }
    ensures { IsTrue result ↔ HoldsUnmatched mutexes.now (locks_at (option_copied value.entry)) }
{
    match value {
        Some(Value::State(s)) => {
            if s.is_bottom() {
                return false;
            }
            holds_unmatched(mutexes, &s.locks())
        }
        _ => false,
    }
}

fn holds_unmatched(mutexes: &[Option<u16>], locks: &Locks) -> bool
    requires few { length mutexes.now ≤ 8 }
    requires members { HasMembersBelow (length mutexes.now) locks.now }
    ensures { IsTrue result ↔ HoldsUnmatched mutexes.now locks.now }
{
    let count = mutexes.len() as u16;
    for m in 0..count {
        if is_unmatched(mutexes, locks, m) {
            return true;
        }
    }
    false
}

fn is_unmatched(mutexes: &[Option<u16>], locks: &Locks, m: u16) -> bool
    ensures { IsTrue result ↔ (Holds locks.now m × LacksMatch mutexes.now m) }
{
    locks.contains(m) && lacks_match(mutexes, m)
}

fn lacks_match(matches: &[Option<u16>], i: u16) -> bool
    ensures { IsTrue result ↔ LacksMatch matches.now i }
{
    match matches.get(i as usize) {
        Some(Some(_)) => false,
        _ => true,
    }
}
