//! Unknowns and values under the numbers of the new program.
ghost use Rattle.std.specs.Prelude.{◌≡◌, ◌↔◌, ◌⊎◌, ◌<◌, ℕ, IfOk, Some, slice_get};
ghost use Rattle.gob_tree.specs.Formed.{IsFormed};
ghost use Rattle.lockset_dom.specs.Members.{Holds};
ghost use Rattle.constraint_sys.specs.Carry.{Renames, RenamesLocks, RenamesValue};
ghost use Rattle.constraint_sys.specs.declared.value.Value.TheVariants.{State as StateOf};
ghost use Rattle.destabilise.specs.Matched.{IsMatching};
ghost use Rattle.global_restart.specs.Keeping.{HasNewNumber};

use constraint_sys::{Key, Unknown, Value};
use destabilise::Matching;
use gob_tree::{Memory, Program};
use lockset_dom::Locks;
use state_dom::State;
use std::alloc::Global;

/// An unknown under its new numbers.
pub(crate) fn renamed(_old: &Program, _new: &Program, matching: &Matching, u: &Unknown) -> Unknown
    requires old { IsFormed _old.now }
    requires new { IsFormed _new.now }
    requires matching { IsMatching _old.now _new.now matching.now }
    requires has { HasNewNumber _old.now _new.now u.now }
    ensures { Renames _old.now _new.now u.now result }
{
    match u {
        Unknown::Point { func, key, node } => Unknown::Point {
            func: match_at(matching.funcs.as_slice(), *func),
            key: Key {
                a: key.a,
                b: key.b,
                locks: renamed_locks(_old, _new, matching, key.locks),
            },
            node: *node,
        },
        Unknown::Global(g) => Unknown::Global(match_at(matching.globals.as_slice(), *g)),
    }
}

/// The new number of what has one.
fn match_at(matches: &[Option<u16>], i: u16) -> u16
    requires { (j : ℕ) × (slice_get matches.now i ≡ Some (Some j)) }
    ensures { slice_get matches.now i ≡ Some (Some result) }
{
    match match_of(matches, i) {
        Some(j) => j,
        None => unreachable!(),
    }
}

/// The new number, where there is one.
fn match_of(matches: &[Option<u16>], i: u16) -> Option<u16>
    ensures { (j : ℕ) → (result ≡ Some j) ↔ (slice_get matches.now i ≡ Some (Some j)) }
{
    match matches.get(i as usize) {
        Some(found) => *found,
        None => None,
    }
}

/// The mutexes of a set that the new program has, under their new numbers.
fn renamed_locks(_old: &Program, _new: &Program, matching: &Matching, locks: Locks) -> Locks
    requires old { IsFormed _old.now }
    requires new { IsFormed _new.now }
    requires matching { IsMatching _old.now _new.now matching.now }
    ensures { RenamesLocks _old.now _new.now locks result }
{
    let mutexes = matching.mutexes.as_slice();
    let mut renamed = Locks::empty();
    for m in 0..8 {
        renamed = with_match(renamed, mutexes, locks, m);
    }
    renamed
}

/// The set with the new number of a mutex that is in the old one, where it has one.
fn with_match(renamed: Locks, mutexes: &[Option<u16>], locks: Locks, m: u16) -> Locks
    requires { (n : ℕ) → slice_get mutexes.now m ≡ Some (Some n) → n < 8 }
    ensures { (k : ℕ) → Holds result k ↔ (Holds renamed k ⊎ (Holds locks m × (slice_get mutexes.now m ≡ Some (Some k)))) }
{
    if !locks.contains(m) {
        return renamed;
    }
    match match_of(mutexes, m) {
        Some(n) => renamed.insert(n),
        None => renamed,
    }
}

/// A value with its mutexes under their new numbers.
pub(crate) fn renamed_value(
    alloc: Global,
    _old: &Program,
    _new: &Program,
    matching: &Matching,
    value: &Value,
) -> Result<Value, Memory>
    requires old { IsFormed _old.now }
    requires new { IsFormed _new.now }
    requires matching { IsMatching _old.now _new.now matching.now }
    ensures { IfOk result (λ x. RenamesValue _old.now _new.now value.now x) }
{
    match value {
        Value::State(s) => {
            let state = renamed_state(alloc, _old, _new, matching, s)?;
            Ok(Value::State(state))
        }
        Value::Number(n) => Ok(Value::Number(*n)),
    }
}

/// A state with its mutexes under their new numbers.
fn renamed_state(
    alloc: Global,
    _old: &Program,
    _new: &Program,
    matching: &Matching,
    s: &State,
) -> Result<State, Memory>
    requires old { IsFormed _old.now }
    requires new { IsFormed _new.now }
    requires matching { IsMatching _old.now _new.now matching.now }
    ensures { IfOk result (λ x. RenamesValue _old.now _new.now (StateOf s.now) (StateOf x)) }
{
    let mut state = s.copy(alloc)?;
    if s.is_bottom() {
        return Ok(state);
    }
    let locks = renamed_locks(_old, _new, matching, s.locks());
    state.set_locks(locks);
    Ok(state)
}
