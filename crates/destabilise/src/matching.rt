//! What of an old program is in a new one too.
ghost use Rattle.std.specs.Prelude.{◌≡◌, ◌↔◌, ℕ, IfOk, IsTrue, Some, length};
ghost use Rattle.gob_tree.specs.Formed.{IsFormed};
ghost use Rattle.constraint_sys.specs.Carry.{SameGlobal, SameMutex};
ghost use Rattle.destabilise.specs.Matched.{AreMatches, IsMatching, IsSame, count_of};

use crate::kind::Kind;
use gob_tree::{Memory, Program, Seq, same_function};
use std::alloc::Global;

/// For each function, global and mutex of an old program, by its number, the number that it has in a
/// new one; none where the new program lacks it, or has another under its name.
#[derive(Drop)]
pub struct Matching {
    pub funcs: Seq<Option<u16>>,
    pub globals: Seq<Option<u16>>,
    pub mutexes: Seq<Option<u16>>,
}

/// What of the old program is in the new one: functions of the same name whose graphs are the same,
/// globals with the same name, width and initial value, mutexes of the same name. `Memory` is want of
/// memory.
pub fn matched(alloc: Global, old: &Program, new: &Program) -> Result<Matching, Memory>
    requires old { IsFormed old.now }
    requires new { IsFormed new.now }
    ensures { IfOk result (λ m. IsMatching old.now new.now m) }
{
    let funcs = matched_by(alloc, Kind::Function, old, new)?;
    let globals = matched_by(alloc, Kind::Global, old, new)?;
    let mutexes = matched_by(alloc, Kind::Mutex, old, new)?;
    Ok(Matching {
        funcs,
        globals,
        mutexes,
    })
}

/// The matches of all numbers of a kind.
fn matched_by(
    alloc: Global,
    kind: Kind,
    old: &Program,
    new: &Program,
) -> Result<Seq<Option<u16>>, Memory>
    requires old { IsFormed old.now }
    requires new { IsFormed new.now }
    ensures { IfOk result (λ matches. AreMatches kind old.now new.now matches) }
{
    let mut matches = Seq::new(alloc);
    for i in 0..count(kind, old) {
        matches.push(match_of(kind, old, i, new))?;
    }
    Ok(matches)
}

/// The number in the new program of what has a number in the old one.
fn match_of(kind: Kind, old: &Program, i: u16, new: &Program) -> Option<u16>
    requires { IsFormed new.now }
    ensures { (j : ℕ) → (result ≡ Some j) ↔ IsSame kind old.now i new.now j }
{
    for j in 0..count(kind, new) {
        if is_same(kind, old, i, new, j) {
            return Some(j);
        }
    }
    None
}

/// How many of a kind a program has.
fn count(kind: Kind, program: &Program) -> u16
    requires { IsFormed program.now }
    ensures { result ≡ count_of kind program.now }
{
    match kind {
        Kind::Function => program.funcs.len() as u16,
        Kind::Global => program.globals.len() as u16,
        Kind::Mutex => program.mutexes.len() as u16,
    }
}

fn is_same(kind: Kind, old: &Program, i: u16, new: &Program, j: u16) -> bool
    ensures { IsTrue result ↔ IsSame kind old.now i new.now j }
{
    match kind {
        Kind::Function => same_function(old, i, new, j),
        Kind::Global => same_global(old, i, new, j),
        Kind::Mutex => same_mutex(old, i, new, j),
    }
}

fn same_global(old: &Program, g: u16, new: &Program, h: u16) -> bool
    ensures { IsTrue result ↔ SameGlobal old.now g new.now h }
{
    let this = old.globals.as_slice().get(g as usize);
    let that = new.globals.as_slice().get(h as usize);
    match (this, that) {
        (Some(a), Some(b)) => {
            a.name.same(&b.name) && a.width == b.width && a.initial == b.initial
        }
        _ => false,
    }
}

fn same_mutex(old: &Program, m: u16, new: &Program, n: u16) -> bool
    ensures { IsTrue result ↔ SameMutex old.now m new.now n }
{
    let this = old.mutexes.as_slice().get(m as usize);
    let that = new.mutexes.as_slice().get(n as usize);
    match (this, that) {
        (Some(a), Some(b)) => a.same(b),
        _ => false,
    }
}
