//! What one list of unknowns has and another hasn't.
ghost use Rattle.std.specs.Prelude.{◌≡◌, ◌↔◌, Contains, IfOk, IsSorted, IsTrue};
ghost use Rattle.constraint_sys.specs.Table.{unknown_cmp};
ghost use Rattle.constraint_sys.specs.declared.unknown.Unknown.{Unknown as TheUnknown};

use constraint_sys::Unknown;
use gob_tree::Memory;
use std::alloc::Global;

/// Whether two lists are equal.
pub(crate) fn are_same(xs: &[Unknown], ys: &[Unknown]) -> bool
    ensures { IsTrue result → xs.now ≡ ys.now }
{
    xs == ys
}

/// What the first list has and the second hasn't; `Memory` is want of memory. It compares as often as the
/// first has unknowns, times the logarithm of the second's length.
pub(crate) fn without(alloc: Global, xs: &[Unknown], ys: &[Unknown]) -> Result<Vec<Unknown>, Memory>
    ensures { (w : TheUnknown) → IfOk result (λ rest. Contains rest.items w ↔ (Contains xs.now w × (Contains ys.now w → ⊥))) }
{
    let others = sorted(alloc, ys)?;
    let mut rest = Vec::new(alloc);
    for x in xs {
        if !has(others.as_slice(), x) {
            rest.push(*x)?;
        }
    }
    Ok(rest)
}

/// The same unknowns in their order.
fn sorted(alloc: Global, ys: &[Unknown]) -> Result<Vec<Unknown>, Memory>
    ensures members { (w : TheUnknown) → IfOk result (λ all. Contains all.items w ↔ Contains ys.now w) }
    ensures sorted { IfOk result (λ all. IsSorted unknown_cmp all.items) }
{
    let mut all = Vec::from_slice(alloc, ys)?;
    all.sort()?;
    Ok(all)
}

fn has(all: &[Unknown], x: &Unknown) -> bool
    requires { IsSorted unknown_cmp all.now }
    ensures { IsTrue result ↔ Contains all.now x.now }
{
    match all.binary_search(x) {
        Ok(_) => true,
        Err(_) => false,
    }
}
