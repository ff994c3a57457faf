//! The fewest steps from each vertex to one.
ghost use Rattle.std.specs.Prelude.{◌≡◌, ◌⊎◌, ◌↔◌, ◌<◌, ◌≤◌, ◌^◌, ◌+◌, ℕ, List, [], None, Some, IfOk, OnOk, Contains, length};
ghost use Rattle.arg_chain.specs.Walk.{IsTurned, IsDistance, IsWalk, known_at, before_at, IsBeforeOne, Spreads};
ghost use Rattle.arg_chain.specs.declared.hop.Hop.{Hop as TheHop};

use crate::hop::Hop;
use gob_tree::Memory;
use std::alloc::Global;

/// For each vertex the fewest steps from it to a target, over the turned graph too; `None` exactly where
/// no steps lead there.
pub(crate) fn distances(
    alloc: Global,
    graph: &[Vec<Hop>],
    before: &[Vec<usize>],
    target: usize,
) -> Result<Vec<Option<usize>>, Memory>
    requires turned { IsTurned graph.now before.now }
    requires target { target < length graph.now }
    ensures len { IfOk result (λ ds. length ds.items ≡ length graph.now) }
    ensures known { (u n : ℕ) → IfOk result (λ ds. known_at ds.items u ≡ Some n → IsDistance graph.now target u n) }
    ensures unknown { (u : ℕ) → IfOk result (λ ds. known_at ds.items u ≡ None → (ss : List TheHop) → IsWalk graph.now u ss target → ⊥) }
{
    let mut known = vec![in alloc; None; graph.len()]?;
    let mut level: usize = 0;
    let mut front = Vec::new(alloc);
    reach(&mut known, &mut front, target, level)?;
    'levels: while !front.is_empty() {
        level += 1;
        front = spread(alloc, before, &mut known, &front, level)?;
    }
    Ok(known)
}

/// One level more: the vertices from which a step leads to the front, and that weren't known.
fn spread(
    alloc: Global,
    before: &[Vec<usize>],
    known: &mut Vec<Option<usize>>,
    front: &[usize],
    level: usize,
) -> Result<Vec<usize>, Memory>
    requires len { length known.old.items ≡ length before.now }
    requires front { (w : ℕ) → Contains front.now w → w < length before.now }
    requires before { (w u : ℕ) → Contains (before_at before.now w) u → u < length before.now }
    ensures { IfOk result (λ next. Spreads known.old.items [] (IsBeforeOne before.now front.now) level known.new.items next.items) }
{
    let mut next = Vec::new(alloc);
    for w in front {
        reach_each(known, &mut next, &before[*w], level)?;
    }
    Ok(next)
}

fn reach_each(
    known: &mut Vec<Option<usize>>,
    next: &mut Vec<usize>,
    us: &[usize],
    level: usize,
) -> Result<(), Memory>
    requires { (u : ℕ) → Contains us.now u → u < length known.old.items }
    ensures { OnOk result (Spreads known.old.items next.old.items (Contains us.now) level known.new.items next.new.items) }
{
    for u in us {
        reach(known, next, *u, level)?;
    }
    Ok(())
}

fn reach(
    known: &mut Vec<Option<usize>>,
    next: &mut Vec<usize>,
    u: usize,
    level: usize,
) -> Result<(), Memory>
    requires { u < length known.old.items }
    ensures { OnOk result (Spreads known.old.items next.old.items (λ x. x ≡ u) level known.new.items next.new.items) }
{
    if known[u].is_none() {
        known[u] = Some(level);
        next.push(u)?;
    }
    Ok(())
}
