//! Where the steps of a graph come from.
ghost use Rattle.std.specs.Prelude.{◌≡◌, ◌⊎◌, ◌↔◌, ◌<◌, ◌≤◌, ◌^◌, ℕ, IfOk, OnOk, Contains, length};
ghost use Rattle.arg_chain.specs.Walk.{IsGraph, IsTurned, before_at, LeadsTo};

use crate::hop::Hop;
use gob_tree::Memory;
use std::alloc::Global;

/// For each vertex those from which a step leads to it.
pub(crate) fn turned(alloc: Global, graph: &[Vec<Hop>]) -> Result<Vec<Vec<usize>>, Memory>
    requires graph { IsGraph graph.now }
    ensures { IfOk result (λ t. IsTurned graph.now t.items) }
{
    let mut rows = no_rows(alloc, graph.len())?;
    for (u, steps) in graph.iter().enumerate() {
        add_each(&mut rows, steps, u)?;
    }
    Ok(rows)
}

fn no_rows(alloc: Global, vertices: usize) -> Result<Vec<Vec<usize>>, Memory>
    ensures len { IfOk result (λ t. length t.items ≡ vertices) }
    ensures none { (u w : ℕ) → IfOk result (λ t. Contains (before_at t.items w) u → ⊥) }
{
    let mut rows = Vec::new(alloc);
    for _ in 0..vertices {
        rows.push(Vec::new(alloc))?;
    }
    Ok(rows)
}

fn add_each(rows: &mut Vec<Vec<usize>>, steps: &[Hop], u: usize) -> Result<(), Memory>
    requires { (w : ℕ) → LeadsTo steps.now w → w < length rows.old.items }
    ensures len { OnOk result (length rows.new.items ≡ length rows.old.items) }
    ensures members { (w x : ℕ) → OnOk result (Contains (before_at rows.new.items w) x ↔ (Contains (before_at rows.old.items w) x ⊎ (LeadsTo steps.now w × (x ≡ u)))) }
{
    for step in steps {
        add(rows, step.to, u)?;
    }
    Ok(())
}

fn add(rows: &mut Vec<Vec<usize>>, w: usize, u: usize) -> Result<(), Memory>
    requires { w < length rows.old.items }
    ensures len { OnOk result (length rows.new.items ≡ length rows.old.items) }
    ensures members { (y x : ℕ) → OnOk result (Contains (before_at rows.new.items y) x ↔ (Contains (before_at rows.old.items y) x ⊎ ((y ≡ w) × (x ≡ u)))) }
{
    rows[w].push(u)?;
    Ok(())
}
