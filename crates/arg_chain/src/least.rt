//! The least of the shortest routes over numbered vertices.
ghost use Rattle.std.specs.Prelude.{◌≡◌, ◌⊎◌, ◌↔◌, ◌<◌, ◌≤◌, ◌^◌, ◌+◌, ℕ, List, [], None, Some, true, IfOk, IfSome, IfNone, IsTrue, Contains, length};
ghost use Rattle.arg_chain.specs.Walk.{IsGraph, IsTurned, known_at, steps_at};
ghost use Rattle.arg_chain.specs.Least.{IsRoute, IsLeastRoute};
ghost use Rattle.arg_chain.specs.Choice.{IsLeastOf, IsLeastStep, IsGreedy, CanStep, IsAtRoot, IsTarget, IsEdgeTo, least_with, least_known};
ghost use Rattle.arg_chain.specs.declared.hop.Hop.{Hop as TheHop};

use crate::distances::distances;
use crate::hop::Hop;
use gob_tree::Memory;
use std::alloc::Global;

/// A route: a root, and the hops that lead from it.
#[derive(Drop)]
pub(crate) struct Route {
    pub root: usize,
    pub steps: Vec<Hop>,
}

/// The least of the shortest routes from a root to a target, in a graph that is given turned too; `None`
/// exactly where there is none. `Memory` is want of memory.
pub(crate) fn least_route(
    alloc: Global,
    graph: &[Vec<Hop>],
    before: &[Vec<usize>],
    roots: &[usize],
    target: usize,
) -> Result<Option<Route>, Memory>
    requires graph { IsGraph graph.now }
    requires turned { IsTurned graph.now before.now }
    requires roots { (r : ℕ) → Contains roots.now r → r < length graph.now }
    requires target { target < length graph.now }
    ensures some { IfOk result (λ o. IfSome o (λ s. IsLeastRoute graph.now roots.now target s.root s.steps.items)) }
    ensures none { IfOk result (λ o. IfNone o ((root : ℕ) (steps : List TheHop) → IsRoute graph.now roots.now target root steps → ⊥)) }
{
    let known = distances(alloc, graph, before, target)?;
    match least_distance(roots, &known) {
        Some(n) => {
            let root = nearest(roots, &known, n);
            let steps = least_steps(alloc, graph, &known, root, n)?;
            Ok(Some(Route { root, steps }))
        }
        None => Ok(None),
    }
}

/// The fewest steps from one of the roots.
fn least_distance(roots: &[usize], known: &[Option<usize>]) -> Option<usize>
    requires { (r : ℕ) → Contains roots.now r → r < length known.now }
    ensures { IsLeastOf (λ n. (r : ℕ) × Contains roots.now r × (known_at known.now r ≡ Some n)) result }
{
    let mut best = None;
    for r in roots {
        best = nearer(best, known[*r]);
    }
    best
}

fn nearer(best: Option<usize>, n: Option<usize>) -> Option<usize>
    ensures { result ≡ least_known best n }
{
    match n {
        Some(n) => improved(best, n, true),
        None => best,
    }
}

fn improved(best: Option<usize>, x: usize, passes: bool) -> Option<usize>
    ensures { result ≡ least_with best x passes }
{
    if !passes {
        return best;
    }
    match best {
        Some(b) => Some(if x < b { x } else { b }),
        None => Some(x),
    }
}

fn is_at(known: Option<usize>, n: usize) -> bool
    ensures { IsTrue result ↔ (known ≡ Some n) }
{
    match known {
        Some(m) => m == n,
        None => false,
    }
}

/// The least root that is so many steps away.
fn nearest(roots: &[usize], known: &[Option<usize>], n: usize) -> usize
    requires roots { (r : ℕ) → Contains roots.now r → r < length known.now }
    requires there { (r : ℕ) × IsAtRoot roots.now known.now n r }
    ensures { IsLeastOf (IsAtRoot roots.now known.now n) (Some result) }
{
    let mut best = None;
    for r in roots {
        best = improved(best, *r, is_at(known[*r], n));
    }
    match best {
        Some(r) => r,
        None => unreachable!(),
    }
}

/// From a vertex that many steps away the least step at each vertex, by where it leads and then by its
/// edge.
fn least_steps(
    alloc: Global,
    graph: &[Vec<Hop>],
    known: &[Option<usize>],
    root: usize,
    n: usize,
) -> Result<Vec<Hop>, Memory>
    requires graph { IsGraph graph.now }
    requires len { length known.now ≡ length graph.now }
    requires root { known_at known.now root ≡ Some n }
    requires can { (u d : ℕ) → known_at known.now u ≡ Some (d + 1) → CanStep (steps_at graph.now u) known.now d }
    ensures { IfOk result (λ ss. IsGreedy graph.now known.now root ss.items × (length ss.items ≡ n)) }
{
    let mut steps = Vec::new(alloc);
    let mut at = root;
    let mut left = n;
    while left > 0 {
        left -= 1;
        let step = least_step(&graph[at], known, left);
        steps.push(step)?;
        at = step.to;
    }
    Ok(steps)
}

fn least_step(steps: &[Hop], known: &[Option<usize>], d: usize) -> Hop
    requires within { (s : TheHop) → Contains steps.now s → s.to < length known.now }
    requires can { CanStep steps.now known.now d }
    ensures { IsLeastStep steps.now known.now d result }
{
    let to = least_target(steps, known, d);
    let edge = least_edge(steps, to);
    Hop { edge, to }
}

fn least_target(steps: &[Hop], known: &[Option<usize>], d: usize) -> usize
    requires within { (s : TheHop) → Contains steps.now s → s.to < length known.now }
    requires can { CanStep steps.now known.now d }
    ensures { IsLeastOf (IsTarget steps.now known.now d) (Some result) }
{
    let mut best = None;
    for step in steps {
        best = improved(best, step.to, is_at(known[step.to], d));
    }
    match best {
        Some(to) => to,
        None => unreachable!(),
    }
}

fn least_edge(steps: &[Hop], to: usize) -> u32
    requires { (s : TheHop) × Contains steps.now s × (s.to ≡ to) }
    ensures { IsLeastOf (IsEdgeTo steps.now to) (Some result) }
{
    let mut best = None;
    for step in steps {
        best = improved_edge(best, step.edge, step.to == to);
    }
    match best {
        Some(edge) => edge,
        None => unreachable!(),
    }
}

fn improved_edge(best: Option<u32>, x: u32, passes: bool) -> Option<u32>
    ensures { result ≡ least_with best x passes }
{
    if !passes {
        return best;
    }
    match best {
        Some(b) => Some(if x < b { x } else { b }),
        None => Some(x),
    }
}
