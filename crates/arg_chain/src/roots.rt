//! Where chains may begin.
ghost use Rattle.std.specs.Prelude.{◌≡◌, ◌↔◌, ◌⊎◌, ℕ, IfOk, IsTrue, OnOk, Contains, length};
ghost use Rattle.constraint_sys.specs.Sound.{IsStarted};
ghost use Rattle.arg_graph.specs.Vertices.{start_in};
ghost use Rattle.arg_chain.specs.Calls.{HasNumbersWithin, IsRootBy, IsRootNumber};

use crate::hops::Hops;
use arg_graph::Vertex;
use constraint_sys::{ArgKey, Key};
use gob_tree::{FuncKind, Memory, Program};
use lockset_dom::Locks;
use std::alloc::Global;

/// The numbers of the contexts in which threads begin.
pub(crate) fn roots(
    alloc: Global,
    program: &Program,
    vertices: &[Vertex],
    hops: &Hops,
) -> Result<Vec<usize>, Memory>
    requires { HasNumbersWithin (length vertices.now) hops.now.numbers.entries }
    ensures { (r : ℕ) → IfOk result (λ rs. Contains rs.items r ↔ IsRootNumber program.now vertices.now (length vertices.now) hops.now.numbers.entries r) }
{
    let mut roots = Vec::new(alloc);
    for v in vertices {
        push_root(&mut roots, program, hops, vertices.len(), v)?;
    }
    Ok(roots)
}

fn push_root(
    roots: &mut Vec<usize>,
    program: &Program,
    hops: &Hops,
    vertices: usize,
    v: &Vertex,
) -> Result<(), Memory>
    requires { HasNumbersWithin vertices hops.now.numbers.entries }
    ensures { (r : ℕ) → OnOk result (Contains roots.new.items r ↔ (Contains roots.old.items r ⊎ IsRootBy program.now hops.now.numbers.entries vertices v.now r)) }
{
    if is_start(v) && is_started(program, v.func) {
        if let Some(k) = hops.number(v) {
            roots.push(vertices + k)?;
        }
    }
    Ok(())
}

/// Whether a vertex is the start of its function where a thread begins in it.
fn is_start(v: &Vertex) -> bool
    ensures { IsTrue result ↔ (v.now ≡ start_in v.now.func) }
{
    let key = Key {
        a: ArgKey::Absent,
        b: ArgKey::Absent,
        locks: Locks::empty(),
    };
    *v == Vertex {
        func: v.func,
        key,
        node: 0,
    }
}

/// Whether `main` or a thread starts in a function.
fn is_started(program: &Program, f: u16) -> bool
    ensures { IsTrue result ↔ IsStarted program.now f }
{
    if f == program.main {
        return true;
    }
    match program.funcs.as_slice().get(f as usize) {
        Some(function) => function.kind == FuncKind::Thread,
        None => false,
    }
}
