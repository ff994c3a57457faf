//! The least chains of vertices.
ghost use Rattle.std.specs.Prelude.{◌≡◌, IfOk, IfSome, IfNone, Some, Contains, slice_get};
ghost use Rattle.constraint_sys.specs.Table.{TableValue};
ghost use Rattle.arg_graph.specs.Following.{StackValue, top_of};
ghost use Rattle.arg_graph.specs.Graphs.{IsGraphOf, offered_in, vertices_in};
ghost use Rattle.arg_chain.specs.Chains.{IsChain, IsLeastChain};

use crate::hops::Hops;
use crate::least::least_route;
use crate::roots::roots;
use crate::stacking::frames;
use crate::turned::turned;
use arg_graph::{Graph, Stack, Vertex};
use gob_tree::{Memory, Program};
use std::alloc::Global;
use std::marker::Model;

/// The calls of a program's graph, made ready once for the chains of many vertices. Contracts see the
/// program and the graph.
///
/// costs: making it takes time and memory linear in the graph's vertices and steps.
#[derive(Drop)]
pub struct Calls<'g> {
    program: &'g Program,
    graph: &'g Graph,
    hops: Hops,
    before: Vec<Vec<usize>>,
    roots: Vec<usize>,
}

impl<'g> Model for Calls<'g> {
    ghost use Rattle.std.specs.Coded.{codes};
    ghost use Rattle.gob_tree.specs.contracts.expr.Expr as expr;
    ghost use Rattle.arg_graph.specs.contracts.graph.Graph as graphs;
    ghost use Rattle.arg_chain.specs.Serving.{Served, IsReady};

    ghost Value = { Served };

    ghost coded = { Prim.hlevel (codes, expr.the_row.coded, graphs.the_row.coded) };

    ghost view = { λ c. record { program = c.program.now; graph = c.graph.now } };

    ghost invariant = { λ c. IsReady c.program.now c.graph.now c.hops.numbers.entries c.hops.rows.items c.before.items c.roots.items };
}

impl<'g> Calls<'g> {
    /// Those of a program and the graph of one of its tables; `Memory` is want of memory.
    pub fn of(alloc: Global, program: &'g Program, graph: &'g Graph) -> Result<Calls<'g>, Memory>
        requires { (t : TableValue) × IsGraphOf program.now t graph.now }
        ensures { IfOk result (λ c. c ≡ record { program = program.now; graph = graph.now }) }
    {
        let hops = Hops::of(alloc, graph)?;
        let before = turned(alloc, hops.rows())?;
        let roots = roots(alloc, program, graph.vertices(), &hops)?;
        Ok(Calls {
            program,
            graph,
            hops,
            before,
            roots,
        })
    }

    /// The program.
    pub fn program(&self) -> &'g Program
        ensures { result.now ≡ self.now.program }
    {
        self.program
    }

    /// The graph.
    pub fn graph(&self) -> &'g Graph
        ensures { result.now ≡ self.now.graph }
    {
        self.graph
    }

    /// The least chain of a vertex: the shortest stack of calls that leads to it from where `main` or
    /// a thread begins, of equals the least by vertices and then by edges. `None` exactly where there
    /// is no chain of it; `Memory` is want of memory.
    ///
    /// costs: a search of its own, whose time and memory are linear in the graph's vertices and calls.
    pub fn chain(&self, alloc: Global, v: Vertex) -> Result<Option<Stack>, Memory>
        ensures some { IfOk result (λ o. IfSome o (λ s. IsLeastChain self.now.program (vertices_in self.now.graph) (offered_in self.now.graph) v s)) }
        ensures none { IfOk result (λ o. IfNone o ((s : StackValue) → IsChain self.now.program (vertices_in self.now.graph) (offered_in self.now.graph) v s → ⊥)) }
        ensures top { IfOk result (λ o. IfSome o (λ s. top_of s ≡ Some v)) }
    {
        match place(self.graph.vertices(), &v) {
            Some(target) => self.chain_to(alloc, &v, target),
            None => Ok(None),
        }
    }

    /// The least chain of a vertex, which stands at a place.
    fn chain_to(&self, alloc: Global, v: &Vertex, target: usize) -> Result<Option<Stack>, Memory>
        requires { slice_get (vertices_in self.now.graph) target ≡ Some v.now }
        ensures some { IfOk result (λ o. IfSome o (λ s. IsLeastChain self.now.program (vertices_in self.now.graph) (offered_in self.now.graph) v.now s)) }
        ensures none { IfOk result (λ o. IfNone o ((s : StackValue) → IsChain self.now.program (vertices_in self.now.graph) (offered_in self.now.graph) v.now s → ⊥)) }
        ensures top { IfOk result (λ o. IfSome o (λ s. top_of s ≡ Some v.now)) }
    {
        let vertices = self.graph.vertices();
        let rows = self.hops.rows();
        let before = self.before.as_slice();
        let roots = self.roots.as_slice();
        match least_route(alloc, rows, before, roots, target)? {
            Some(route) => {
                let stack = frames(alloc, vertices, route.steps.as_slice())?;
                Ok(Some(stack))
            }
            None => Ok(None),
        }
    }
}

/// The least chain of one vertex, as by `Calls`; whoever asks for several makes these once.
pub fn chain(
    alloc: Global,
    program: &Program,
    graph: &Graph,
    v: Vertex,
) -> Result<Option<Stack>, Memory>
    requires { (t : TableValue) × IsGraphOf program.now t graph.now }
    ensures some { IfOk result (λ o. IfSome o (λ s. IsLeastChain program.now (vertices_in graph.now) (offered_in graph.now) v s)) }
    ensures none { IfOk result (λ o. IfNone o ((s : StackValue) → IsChain program.now (vertices_in graph.now) (offered_in graph.now) v s → ⊥)) }
    ensures top { IfOk result (λ o. IfSome o (λ s. top_of s ≡ Some v)) }
{
    let calls = Calls::of(alloc, program, graph)?;
    calls.chain(alloc, v)
}

/// Where a vertex stands among vertices.
fn place(vertices: &[Vertex], v: &Vertex) -> Option<usize>
    ensures some { IfSome result (λ i. slice_get vertices.now i ≡ Some v.now) }
    ensures none { IfNone result (Contains vertices.now v.now → ⊥) }
{
    for (i, w) in vertices.iter().enumerate() {
        if w == v {
            return Some(i);
        }
    }
    None
}
