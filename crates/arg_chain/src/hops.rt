//! The calls of a graph as a graph of numbers.
ghost use Rattle.std.specs.Prelude.{◌≡◌, ◌≢◌, ◌<◌, ◌+◌, ◌++◌, ◌^◌, ℕ, IfOk, IsSomeAnd, OnOk, None, Some, length, slice_get};
ghost use Rattle.std.specs.List.{flat_map};
ghost use Rattle.std.specs.List.Sorted.{IsStrictlySortedBy};
ghost use Rattle.std.specs.Map.{lookup};
ghost use Rattle.arg_graph.specs.Graphs.{offered_in, vertex_cmp, vertex_eq, vertices_in};
ghost use Rattle.arg_graph.specs.declared.vertex.Vertex.{Vertex as TheVertex};
ghost use Rattle.arg_chain.specs.Calls.{AreInBlocks, HasMore, HasNumbersWithin, IsCallsOf, IsHopToMember, IsNumbered, context_of, hop_into, hop_of, number_in};
ghost use Rattle.arg_chain.specs.Walk.{steps_at};

use crate::hop::Hop;
use arg_graph::{Graph, Label, Step, Vertex};
use gob_tree::Memory;
use indexmap::IndexMap;
use std::alloc::Global;

/// The calls of a graph, by numbers: first its vertices, in their order, then the contexts in which they
/// stand. From a context a hop of edge 0 leads to each of its vertices, and from a vertex a hop of a
/// call's edge to the context that the call enters.
#[derive(Drop)]
pub struct Hops {
    numbers: IndexMap<Vertex, usize>,
    rows: Vec<Vec<Hop>>,
}

impl Hops {
    /// Those of a graph; `Memory` is want of memory.
    pub fn of(alloc: Global, graph: &Graph) -> Result<Hops, Memory>
        requires { IsStrictlySortedBy vertex_cmp (vertices_in graph.now) }
        ensures { IfOk result (λ c. IsCallsOf (vertices_in graph.now) (offered_in graph.now) c.numbers.entries c.rows.items) }
    {
        let vertices = graph.vertices();
        let numbers = number(alloc, vertices)?;
        let contexts = numbers.len();
        let mut rows = call_rows(alloc, graph, vertices, &numbers)?;
        add_empty_rows(alloc, &mut rows, contexts)?;
        add_members(&mut rows, vertices, &numbers)?;
        Ok(Hops { numbers, rows })
    }

    /// The hops from each number.
    pub(crate) fn rows(&self) -> &[Vec<Hop>]
        ensures { result.now ≡ self.now.rows.items }
    {
        self.rows.as_slice()
    }

    /// The number of a vertex's context.
    pub(crate) fn number(&self, v: &Vertex) -> Option<usize>
        ensures { result ≡ number_in self.now.numbers.entries v.now }
    {
        known(&self.numbers, v)
    }
}

fn known(numbers: &IndexMap<Vertex, usize>, v: &Vertex) -> Option<usize>
    ensures { result ≡ number_in numbers.now.entries v.now }
{
    numbers.get(&context(v)).copied()
}

/// A function in a context, by where it begins.
fn context(v: &Vertex) -> Vertex
    ensures { result ≡ context_of v.now }
{
    Vertex {
        func: v.func,
        key: v.key,
        node: 0,
    }
}

/// Numbers the contexts of vertices.
fn number(alloc: Global, vertices: &[Vertex]) -> Result<IndexMap<Vertex, usize>, Memory>
    requires { AreInBlocks vertices.now }
    ensures { IfOk result (λ numbers. IsNumbered vertices.now (length vertices.now) numbers.entries (length numbers.entries)) }
{
    let mut numbers = IndexMap::new(alloc);
    for i in 0..vertices.len() {
        add(&mut numbers, vertices, i)?;
    }
    Ok(numbers)
}

/// Numbers the context of one vertex more.
fn add(numbers: &mut IndexMap<Vertex, usize>, vertices: &[Vertex], i: usize) -> Result<(), Memory>
    requires blocks { AreInBlocks vertices.now }
    requires within { i < length vertices.now }
    requires before { IsNumbered vertices.now i numbers.old.entries (length numbers.old.entries) }
    ensures { OnOk result (IsNumbered vertices.now (i + 1) numbers.new.entries (length numbers.new.entries)) }
{
    let v = vertices[i];
    match known(numbers, &v) {
        Some(_) => Ok(()),
        None => {
            put(numbers, context(&v))?;
            Ok(())
        }
    }
}

/// Gives the next number to a context that has none.
fn put(numbers: &mut IndexMap<Vertex, usize>, start: Vertex) -> Result<(), Memory>
    requires { lookup (vertex_eq start) numbers.old.entries ≡ None }
    ensures len { OnOk result (length numbers.new.entries ≡ length numbers.old.entries + 1) }
    ensures here { OnOk result (lookup (vertex_eq start) numbers.new.entries ≡ Some (length numbers.old.entries)) }
    ensures others { (q : TheVertex) → OnOk result (q ≢ start → lookup (vertex_eq q) numbers.new.entries ≡ lookup (vertex_eq q) numbers.old.entries) }
{
    let k = numbers.len();
    numbers.insert(start, k)?;
    Ok(())
}

/// For each vertex the hops by the calls that it offers to enter.
fn call_rows(
    alloc: Global,
    graph: &Graph,
    vertices: &[Vertex],
    numbers: &IndexMap<Vertex, usize>,
) -> Result<Vec<Vec<Hop>>, Memory>
    requires fits { HasNumbersWithin (length vertices.now) numbers.now.entries }
    ensures len { IfOk result (λ rows. length rows.items ≡ length vertices.now) }
    ensures calls { (i : ℕ) (v : TheVertex) → slice_get vertices.now i ≡ Some v
        → IfOk result (λ rows. steps_at rows.items i ≡ flat_map (hop_of numbers.now.entries (length vertices.now)) (offered_in graph.now v)) }
{
    let mut rows = Vec::new(alloc);
    for v in vertices {
        rows.push(call_row(alloc, graph.out(*v), numbers, vertices.len())?)?;
    }
    Ok(rows)
}

fn call_row(
    alloc: Global,
    steps: &[Step],
    numbers: &IndexMap<Vertex, usize>,
    vertices: usize,
) -> Result<Vec<Hop>, Memory>
    requires fits { HasNumbersWithin vertices numbers.now.entries }
    ensures { IfOk result (λ row. row.items ≡ flat_map (hop_of numbers.now.entries vertices) steps.now) }
{
    let mut row = Vec::new(alloc);
    for step in steps {
        push_call(&mut row, step, numbers, vertices)?;
    }
    Ok(row)
}

fn push_call(
    row: &mut Vec<Hop>,
    step: &Step,
    numbers: &IndexMap<Vertex, usize>,
    vertices: usize,
) -> Result<(), Memory>
    requires fits { HasNumbersWithin vertices numbers.now.entries }
    ensures { OnOk result (row.new.items ≡ row.old.items ++ hop_of numbers.now.entries vertices step.now) }
{
    match step.label {
        Label::Enter(edge) => push_into(row, edge, known(numbers, &step.to), vertices),
        _ => Ok(()),
    }
}

fn push_into(
    row: &mut Vec<Hop>,
    edge: u32,
    number: Option<usize>,
    vertices: usize,
) -> Result<(), Memory>
    requires fits { (k : ℕ) → number ≡ Some k → vertices + k < 2 ^ 64 }
    ensures { OnOk result (row.new.items ≡ row.old.items ++ hop_into vertices edge number) }
{
    if let Some(k) = number {
        let to = vertices + k;
        row.push(Hop { edge, to })?;
    }
    Ok(())
}

/// Adds so many rows without hops.
fn add_empty_rows(alloc: Global, rows: &mut Vec<Vec<Hop>>, count: usize) -> Result<(), Memory>
    ensures len { OnOk result (length rows.new.items ≡ length rows.old.items + count) }
    ensures kept { (j : ℕ) → OnOk result (steps_at rows.new.items j ≡ steps_at rows.old.items j) }
{
    for _ in 0..count {
        rows.push(Vec::new(alloc))?;
    }
    Ok(())
}

/// Adds the hops from each context to its vertices.
fn add_members(
    rows: &mut Vec<Vec<Hop>>,
    vertices: &[Vertex],
    numbers: &IndexMap<Vertex, usize>,
) -> Result<(), Memory>
    requires each { (i : ℕ) (v : TheVertex) → slice_get vertices.now i ≡ Some v → IsSomeAnd (number_in numbers.now.entries v) (λ k. length vertices.now + k < length rows.old.items) }
    ensures len { OnOk result (length rows.new.items ≡ length rows.old.items) }
    ensures more { OnOk result (HasMore rows.old.items rows.new.items (IsHopToMember vertices.now (length vertices.now) numbers.now.entries (length vertices.now))) }
{
    for (i, v) in vertices.iter().enumerate() {
        match known(numbers, v) {
            Some(k) => push_hop(rows, vertices.len() + k, Hop { edge: 0, to: i })?,
            None => {}
        }
    }
    Ok(())
}

fn push_hop(rows: &mut Vec<Vec<Hop>>, from: usize, hop: Hop) -> Result<(), Memory>
    requires { from < length rows.old.items }
    ensures len { OnOk result (length rows.new.items ≡ length rows.old.items) }
    ensures more { OnOk result (HasMore rows.old.items rows.new.items (λ j h. (j ≡ from) × (h ≡ hop))) }
{
    rows[from].push(hop)?;
    Ok(())
}
