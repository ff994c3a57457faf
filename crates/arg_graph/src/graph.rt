//! The reachability graph of a table.
ghost use Rattle.std.specs.Prelude.{◌≡◌, ◌≢◌, ◌<◌, ◌++◌, ◌∷◌, [], ℕ, All, IfOk, IfSome, IsSome, IsTrue, OnOk, OnErr, Some, None, Contains, filter, if◌then◌else◌, length, slice_get};
ghost use Rattle.std.specs.List.{flat_map};
ghost use Rattle.std.specs.Option.{option_copied};
ghost use Rattle.gob_tree.specs.Formed.{IsFormed};
ghost use Rattle.constraint_sys.specs.Index.{IsSystemOf};
ghost use Rattle.constraint_sys.specs.Sound.{IsShaped};
ghost use Rattle.constraint_sys.specs.Table.{nodes_at, value_at};
ghost use Rattle.arg_graph.specs.Following.{after_of, target_of};
ghost use Rattle.arg_graph.specs.Graphs.{HasRoom, IsGraphOf, nodes_in, offered_in, row_for, row_in, row_of, steps_in, vertices_in};
ghost use Rattle.arg_graph.specs.Offered.{offered};
ghost use Rattle.arg_graph.specs.Vertices.{has_state, is_at, vertex_of, vertices_of};
ghost use Rattle.arg_graph.specs.declared.vertex.Vertex.{Vertex as TheVertex};

use crate::offered::offered;
use crate::vertex::{Label, Step, Vertex};
use constraint_sys::{System, Table, Unknown, Value};
use gob_tree::{Memory, Program, Seq};
use indexmap::IndexMap;
use std::alloc::Global;

/// The vertices of a table and the steps that are offered at each.
#[derive(Drop)]
pub struct Graph {
    vertices: Seq<Vertex>,
    steps: IndexMap<Vertex, Seq<Step>>,
    nodes: Vec<Vec<Seq<Vertex>>>,
}

impl Graph {
    /// That of a program's table; `Memory` is want of memory.
    pub fn of(alloc: Global, program: &Program, table: &Table) -> Result<Graph, Memory>
        requires formed { IsFormed program.now }
        requires shaped { IsShaped program.now table.now }
        ensures { IfOk result (λ g. IsGraphOf program.now table.now g) }
    {
        let system = System::of(alloc, program)?;
        let order = table.sorted(alloc)?;
        // no unknown stands twice in a table: `len` says so
        let _unknowns = table.len();
        let vertices = vertices(alloc, table, order.as_slice())?;
        let steps = steps(alloc, program, &system, table, vertices.as_slice())?;
        let nodes = by_node(alloc, program, vertices.as_slice())?;
        Ok(Graph {
            vertices,
            steps,
            nodes,
        })
    }

    /// All vertices, in the order of unknowns.
    pub fn vertices(&self) -> &[Vertex]
        ensures { result.now ≡ vertices_in self.now }
    {
        self.vertices.as_slice()
    }

    /// The steps that are offered at a vertex, in the order of its function's edges; none where it is
    /// no vertex of the table.
    pub fn out(&self, v: Vertex) -> &[Step]
        ensures { result.now ≡ offered_in self.now v }
    {
        match self.steps.get(&v) {
            Some(steps) => steps.as_slice(),
            None => &[],
        }
    }

    /// The vertices at a node of a function, in the order of unknowns.
    pub fn at_node(&self, func: u16, node: u16) -> &[Vertex]
        ensures { result.now ≡ nodes_in self.now func node }
    {
        match self.nodes.get(func as usize) {
            Some(rows) => row_for(rows.as_slice(), node),
            None => &[],
        }
    }

    /// Where a call that was entered at a vertex goes on once it has returned: the target of `Over`;
    /// `None` exactly where that isn't offered.
    pub fn after(&self, v: Vertex, edge: u32) -> Option<Vertex>
        ensures { result ≡ after_of (offered_in self.now) v edge }
    {
        target(self.out(v), Label::Over(edge))
    }
}

/// Where a label leads among steps; `None` exactly where it isn't among them.
pub fn target(steps: &[Step], label: Label) -> Option<Vertex>
    ensures { result ≡ target_of label steps.now }
{
    for step in steps {
        if step.label == label {
            return Some(step.to);
        }
    }
    None
}

fn row_for(rows: &[Seq<Vertex>], node: u16) -> &[Vertex]
    ensures { result.now ≡ row_for rows.now node }
{
    match rows.get(node as usize) {
        Some(vertices) => vertices.as_slice(),
        None => &[],
    }
}

/// The vertices among unknowns, in their order.
fn vertices(alloc: Global, table: &Table, order: &[Unknown]) -> Result<Seq<Vertex>, Memory>
    ensures { IfOk result (λ vs. vs ≡ flat_map (vertex_of table.now) order.now) }
{
    let mut vertices = Seq::new(alloc);
    for u in order {
        push_vertex(&mut vertices, table, u)?;
    }
    Ok(vertices)
}

fn push_vertex(vertices: &mut Seq<Vertex>, table: &Table, u: &Unknown) -> Result<(), Memory>
    ensures { OnOk result (vertices.new ≡ vertices.old ++ vertex_of table.now u.now) }
{
    match *u {
        Unknown::Point { func, key, node } => {
            if has_state(table.get(u)) {
                return vertices.push(Vertex { func, key, node });
            }
            Ok(())
        }
        Unknown::Global(_) => Ok(()),
    }
}

fn has_state(value: Option<&Value>) -> bool
    ensures { result ≡ has_state (option_copied value.entry) }
{
    match value {
        Some(Value::State(state)) => !state.is_bottom(),
        _ => false,
    }
}

/// The steps of each vertex.
fn steps(
    alloc: Global,
    program: &Program,
    system: &System,
    table: &Table,
    vertices: &[Vertex],
) -> Result<IndexMap<Vertex, Seq<Step>>, Memory>
    requires formed { IsFormed program.now }
    requires system { IsSystemOf program.now system.now }
    requires shaped { IsShaped program.now table.now }
    requires within { (v : TheVertex) → Contains vertices.now v → v.func < length program.now.funcs }
    ensures right { (v : TheVertex) → IfOk result (λ m. IfSome (steps_in m.entries v) (λ ss. ss ≡ offered program.now table.now v)) }
    ensures all { (v : TheVertex) → Contains vertices.now v → IfOk result (λ m. IsSome (steps_in m.entries v)) }
{
    let mut all = IndexMap::new(alloc);
    for v in vertices {
        let steps = offered(alloc, program, system, table, v)?;
        put(&mut all, *v, steps)?;
    }
    Ok(all)
}

fn put(all: &mut IndexMap<Vertex, Seq<Step>>, v: Vertex, steps: Seq<Step>) -> Result<(), Memory>
    ensures here { OnOk result (steps_in all.new.entries v ≡ Some steps) }
    ensures others { (q : TheVertex) → OnOk result (q ≢ v → steps_in all.new.entries q ≡ steps_in all.old.entries q) }
{
    all.insert(v, steps)?;
    Ok(())
}

/// The vertices at each node of each function, in the order in which they come.
fn by_node(
    alloc: Global,
    program: &Program,
    vertices: &[Vertex],
) -> Result<Vec<Vec<Seq<Vertex>>>, Memory>
    requires { (v : TheVertex) → Contains vertices.now v → v.node < length (nodes_at program.now v.func) }
    ensures { (f node : ℕ) → IfOk result (λ rows. row_of rows.items f node ≡ filter (is_at f node) vertices.now) }
{
    let mut rows = no_rows(alloc, program)?;
    for v in vertices {
        add(&mut rows, *v)?;
    }
    Ok(rows)
}

/// Adds a vertex to the list of its node.
fn add(rows: &mut Vec<Vec<Seq<Vertex>>>, v: Vertex) -> Result<(), Memory>
    requires { HasRoom rows.old.items v.func v.node }
    ensures at { (f node : ℕ) → OnOk result (row_of rows.new.items f node ≡ row_of rows.old.items f node ++ (if is_at f node v then v ∷ [] else [])) }
    ensures room { (f node : ℕ) → HasRoom rows.old.items f node → OnOk result (HasRoom rows.new.items f node) }
{
    rows[v.func as usize][v.node as usize].push(v)?;
    Ok(())
}

/// No vertex at any node.
fn no_rows(alloc: Global, program: &Program) -> Result<Vec<Vec<Seq<Vertex>>>, Memory>
    ensures none { (f node : ℕ) → IfOk result (λ rows. row_of rows.items f node ≡ []) }
    ensures room { (f node : ℕ) → node < length (nodes_at program.now f) → IfOk result (λ rows. HasRoom rows.items f node) }
{
    let mut rows = Vec::new(alloc);
    for function in program.funcs.as_slice() {
        rows.push(empty_rows(alloc, function.nodes.len())?)?;
    }
    Ok(rows)
}

fn empty_rows(alloc: Global, count: usize) -> Result<Vec<Seq<Vertex>>, Memory>
    ensures length { IfOk result (λ rows. length rows.items ≡ count) }
    ensures empty { (node : ℕ) → IfOk result (λ rows. row_for rows.items node ≡ []) }
{
    let mut rows = Vec::new(alloc);
    for _i in 0..count {
        rows.push(Seq::new(alloc))?;
    }
    Ok(rows)
}
