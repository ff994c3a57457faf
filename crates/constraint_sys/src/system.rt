//! What is looked up of a program again and again.
ghost use Rattle.std.specs.Prelude.{◌≡◌, ◌<◌, ℕ, IfOk, Some, [], length, nat_eq, slice_get};
ghost use Rattle.gob_tree.specs.Formed.{IsFormed, IsFormedFunction};
ghost use Rattle.constraint_sys.specs.Index.{IsIndexOf, IsSystemOf, has_end, numbers_where, row_at, row_of};

use gob_tree::{Edge, FuncGraph, Memory, Program, Seq};
use state_dom::Thresholds;
use std::alloc::Global;

/// A program's thresholds, and its edges by the node in which they end and by the one in which they
/// begin. It is made once a program.
#[derive(Drop)]
pub struct System {
    thresholds: Thresholds,
    ends: Seq<Seq<Seq<u32>>>,
    starts: Seq<Seq<Seq<u32>>>,
}

/// The end of an edge that an index goes by.
#[derive(Clone, Copy)]
enum End {
    To,
    From,
}

impl System {
    /// That of a program; `Memory` is want of memory.
    pub fn of(alloc: Global, program: &Program) -> Result<System, Memory>
        requires { IsFormed program.now }
        ensures { IfOk result (λ s. IsSystemOf program.now s) }
    {
        let thresholds = Thresholds::of(alloc, program)?;
        let ends = index(alloc, program, End::To)?;
        let starts = index(alloc, program, End::From)?;
        Ok(System {
            thresholds,
            ends,
            starts,
        })
    }

    /// The program's thresholds.
    pub fn thresholds(&self) -> &Thresholds
        ensures { result.now ≡ self.now.thresholds }
    {
        &self.thresholds
    }

    /// The numbers of a function's edges that end in a node, in order; none where the program has no
    /// such node.
    pub fn into(&self, func: u16, node: u16) -> &[u32]
        ensures { result.now ≡ row_at self.now.ends func node }
    {
        row(self.ends.as_slice(), func, node)
    }

    /// The numbers of a function's edges that begin in a node, in order; none where the program has
    /// no such node.
    pub fn out_of(&self, func: u16, node: u16) -> &[u32]
        ensures { result.now ≡ row_at self.now.starts func node }
    {
        row(self.starts.as_slice(), func, node)
    }
}

fn row<'a>(index: &'a [Seq<Seq<u32>>], func: u16, node: u16) -> &'a [u32]
    ensures { result.now ≡ row_at index.now func node }
{
    match index.get(func as usize) {
        Some(rows) => row_in(rows.as_slice(), node),
        None => &[],
    }
}

fn row_in<'a>(rows: &'a [Seq<u32>], node: u16) -> &'a [u32]
    ensures { result.now ≡ row_of (Some rows.now) node }
{
    match rows.get(node as usize) {
        Some(numbers) => numbers.as_slice(),
        None => &[],
    }
}

/// The numbers of the edges with each node of each function at one end.
fn index(alloc: Global, program: &Program, end: End) -> Result<Seq<Seq<Seq<u32>>>, Memory>
    requires { IsFormed program.now }
    ensures { IfOk result (λ rows. IsIndexOf program.now end rows) }
{
    let mut index = Seq::new(alloc);
    for function in program.funcs.as_slice() {
        index.push(rows(alloc, program, function, end)?)?;
    }
    Ok(index)
}

fn rows(
    alloc: Global,
    program: &Program,
    function: &FuncGraph,
    end: End,
) -> Result<Seq<Seq<u32>>, Memory>
    requires { IsFormedFunction program.now function.now }
    ensures { (node : ℕ) → IfOk result (λ rows. row_of (Some rows) node ≡ numbers_where (has_end end node) 0 function.now.edges) }
{
    let mut rows = empty_rows(alloc, function.nodes.len())?;
    for (i, edge) in function.edges.as_slice().iter().enumerate() {
        match rows.get_mut(at_end(edge, end) as usize) {
            Some(row) => row.push(i as u32)?,
            None => unreachable!(),
        }
    }
    Ok(Seq::from_vec(rows))
}

fn empty_rows(alloc: Global, count: usize) -> Result<Vec<Seq<u32>>, Memory>
    ensures length { IfOk result (λ rows. length rows.items ≡ count) }
    ensures empty { (node : ℕ) → node < count → IfOk result (λ rows. slice_get rows.items node ≡ Some []) }
{
    let mut rows = Vec::new(alloc);
    for _i in 0..count {
        rows.push(Seq::new(alloc))?;
    }
    Ok(rows)
}

fn at_end(edge: &Edge, end: End) -> u16
    ensures { (node : ℕ) → has_end end node edge.now ≡ nat_eq result node }
{
    match end {
        End::To => edge.to,
        End::From => edge.from,
    }
}
