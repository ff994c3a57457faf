//! The graphs of a unit, within their sizes.

ghost use Rattle.std.specs.Prelude.{◌≡◌, ◌≤◌, IfOk, map, length};
ghost use Rattle.c_meaning.specs.Graph.{graph_of, program_of};
ghost use Rattle.c_check.specs.Faults.{Checks, want_of_memory};
ghost use Rattle.c_check.specs.Front.{size_faults, graph_faults};

use crate::fault::{FrontFault, FrontKind, fault_at};
use cfg_build::{BuildFault, build};
use gob_tree::{FuncGraph, Function, GlobalDecl, Memory, Place, Program, Seq, Text, Unit};
use std::alloc::Global;

/// The greatest number of nodes that the graphs of a program have together.
const NODES: usize = 4096;

/// Want of memory, which has no place of its own.
pub(crate) fn want_of_memory() -> FrontFault
    ensures { result ≡ want_of_memory }
{
    fault_at(FrontKind::Memory, Place { line: 1, column: 1 })
}

/// The graph of a function, where the functions before it have so many nodes; `Limit` at its name
/// where it has too many slots, or where there are too many nodes up to and with its own.
fn graph_within(alloc: Global, function: &Function, nodes: usize) -> Result<FuncGraph, FrontFault>
    requires { nodes ≤ 4096 }
    ensures { Checks result (size_faults nodes function.now) (graph_of function.now) }
{
    match build(alloc, function) {
        Ok(graph) => {
            if NODES - nodes < graph.nodes.len() {
                return Err(fault_at(FrontKind::Limit, function.place));
            }
            Ok(graph)
        }
        Err(BuildFault::Limit) => Err(fault_at(FrontKind::Limit, function.place)),
        Err(BuildFault::Memory) => Err(want_of_memory()),
    }
}

/// The graphs of functions, in order.
pub(crate) fn graphs_of(alloc: Global, functions: &[Function]) -> Result<Seq<FuncGraph>, FrontFault>
    ensures { Checks result (graph_faults 0 functions.now) (map graph_of functions.now) }
{
    let mut graphs = Seq::new(alloc);
    let mut nodes = 0;
    for function in functions {
        let graph = graph_within(alloc, function, nodes)?;
        nodes += graph.nodes.len();
        graphs.push(graph)?;
    }
    Ok(graphs)
}

fn copy_globals(alloc: Global, globals: &[GlobalDecl]) -> Result<Seq<GlobalDecl>, Memory>
    ensures { IfOk result (λ copy. copy ≡ globals.now) }
{
    let mut list = Seq::new(alloc);
    for global in globals {
        let name = global.name.copy(alloc)?;
        list.push(GlobalDecl {
            name,
            width: global.width,
            initial: global.initial,
        })?;
    }
    Ok(list)
}

fn copy_texts(alloc: Global, texts: &[Text]) -> Result<Seq<Text>, Memory>
    ensures { IfOk result (λ copy. copy ≡ texts.now) }
{
    let mut list = Seq::new(alloc);
    for text in texts {
        let item = text.copy(alloc)?;
        list.push(item)?;
    }
    Ok(list)
}

/// The program of a unit, of the graphs of its functions; `Memory` is want of memory.
pub(crate) fn program_with(
    alloc: Global,
    unit: &Unit,
    graphs: Seq<FuncGraph>,
) -> Result<Program, Memory>
    requires { graphs ≡ map graph_of unit.now.funcs }
    ensures { IfOk result (λ program. program ≡ program_of unit.now) }
{
    let globals = copy_globals(alloc, unit.globals.as_slice())?;
    let mutexes = copy_texts(alloc, unit.mutexes.as_slice())?;
    Ok(Program {
        funcs: graphs,
        globals,
        mutexes,
        main: unit.main,
    })
}
