//! Where breakpoints stop.
ghost use Rattle.std.specs.Prelude.{◌≡◌, ◌++◌, ◌<◌, ◌^◌, Contains, IfOk, OnOk, Some, filter, length, true};
ghost use Rattle.gob_tree.specs.Formed.{IsFormed};
ghost use Rattle.state_dom.specs.Operators.{may_be};
ghost use Rattle.constraint_sys.specs.Sound.{IsShaped};
ghost use Rattle.constraint_sys.specs.Table.{slots_at};
ghost use Rattle.arg_graph.specs.Graphs.{IsGraphOf};
ghost use Rattle.arg_graph.specs.Vertices.{IsVertex};
ghost use Rattle.arg_graph.specs.declared.vertex.Vertex.{Vertex as TheVertex};
ghost use Rattle.breakpoint_eval.specs.declared.stop.Stop.{Stop as TheStop};
ghost use Rattle.breakpoint_eval.specs.Parting.{StandsAtItsBreak};
ghost use Rattle.breakpoint_eval.specs.Watching.{global_intervals, interval_at, may_stop, stop_with, stopping, stops_of};

use crate::columns::stopping_by_columns;
use crate::comparison::as_comparison;
use crate::placing::placed;
use crate::stop::{Break, Stop};
use crate::vertices::{global_intervals, slots_at};
use crate::watching::interval_at;
use arg_graph::{Graph, Vertex};
use c_parse::RawExpr;
use constraint_sys::Table;
use gob_tree::{Expr, Memory, Program, Seq};
use interval_dom::Interval;
use state_dom::may_be;
use std::alloc::Global;

/// A program with a table of its, and the intervals of all globals.
#[derive(Clone, Copy)]
struct Known<'k> {
    program: &'k Program,
    table: &'k Table,
    globals: &'k [Interval],
}

/// For each break in order the vertices at its node at which its condition may be other than 0, in the
/// order of unknowns. A break without a condition stops at each; one with an unknown name stops at
/// none; a break without such a vertex gives no stop. Each vertex of a stop stands at its break's
/// function and node. `Memory` is want of memory.
pub fn stops(
    alloc: Global,
    program: &Program,
    table: &Table,
    graph: &Graph,
    breaks: &[Break],
) -> Result<Vec<Stop>, Memory>
    requires formed { IsFormed program.now }
    requires shaped { IsShaped program.now table.now }
    requires graph { IsGraphOf program.now table.now graph.now }
    requires breaks { length breaks.now < 2 ^ 32 }
    ensures value { IfOk result (λ all. all.items ≡ stops_of program.now table.now breaks.now) }
    ensures at { IfOk result (λ all. (stop : TheStop) → Contains all.items stop → StandsAtItsBreak breaks.now stop) }
{
    let globals = global_intervals(alloc, program, table)?;
    let known = Known {
        program,
        table,
        globals: globals.as_slice(),
    };
    let mut stops = Vec::new(alloc);
    for (index, stop) in breaks.iter().enumerate() {
        let at = stopping(alloc, &known, graph, stop)?;
        push_stop(&mut stops, index as u32, at)?;
    }
    Ok(stops)
}

/// Adds the stop of a break; there is none without a vertex.
fn push_stop(stops: &mut Vec<Stop>, index: u32, at: Seq<Vertex>) -> Result<(), Memory>
    ensures { OnOk result (stops.new.items ≡ stops.old.items ++ stop_with index at) }
{
    if !at.is_empty() {
        stops.push(Stop { index, at })?;
    }
    Ok(())
}

/// The vertices at which a break stops.
fn stopping(
    alloc: Global,
    known: &Known<'_>,
    graph: &Graph,
    stop: &Break,
) -> Result<Seq<Vertex>, Memory>
    requires formed { IsFormed known.now.program.now }
    requires shaped { IsShaped known.now.program.now known.now.table.now }
    requires globals { known.now.globals.now ≡ global_intervals known.now.program.now known.now.table.now }
    requires graph { IsGraphOf known.now.program.now known.now.table.now graph.now }
    ensures { IfOk result (λ at. at ≡ stopping known.now.program.now known.now.table.now stop.now) }
{
    let vertices = graph.at_node(stop.func, stop.node);
    stopping_among(alloc, known, stop.func, vertices, &stop.cond)
}

/// Those of the vertices of a function at which a condition may hold; without one all of them.
fn stopping_among(
    alloc: Global,
    known: &Known<'_>,
    func: u16,
    vertices: &[Vertex],
    cond: &Option<RawExpr>,
) -> Result<Seq<Vertex>, Memory>
    requires formed { IsFormed known.now.program.now }
    requires shaped { IsShaped known.now.program.now known.now.table.now }
    requires globals { known.now.globals.now ≡ global_intervals known.now.program.now known.now.table.now }
    requires there { (v : TheVertex) → Contains vertices.now v → IsVertex known.now.table.now v }
    requires func { (v : TheVertex) → Contains vertices.now v → v.func ≡ func }
    ensures { IfOk result (λ at. at ≡ filter (may_stop known.now.program.now known.now.table.now cond.now) vertices.now) }
{
    match cond {
        None => all_of(alloc, vertices),
        Some(e) => stopping_with(alloc, known, func, vertices, e),
    }
}

fn all_of(alloc: Global, vertices: &[Vertex]) -> Result<Seq<Vertex>, Memory>
    ensures { IfOk result (λ at. at ≡ vertices.now) }
{
    Ok(Seq::from_vec(Vec::from_slice(alloc, vertices)?))
}

/// Those of the vertices of a function at which an expression may be other than 0; none where a name of
/// it stands for nothing.
fn stopping_with(
    alloc: Global,
    known: &Known<'_>,
    func: u16,
    vertices: &[Vertex],
    e: &RawExpr,
) -> Result<Seq<Vertex>, Memory>
    requires formed { IsFormed known.now.program.now }
    requires shaped { IsShaped known.now.program.now known.now.table.now }
    requires globals { known.now.globals.now ≡ global_intervals known.now.program.now known.now.table.now }
    requires there { (v : TheVertex) → Contains vertices.now v → IsVertex known.now.table.now v }
    requires func { (v : TheVertex) → Contains vertices.now v → v.func ≡ func }
    ensures { IfOk result (λ at. at ≡ filter (may_stop known.now.program.now known.now.table.now (Some e.now)) vertices.now) }
{
    let slots = slots_at(known.program, func);
    let form = placed(alloc, slots, known.program.globals.as_slice(), e)?;
    match form {
        Some(x) => stopping_where(alloc, known, slots.len(), vertices, &x),
        None => Ok(Seq::new(alloc)),
    }
}

/// Those of the vertices at which an expression over places may be other than 0.
fn stopping_where(
    alloc: Global,
    known: &Known<'_>,
    slots: usize,
    vertices: &[Vertex],
    x: &Expr,
) -> Result<Seq<Vertex>, Memory>
    requires shaped { IsShaped known.now.program.now known.now.table.now }
    requires globals { known.now.globals.now ≡ global_intervals known.now.program.now known.now.table.now }
    requires there { (v : TheVertex) → Contains vertices.now v → IsVertex known.now.table.now v }
    requires slots { (v : TheVertex) → Contains vertices.now v → slots ≡ length (slots_at known.now.program.now v.func) }
    ensures { IfOk result (λ at. at ≡ filter (λ v. may_be true (interval_at known.now.program.now known.now.table.now (Some v) x.now)) vertices.now) }
{
    match as_comparison(x, slots) {
        Some(by) => stopping_by_columns(alloc, known.table, vertices, by),
        None => stopping_one_by_one(alloc, known, vertices, x),
    }
}

/// The same, vertex by vertex.
fn stopping_one_by_one(
    alloc: Global,
    known: &Known<'_>,
    vertices: &[Vertex],
    x: &Expr,
) -> Result<Seq<Vertex>, Memory>
    requires globals { known.now.globals.now ≡ global_intervals known.now.program.now known.now.table.now }
    requires there { (v : TheVertex) → Contains vertices.now v → IsVertex known.now.table.now v }
    ensures { IfOk result (λ at. at ≡ filter (λ v. may_be true (interval_at known.now.program.now known.now.table.now (Some v) x.now)) vertices.now) }
{
    let mut left = Seq::new(alloc);
    for v in vertices {
        if may_be(
            true,
            &interval_at(known.program, known.table, known.globals, v, x),
        ) {
            left.push(*v)?;
        }
    }
    Ok(left)
}
