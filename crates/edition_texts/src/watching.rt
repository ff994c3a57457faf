//! What expressions are in the edition of a text.
ghost use Rattle.std.specs.Prelude.{◌≡◌, IfSome, true};
ghost use Rattle.arg_graph.specs.Vertices.{IsVertex, is_vertex};

use crate::asking::opened;
use crate::begin::program_of;
use crate::unanswered::Unanswered;
use arg_graph::Vertex;
use breakpoint_eval::{WatchFault, watch};
use c_parse::{RawExpr, parse_expr};
use constraint_sys::{Table, Unknown, Value};
use edition_core::Edition;
use interval_dom::Interval;
use std::alloc::Global;

/// The ends of the interval of an expression at a vertex, or without one of the globals alone; `None`
/// where it has no value.
pub fn watched(
    alloc: Global,
    text: &[u8],
    v: Option<Vertex>,
    expression: &[u8],
) -> Result<Option<(i64, i64)>, Unanswered> {
    let edition = opened(alloc, text)?;
    let expression = parse_expr(alloc, expression)?;
    if !is_there(edition.table(), &v) {
        return Err(Unanswered::NoVertex);
    }
    match seen(alloc, &edition, &expression, v)? {
        Some(interval) => Ok(Some((interval.lo(), interval.hi()))),
        None => Ok(None),
    }
}

fn seen(
    alloc: Global,
    edition: &Edition,
    expression: &RawExpr,
    v: Option<Vertex>,
) -> Result<Option<Interval>, WatchFault>
    requires { IfSome v (λ v. IsVertex edition.now.table v) }
{
    let program = program_of(edition);
    watch(alloc, expression, program, edition.table(), v)
}

/// Whether what is given is a vertex.
fn is_there(table: &Table, v: &Option<Vertex>) -> bool
    ensures { result ≡ true → IfSome v.now (λ v. IsVertex table.now v) }
{
    match v {
        Some(v) => is_vertex(table, v),
        None => true,
    }
}

fn is_vertex(table: &Table, v: &Vertex) -> bool
    ensures { result ≡ is_vertex table.now v.now }
{
    let point = Unknown::Point {
        func: v.func,
        key: v.key,
        node: v.node,
    };
    match table.get(&point) {
        Some(Value::State(state)) => !state.is_bottom(),
        Some(Value::Number(_)) => false,
        None => false,
    }
}
