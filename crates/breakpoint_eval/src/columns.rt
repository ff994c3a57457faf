//! A comparison of one local with one number, decided for all vertices at once.
ghost use Rattle.std.specs.Prelude.{◌≡◌, ◌<◌, ◌≤ℤ◌, Contains, IfOk, filter, length, map};
ghost use Rattle.std.specs.Simd.Lanes.{zip2};
ghost use Rattle.lane_bounds.specs.Comparisons.{holds_for_some};
ghost use Rattle.constraint_sys.specs.declared.unknown.Unknown.TheVariants.{Point};
ghost use Rattle.constraint_sys.specs.Table.{value_at};
ghost use Rattle.arg_graph.specs.Vertices.{IsVertex};
ghost use Rattle.arg_graph.specs.declared.vertex.Vertex.{Vertex as TheVertex};
ghost use Rattle.breakpoint_eval.specs.Columns.{kept, low_at, high_at, may_hold_at, slot_at, slots_of_value};

use crate::comparison::Compared;
use crate::vertices::state_at;
use arg_graph::Vertex;
use constraint_sys::Table;
use gob_tree::{Memory, Seq};
use interval_dom::Interval;
use lane_bounds::may_hold;
use std::alloc::Global;

/// The low and the high ends of a slot's intervals at vertices.
#[derive(Drop)]
struct Columns {
    lo: Vec<i64>,
    hi: Vec<i64>,
}

/// Those of some vertices at which a comparison may hold. All memory but the answer's is taken first;
/// `Memory` is want of memory.
pub(crate) fn stopping_by_columns(
    alloc: Global,
    table: &Table,
    vertices: &[Vertex],
    by: Compared,
) -> Result<Seq<Vertex>, Memory>
    requires there { (v : TheVertex) → Contains vertices.now v → IsVertex table.now v }
    requires slot { (v : TheVertex) → Contains vertices.now v → by.slot < length (slots_of_value (value_at table.now (Point v.func v.key v.node))) }
    ensures value { IfOk result (λ at. at ≡ filter (may_hold_at table.now by) vertices.now) }
    ensures ordered { IfOk result (λ at. (v : TheVertex) → Contains vertices.now v → low_at table.now by.slot v ≤ℤ high_at table.now by.slot v) }
{
    let columns = ends_at(alloc, table, vertices, by.slot)?;
    let marks = marks_of(alloc, &columns, by)?;
    marked(alloc, vertices, marks.as_slice())
}

/// Whether a comparison may hold, place by place of the columns.
fn marks_of(alloc: Global, columns: &Columns, by: Compared) -> Result<Vec<bool>, Memory>
    requires { length columns.now.hi.items ≡ length columns.now.lo.items }
    ensures { IfOk result (λ marks. marks.items ≡ zip2 (holds_for_some by.op by.number) columns.now.lo.items columns.now.hi.items) }
{
    let mut marks = vec![in alloc; false; columns.lo.len()]?;
    may_hold(
        columns.lo.as_slice(),
        columns.hi.as_slice(),
        by.op,
        by.number,
        marks.as_mut_slice(),
    );
    Ok(marks)
}

/// The ends of a slot's intervals at vertices; their memory is taken first.
fn ends_at(alloc: Global, table: &Table, vertices: &[Vertex], slot: u16) -> Result<Columns, Memory>
    requires there { (v : TheVertex) → Contains vertices.now v → IsVertex table.now v }
    requires slot { (v : TheVertex) → Contains vertices.now v → slot < length (slots_of_value (value_at table.now (Point v.func v.key v.node))) }
    ensures lo { IfOk result (λ c. c.lo.items ≡ map (low_at table.now slot) vertices.now) }
    ensures hi { IfOk result (λ c. c.hi.items ≡ map (high_at table.now slot) vertices.now) }
    ensures ordered { IfOk result (λ c. (v : TheVertex) → Contains vertices.now v → low_at table.now slot v ≤ℤ high_at table.now slot v) }
{
    let mut lo = Vec::with_capacity(alloc, vertices.len())?;
    let mut hi = Vec::with_capacity(alloc, vertices.len())?;
    for v in vertices {
        let interval = slot_at(table, v, slot);
        lo.push(interval.lo())?;
        hi.push(interval.hi())?;
    }
    Ok(Columns { lo, hi })
}

/// The interval of a slot at a vertex.
#[tactic(auto, using(crate::proofs::Standing::slots_are, crate::proofs::Standing::slot_is))]
fn slot_at(table: &Table, v: &Vertex, slot: u16) -> Interval
    requires there { IsVertex table.now v.now }
    requires slot { slot < length (slots_of_value (value_at table.now (Point v.now.func v.now.key v.now.node))) }
    ensures { result ≡ slot_at table.now slot v.now }
{
    state_at(table, v).slot(slot)
}

/// The vertices whose marks are set.
fn marked(alloc: Global, vertices: &[Vertex], marks: &[bool]) -> Result<Seq<Vertex>, Memory>
    requires { length marks.now ≡ length vertices.now }
    ensures { IfOk result (λ at. at ≡ kept vertices.now marks.now) }
{
    let mut left = Seq::new(alloc);
    for (i, v) in vertices.iter().enumerate() {
        if marks[i] {
            left.push(*v)?;
        }
    }
    Ok(left)
}
