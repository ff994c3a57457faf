//! The points that read what rose.
ghost use Rattle.std.specs.Prelude.{◌≡◌, ◌↔◌, ◌⊎◌, ◌<◌, ◌∷◌, Contains, IfOk, IsTrue, OnOk, Some, length, slice_get};
ghost use Rattle.std.specs.Map.{keys_of};
ghost use Rattle.gob_tree.specs.Formed.{IsFormed};
ghost use Rattle.constraint_sys.specs.Contribution.{edges_into, outcome_of, read_by, reads_of};
ghost use Rattle.constraint_sys.specs.Index.{IsSystemOf};
ghost use Rattle.constraint_sys.specs.Reading.{HasCommon, may_read};
ghost use Rattle.constraint_sys.specs.Sound.{IsShaped};
ghost use Rattle.constraint_sys.specs.Table.{IsThere, edges_at};
ghost use Rattle.constraint_sys.specs.declared.unknown.Unknown.{Unknown as TheUnknown};
ghost use Rattle.constraint_sys.specs.declared.unknown.Unknown.TheVariants.{Point};

use crate::functions::function_at;
use crate::keys::point;
use crate::system::System;
use crate::table::Table;
use crate::transfer::outcome;
use crate::unknown::{Key, Unknown};
use gob_tree::{Action, Edge, Memory, Program};
use std::alloc::Global;

/// The points of the table that read one of these unknowns; `Memory` is want of memory.
pub(crate) fn readers(
    alloc: Global,
    program: &Program,
    system: &System,
    table: &Table,
    rose: &[Unknown],
) -> Result<Vec<Unknown>, Memory>
    requires formed { IsFormed program.now }
    requires system { IsSystemOf program.now system.now }
    requires shaped { IsShaped program.now table.now }
    ensures { (q : TheUnknown) → IfOk result (λ us. Contains us.items q ↔ (IsThere table.now q × HasCommon rose.now (read_by program.now table.now q))) }
{
    let mut found = Vec::new(alloc);
    for i in 0..table.len() {
        note_reader(alloc, program, system, table, rose, i, &mut found)?;
    }
    Ok(found)
}

/// Adds the unknown at a place of the table, where it reads one of these unknowns.
fn note_reader(
    alloc: Global,
    program: &Program,
    system: &System,
    table: &Table,
    rose: &[Unknown],
    i: usize,
    found: &mut Vec<Unknown>,
) -> Result<(), Memory>
    requires formed { IsFormed program.now }
    requires system { IsSystemOf program.now system.now }
    requires shaped { IsShaped program.now table.now }
    ensures { (q : TheUnknown) → OnOk result (Contains found.new.items q ↔ (Contains found.old.items q ⊎ ((slice_get (keys_of table.now) i ≡ Some q) × HasCommon rose.now (read_by program.now table.now q)))) }
{
    let Some(q) = table.unknown(i) else {
        return Ok(());
    };
    if reads_any(alloc, program, system, table, &q, rose)? {
        found.push(q)?;
    }
    Ok(())
}

/// Whether a point of the table reads one of these unknowns.
fn reads_any(
    alloc: Global,
    program: &Program,
    system: &System,
    table: &Table,
    q: &Unknown,
    rose: &[Unknown],
) -> Result<bool, Memory>
    requires formed { IsFormed program.now }
    requires system { IsSystemOf program.now system.now }
    requires shaped { IsShaped program.now table.now }
    requires there { IsThere table.now q.now }
    ensures { IfOk result (λ yes. IsTrue yes ↔ HasCommon rose.now (read_by program.now table.now q.now)) }
{
    match q {
        Unknown::Point { func, key, node } if *node > 0 => {
            let point = NodeInContext {
                func: *func,
                key: *key,
                node: *node,
            };
            point_reads_any(alloc, program, system, table, &point, rose)
        }
        _ => Ok(false),
    }
}

/// A node of a function in a context.
#[derive(Clone, Copy)]
struct NodeInContext {
    func: u16,
    key: Key,
    node: u16,
}

fn point_reads_any(
    alloc: Global,
    program: &Program,
    system: &System,
    table: &Table,
    point: &NodeInContext,
    rose: &[Unknown],
) -> Result<bool, Memory>
    requires formed { IsFormed program.now }
    requires system { IsSystemOf program.now system.now }
    requires shaped { IsShaped program.now table.now }
    requires in_range { point.now.func < length program.now.funcs }
    ensures { IfOk result (λ yes. IsTrue yes ↔ HasCommon rose.now (reads_of program.now table.now point.now.func point.now.key (edges_into program.now point.now.func point.now.node))) }
{
    let func = point.func;
    let edges = function_at(program, func).edges.as_slice();
    for i in system.into(func, point.node) {
        let n = *i as usize;
        let edge = &edges[n];
        let reads = edge_reads_any(alloc, program, table, func, &point.key, edge, rose)?;
        if reads {
            return Ok(true);
        }
    }
    Ok(false)
}

/// Whether an edge reads one of these unknowns. What it may read is looked at first, as what it does
/// read may take the values of a call's arguments.
fn edge_reads_any(
    alloc: Global,
    program: &Program,
    table: &Table,
    func: u16,
    key: &Key,
    edge: &Edge,
    rose: &[Unknown],
) -> Result<bool, Memory>
    requires formed { IsFormed program.now }
    requires shaped { IsShaped program.now table.now }
    requires edge { Contains (edges_at program.now func) edge.now }
    ensures { IfOk result (λ yes. IsTrue yes ↔ HasCommon rose.now (Point func key.now edge.now.from ∷ (outcome_of program.now table.now func key.now edge.now).reads)) }
{
    if has_unknown(rose, &point(func, key, edge.from)) {
        return Ok(true);
    }
    if !may_read_any(&edge.act, rose) {
        return Ok(false);
    }
    let outcome = outcome(alloc, program, table, func, key, edge)?;
    Ok(has_common(rose, outcome.reads.as_slice()))
}

fn may_read_any(act: &Action, rose: &[Unknown]) -> bool
    ensures { IsTrue result ↔ ((r : TheUnknown) × Contains rose.now r × IsTrue (may_read act.now r)) }
{
    rose.iter().any(|r| may_read(act, r))
}

/// Whether an action, in some state, reads this unknown.
fn may_read(act: &Action, r: &Unknown) -> bool
    ensures { result ≡ may_read act.now r.now }
{
    match (act, r) {
        (Action::Read(_, g), Unknown::Global(h)) => *g == *h,
        (Action::Call(_, f, _), Unknown::Point { func, node, .. }) => *f == *func && *node == 1,
        _ => false,
    }
}

pub(crate) fn has_unknown(us: &[Unknown], u: &Unknown) -> bool
    ensures { IsTrue result ↔ Contains us.now u.now }
{
    us.contains(u)
}

fn has_common(xs: &[Unknown], ys: &[Unknown]) -> bool
    ensures { IsTrue result ↔ HasCommon xs.now ys.now }
{
    ys.iter().any(|y| has_unknown(xs, y))
}
