//! A map from unknowns to lists of unknowns; one without a row has the empty one.
ghost use Rattle.std.specs.Prelude.{◌≡◌, ◌≢◌, ◌⊎◌, ◌↔◌, None, Some, OnOk, OnErr, IfOk, Contains, [], length, vec_len};
ghost use Rattle.constraint_sys.specs.Table.{unknown_cmp};
ghost use Rattle.constraint_sys.specs.declared.unknown.Unknown.{Unknown as TheUnknown};
ghost use Rattle.dep_index.specs.Rows.{items_of, row_at, set_at, HasRoom, IsAscending};

use crate::ascending::{put_in, take_out};
use constraint_sys::Unknown;
use gob_tree::Memory;
use indexmap::IndexMap;
use std::alloc::Global;

/// The row of an unknown.
pub(crate) fn row<'a>(rows: &'a IndexMap<Unknown, Vec<Unknown>>, u: &Unknown) -> &'a [Unknown]
    ensures { result.now ≡ set_at rows.now.entries u.now }
{
    match rows.get(u) {
        Some(row) => row.as_slice(),
        None => &[],
    }
}

/// Adds a member to a row that has room, or has it.
fn put_member(rows: &mut IndexMap<Unknown, Vec<Unknown>>, u: &Unknown, q: &Unknown)
    requires room { HasRoom rows.old.entries u.now ⊎ Contains (set_at rows.old.entries u.now) q.now }
    requires ascending { IsAscending unknown_cmp (set_at rows.old.entries u.now) }
    ensures members { (y : TheUnknown) → Contains (set_at rows.new.entries u.now) y ↔ (Contains (set_at rows.old.entries u.now) y ⊎ (y ≡ q.now)) }
    ensures ascending { IsAscending unknown_cmp (set_at rows.new.entries u.now) }
    ensures others { (w : TheUnknown) → w ≢ u.now → row_at rows.new.entries w ≡ row_at rows.old.entries w }
{
    match rows.get_mut(u) {
        Some(row) => put_in(row, q),
        None => unreachable!(),
    }
}

/// Takes a member out of a row, if it is there.
fn take_member(rows: &mut IndexMap<Unknown, Vec<Unknown>>, u: &Unknown, q: &Unknown)
    requires { IsAscending unknown_cmp (set_at rows.old.entries u.now) }
    ensures members { (y : TheUnknown) → Contains (set_at rows.new.entries u.now) y ↔ (Contains (set_at rows.old.entries u.now) y × (y ≢ q.now)) }
    ensures ascending { IsAscending unknown_cmp (set_at rows.new.entries u.now) }
    ensures others { (w : TheUnknown) → w ≢ u.now → row_at rows.new.entries w ≡ row_at rows.old.entries w }
    ensures room { HasRoom rows.old.entries u.now → HasRoom rows.new.entries u.now }
{
    match rows.get_mut(u) {
        Some(row) => take_out(row, q),
        None => {}
    }
}

/// Makes room for one more member in a row; `Memory` is want of memory. No row changes.
fn reserve_member(
    alloc: Global,
    rows: &mut IndexMap<Unknown, Vec<Unknown>>,
    u: &Unknown,
) -> Result<(), Memory>
    ensures same { (w : TheUnknown) → set_at rows.new.entries w ≡ set_at rows.old.entries w }
    ensures room { OnOk result (HasRoom rows.new.entries u.now) }
    ensures rooms { (w : TheUnknown) → HasRoom rows.old.entries w → HasRoom rows.new.entries w }
{
    add_row(alloc, rows, u)?;
    reserve_row(rows, u)
}

fn reserve_row(rows: &mut IndexMap<Unknown, Vec<Unknown>>, u: &Unknown) -> Result<(), Memory>
    requires { row_at rows.old.entries u.now ≢ None }
    ensures same { set_at rows.new.entries u.now ≡ set_at rows.old.entries u.now }
    ensures others { (w : TheUnknown) → w ≢ u.now → row_at rows.new.entries w ≡ row_at rows.old.entries w }
    ensures room { OnOk result (HasRoom rows.new.entries u.now) }
    ensures kept { HasRoom rows.old.entries u.now → HasRoom rows.new.entries u.now }
{
    match rows.get_mut(u) {
        Some(row) => {
            row.reserve(1)?;
            Ok(())
        }
        None => unreachable!(),
    }
}

/// Gives an unknown a row, if it has none; `Memory` is want of memory. No row changes.
pub(crate) fn add_row(
    alloc: Global,
    rows: &mut IndexMap<Unknown, Vec<Unknown>>,
    u: &Unknown,
) -> Result<(), Memory>
    ensures there { OnOk result (row_at rows.new.entries u.now ≢ None) }
    ensures same { set_at rows.new.entries u.now ≡ set_at rows.old.entries u.now }
    ensures others { (w : TheUnknown) → w ≢ u.now → row_at rows.new.entries w ≡ row_at rows.old.entries w }
    ensures kept { HasRoom rows.old.entries u.now → HasRoom rows.new.entries u.now }
{
    if !rows.contains_key(u) {
        put(rows, u, Vec::new(alloc))?;
    }
    Ok(())
}

/// Gives an unknown a row. It fails only where the unknown has none.
fn put(
    rows: &mut IndexMap<Unknown, Vec<Unknown>>,
    u: &Unknown,
    row: Vec<Unknown>,
) -> Result<(), Memory>
    ensures row { OnOk result (row_at rows.new.entries u.now ≡ Some row) }
    ensures others { (w : TheUnknown) → w ≢ u.now → row_at rows.new.entries w ≡ row_at rows.old.entries w }
    ensures err { OnErr result (rows.new.entries ≡ rows.old.entries) }
    ensures absent { OnErr result (row_at rows.old.entries u.now ≡ None) }
{
    rows.insert(*u, row)?;
    Ok(())
}

/// Makes room for one more member in each of these rows; `Memory` is want of memory. No row changes.
pub(crate) fn reserve_each(
    alloc: Global,
    rows: &mut IndexMap<Unknown, Vec<Unknown>>,
    us: &[Unknown],
) -> Result<(), Memory>
    ensures same { (w : TheUnknown) → set_at rows.new.entries w ≡ set_at rows.old.entries w }
    ensures room { (w : TheUnknown) → OnOk result (Contains us.now w → HasRoom rows.new.entries w) }
{
    for u in us {
        reserve_member(alloc, rows, u)?;
    }
    Ok(())
}

/// Takes a member out of each of these rows.
pub(crate) fn take_each(rows: &mut IndexMap<Unknown, Vec<Unknown>>, us: &[Unknown], q: &Unknown)
    requires { (w : TheUnknown) → IsAscending unknown_cmp (set_at rows.old.entries w) }
    ensures members { (w y : TheUnknown) → Contains (set_at rows.new.entries w) y ↔ (Contains (set_at rows.old.entries w) y × ((y ≡ q.now) × Contains us.now w → ⊥)) }
    ensures ascending { (w : TheUnknown) → IsAscending unknown_cmp (set_at rows.new.entries w) }
    ensures rooms { (w : TheUnknown) → HasRoom rows.old.entries w → HasRoom rows.new.entries w }
{
    for u in us {
        take_member(rows, u, q);
    }
}

/// Adds a member to each of these rows, which have room.
pub(crate) fn put_each(rows: &mut IndexMap<Unknown, Vec<Unknown>>, us: &[Unknown], q: &Unknown)
    requires room { (w : TheUnknown) → Contains us.now w → HasRoom rows.old.entries w }
    requires ascending { (w : TheUnknown) → IsAscending unknown_cmp (set_at rows.old.entries w) }
    ensures members { (w y : TheUnknown) → Contains (set_at rows.new.entries w) y ↔ (Contains (set_at rows.old.entries w) y ⊎ ((y ≡ q.now) × Contains us.now w)) }
    ensures ascending { (w : TheUnknown) → IsAscending unknown_cmp (set_at rows.new.entries w) }
{
    for u in us {
        put_member(rows, u, q);
    }
}

/// Takes a member out of each of the rows that an old list names.
pub(crate) fn take_old(
    rows: &mut IndexMap<Unknown, Vec<Unknown>>,
    old: &Option<Vec<Unknown>>,
    q: &Unknown,
)
    requires { (w : TheUnknown) → IsAscending unknown_cmp (set_at rows.old.entries w) }
    ensures members { (w y : TheUnknown) → Contains (set_at rows.new.entries w) y ↔ (Contains (set_at rows.old.entries w) y × ((y ≡ q.now) × Contains (items_of old.now) w → ⊥)) }
    ensures ascending { (w : TheUnknown) → IsAscending unknown_cmp (set_at rows.new.entries w) }
    ensures rooms { (w : TheUnknown) → HasRoom rows.old.entries w → HasRoom rows.new.entries w }
{
    match old {
        Some(us) => take_each(rows, us.as_slice(), q),
        None => {}
    }
}

/// Gives an unknown a row, and hands out the old one. `Memory` is want of memory, and leaves all rows.
pub(crate) fn exchange(
    rows: &mut IndexMap<Unknown, Vec<Unknown>>,
    u: &Unknown,
    row: Vec<Unknown>,
) -> Result<Option<Vec<Unknown>>, Memory>
    ensures old { IfOk result (λ old. items_of old ≡ set_at rows.old.entries u.now) }
    ensures new { OnOk result (set_at rows.new.entries u.now ≡ row.items) }
    ensures others { (w : TheUnknown) → w ≢ u.now → row_at rows.new.entries w ≡ row_at rows.old.entries w }
    ensures err { OnErr result (rows.new.entries ≡ rows.old.entries) }
{
    let old = rows.insert(*u, row)?;
    Ok(old)
}

/// Takes the row of an unknown away, if it has one.
pub(crate) fn remove_row(
    rows: &mut IndexMap<Unknown, Vec<Unknown>>,
    u: &Unknown,
) -> Option<Vec<Unknown>>
    ensures old { items_of result ≡ set_at rows.old.entries u.now }
    ensures new { row_at rows.new.entries u.now ≡ None }
    ensures others { (w : TheUnknown) → w ≢ u.now → row_at rows.new.entries w ≡ row_at rows.old.entries w }
{
    rows.swap_remove(u)
}
