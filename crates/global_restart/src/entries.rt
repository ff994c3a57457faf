//! The unknowns of a table, one by one.
ghost use Rattle.std.specs.Prelude.{◌≡◌, ◌<◌, Some, length, slice_get};
ghost use Rattle.std.specs.Map.{keys_of};

use constraint_sys::{Table, Unknown};

/// The unknown of an entry, counted from 0 in the order of arising.
pub(crate) fn unknown_at(table: &Table, index: usize) -> Unknown
    requires { index < length table.now }
    ensures { slice_get (keys_of table.now) index ≡ Some result }
{
    match table.unknown(index) {
        Some(u) => u,
        None => unreachable!(),
    }
}
