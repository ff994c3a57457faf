//! Maps from names.

ghost use Rattle.std.specs.Prelude.{◌≡◌, List, ℕ, cond, Some, None, OnOk, OnErr};
ghost use Rattle.std.specs.Str.{bytes_eq};
ghost use Rattle.c_check.specs.Tables.{at_name};

use gob_tree::Memory;
use indexmap::IndexMap;

/// Puts a value at a name. It fails only for want of memory, and only where the name isn't there;
/// then the map stays as it was.
pub(crate) fn put<V: Drop>(
    map: &mut IndexMap<Vec<u8>, V>,
    name: Vec<u8>,
    value: V,
) -> Result<(), Memory>
    ensures ok { (x : List ℕ) → OnOk result (at_name x map.new.entries ≡ cond (bytes_eq x name.items) (Some value) (at_name x map.old.entries)) }
    ensures err { OnErr result (map.new.entries ≡ map.old.entries) }
    ensures absent { OnErr result (at_name name.items map.old.entries ≡ None) }
{
    map.insert(name, value)?;
    Ok(())
}
