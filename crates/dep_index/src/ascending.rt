//! Ascending lists of unknowns, each once.
ghost use Rattle.std.specs.Prelude.{◌≡◌, ◌≢◌, ◌⊎◌, ◌↔◌, ◌<◌, ◌≤◌, Contains, insert, vec_len};
ghost use Rattle.std.specs.Vec.{vec_capacity};
ghost use Rattle.constraint_sys.specs.Table.{unknown_cmp};
ghost use Rattle.constraint_sys.specs.declared.unknown.Unknown.{Unknown as TheUnknown};
ghost use Rattle.dep_index.specs.Rows.{IsAscending};

use constraint_sys::Unknown;

/// Adds an unknown at its place, unless it is there.
pub(crate) fn put_in(members: &mut Vec<Unknown>, q: &Unknown)
    requires room { (vec_len members.old < vec_capacity members.old) ⊎ Contains members.old.items q.now }
    requires ascending { IsAscending unknown_cmp members.old.items }
    ensures members { (y : TheUnknown) → Contains members.new.items y ↔ (Contains members.old.items y ⊎ (y ≡ q.now)) }
    ensures ascending { IsAscending unknown_cmp members.new.items }
{
    match members.binary_search(q) {
        Ok(_) => {}
        Err(place) => insert_reserved(members, place, q),
    }
}

fn insert_reserved(members: &mut Vec<Unknown>, place: usize, q: &Unknown)
    requires room { vec_len members.old < vec_capacity members.old }
    requires place { place ≤ vec_len members.old }
    ensures { members.new.items ≡ insert members.old.items place q.now }
{
    match members.insert(place, *q) {
        Ok(()) => {}
        Err(_) => unreachable!(),
    }
}

/// Takes an unknown out, if it is there.
pub(crate) fn take_out(members: &mut Vec<Unknown>, q: &Unknown)
    requires { IsAscending unknown_cmp members.old.items }
    ensures members { (y : TheUnknown) → Contains members.new.items y ↔ (Contains members.old.items y × (y ≢ q.now)) }
    ensures ascending { IsAscending unknown_cmp members.new.items }
    ensures len { vec_len members.new ≤ vec_len members.old }
    ensures capacity { vec_capacity members.new ≡ vec_capacity members.old }
{
    match members.binary_search(q) {
        Ok(place) => {
            members.remove(place);
        }
        Err(_) => {}
    }
}
