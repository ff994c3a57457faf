//! What names stand for.
ghost use Rattle.std.specs.Prelude.{◌≡◌, ◌<◌, ◌≤◌, IfSome, length};
ghost use Rattle.breakpoint_eval.specs.Names.{global_named, is_called, local_named, place_named};

use gob_tree::{GlobalDecl, Slot};

/// The place of what a name stands for: the first declared local of the name, or else a global, whose
/// number comes behind those of the slots.
pub(crate) fn place_named(slots: &[Slot], globals: &[GlobalDecl], name: &[u8]) -> Option<u16>
    requires slots { length slots.now ≤ 128 }
    requires globals { length globals.now ≤ 64 }
    ensures { result ≡ place_named slots.now globals.now name.now }
{
    if let Some(place) = local_named(slots, name) {
        return Some(place);
    }
    match global_named(globals, name) {
        Some(g) => Some(slots.len() as u16 + g),
        None => None,
    }
}

/// The first declared local of a name.
fn local_named(slots: &[Slot], name: &[u8]) -> Option<u16>
    requires { length slots.now ≤ 128 }
    ensures { result ≡ local_named slots.now name.now }
{
    for i in 1..slots.len() {
        if is_called(name, slots[i].name.as_bytes()) {
            return Some(i as u16);
        }
    }
    None
}

fn global_named(globals: &[GlobalDecl], name: &[u8]) -> Option<u16>
    requires { length globals.now ≤ 64 }
    ensures value { result ≡ global_named globals.now name.now }
    ensures within { IfSome result (λ g. g < length globals.now) }
{
    for (i, global) in globals.iter().enumerate() {
        if is_called(name, global.name.as_bytes()) {
            return Some(i as u16);
        }
    }
    None
}

/// Whether what has this name of its own is called so; what has no name is called by none.
fn is_called(name: &[u8], own: &[u8]) -> bool
    ensures { result ≡ is_called name.now own.now }
{
    !own.is_empty() && own == name
}
