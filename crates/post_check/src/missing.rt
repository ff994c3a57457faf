//! What a table lacks: roots, and nodes of the functions and contexts of its points.
ghost use Rattle.std.specs.Prelude.{◌≡◌, ◌<◌, ◌≤◌, ℕ, IfSome, IsSomeAnd, IsTrue, MatchOption, length};
ghost use Rattle.gob_tree.specs.Formed.{IsFormed};
ghost use Rattle.constraint_sys.specs.Breach.{IsBefore, IsMissingRoot};
ghost use Rattle.constraint_sys.specs.Sound.{IsShaped};
ghost use Rattle.constraint_sys.specs.Table.{IsThere, nodes_at};
ghost use Rattle.constraint_sys.specs.declared.unknown.Unknown.{Unknown as TheUnknown};
ghost use Rattle.constraint_sys.specs.declared.unknown.Unknown.TheVariants.{Global as TheGlobal};
ghost use Rattle.post_check.specs.Unbroken.{HasFirstNodes, HasItsNodes, IsFirstGlobal, IsLeastMissing, IsLeastNode, IsOfOne};

use constraint_sys::{Key, Table, Unknown, function_at, main_start};
use gob_tree::Program;

/// The first root that isn't in the table.
pub(crate) fn missing_root(program: &Program, table: &Table) -> Option<Unknown>
    requires { IsFormed program.now }
    ensures { MatchOption result ((r : TheUnknown) → IsMissingRoot program.now table.now r → ⊥)
        (λ u. IsMissingRoot program.now table.now u × ((r : TheUnknown) → IsBefore r u → IsMissingRoot program.now table.now r → ⊥)) }
{
    let main = main_start(program);
    if table.get(&main).is_none() {
        return Some(main);
    }
    missing_global(program.globals.len(), table)
}

/// The first of so many globals that isn't in the table.
fn missing_global(count: usize, table: &Table) -> Option<Unknown>
    requires { count ≤ 64 }
    ensures { MatchOption result ((g : ℕ) → g < count → IsThere table.now (TheGlobal g)) (IsFirstGlobal table.now count) }
{
    for g in 0..count as u16 {
        let global = Unknown::Global(g);
        if table.get(&global).is_none() {
            return Some(global);
        }
    }
    None
}

/// The least node that the table lacks of the unknown's function and context, where the unknown checked
/// before isn't of them too.
pub(crate) fn new_missing_node(
    program: &Program,
    table: &Table,
    last: &Option<Unknown>,
    u: &Unknown,
) -> Option<Unknown>
    requires formed { IsFormed program.now }
    requires shaped { IsShaped program.now table.now }
    requires there { IsThere table.now u.now }
    requires last { IfSome last.now (HasItsNodes program.now table.now) }
    ensures { MatchOption result (HasItsNodes program.now table.now u.now) (IsLeastMissing program.now table.now u.now) }
{
    if is_with(last, u) {
        None
    } else {
        missing_node(program, table, u)
    }
}

/// Whether there is an unknown checked before, and it is of the same function and context.
fn is_with(last: &Option<Unknown>, u: &Unknown) -> bool
    ensures { IsTrue result → IsSomeAnd last.now (λ w. IsOfOne w u.now) }
{
    match last {
        Some(w) => are_of_one(w, u),
        None => false,
    }
}

/// Whether two points are of one function and context.
fn are_of_one(w: &Unknown, u: &Unknown) -> bool
    ensures { IsTrue result → IsOfOne w.now u.now }
{
    match (w, u) {
        (
            Unknown::Point {
                func: f,
                key: k,
                ..
            },
            Unknown::Point {
                func: g,
                key: l,
                ..
            },
        ) => f == g && k == l,
        _ => false,
    }
}

/// The least node that the table lacks of the unknown's function and context.
fn missing_node(program: &Program, table: &Table, u: &Unknown) -> Option<Unknown>
    requires formed { IsFormed program.now }
    requires shaped { IsShaped program.now table.now }
    requires there { IsThere table.now u.now }
    ensures { MatchOption result (HasItsNodes program.now table.now u.now) (IsLeastMissing program.now table.now u.now) }
{
    match u {
        Unknown::Point { func, key, .. } => {
            let nodes = node_count(program, *func);
            least_missing(table, *func, key, nodes)
        }
        Unknown::Global(_) => None,
    }
}

/// The number of nodes of a function of the program.
fn node_count(program: &Program, func: u16) -> u16
    requires formed { IsFormed program.now }
    requires in_range { func < length program.now.funcs }
    ensures { result ≡ length (nodes_at program.now func) }
{
    function_at(program, func).nodes.len() as u16
}

/// The least of a function's nodes, so many, that the table lacks in a context.
fn least_missing(table: &Table, func: u16, key: &Key, nodes: u16) -> Option<Unknown>
    ensures { MatchOption result (HasFirstNodes table.now func key.now nodes) (IsLeastNode table.now func key.now nodes) }
{
    for node in 0..nodes {
        let fellow = Unknown::Point {
            func,
            key: *key,
            node,
        };
        if table.get(&fellow).is_none() {
            return Some(fellow);
        }
    }
    None
}
