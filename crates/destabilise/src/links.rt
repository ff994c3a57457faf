//! How the unknowns of a table hang together: who reads each of them, what it contributes to, and the
//! nodes of a start.
ghost use Rattle.std.specs.Prelude.{◌≡◌, ◌↔◌, ◌⊎◌, ◌<◌, ℕ, IfOk, IsTrue, Contains, OnOk, length, map};
ghost use Rattle.gob_tree.specs.Formed.{IsFormed};
ghost use Rattle.constraint_sys.specs.Carry.{targets_of};
ghost use Rattle.constraint_sys.specs.Contribution.{read_by};
ghost use Rattle.constraint_sys.specs.Index.{IsSystemOf};
ghost use Rattle.constraint_sys.specs.Sound.{IsShaped};
ghost use Rattle.constraint_sys.specs.Table.{IsThere};
ghost use Rattle.constraint_sys.specs.declared.unknown.Unknown.{Unknown as TheUnknown};
ghost use Rattle.constraint_sys.specs.declared.unknown.Unknown.TheVariants.{Point};
ghost use Rattle.constraint_sys.specs.declared.value.Effect.{Effect as TheEffect};
ghost use Rattle.dep_index.specs.Noted.{reads_of};
ghost use Rattle.destabilise.specs.Linked.{AreLinksOf, IsInner, IsNumberedNode, IsOfProgram, IsStart, targets_at, with_targets};

use constraint_sys::{
    Contribution, Effect, Key, System, Table, Unknown, contribution, function_at,
};
use dep_index::DepIndex;
use gob_tree::{Memory, Program, Seq};
use indexmap::IndexMap;
use std::alloc::Global;

/// Who reads each unknown of a solved table, and what each contributes to.
#[derive(Drop)]
pub struct Links {
    readers: DepIndex,
    targets: IndexMap<Unknown, Seq<Unknown>>,
}

impl Links {
    /// The links of a table's unknowns, for which the right side of each is looked at once. `Memory` is
    /// want of memory.
    pub fn of(
        alloc: Global,
        program: &Program,
        system: &System,
        table: &Table,
    ) -> Result<Links, Memory>
        requires formed { IsFormed program.now }
        requires system { IsSystemOf program.now system.now }
        requires shaped { IsShaped program.now table.now }
        ensures { IfOk result (AreLinksOf program.now table.now) }
    {
        let unknowns = table.sorted(alloc)?;
        let mut readers = DepIndex::new(alloc);
        let mut targets = IndexMap::new(alloc);
        for u in unknowns.as_slice() {
            let (reads, affects) = given_at(alloc, program, system, table, u)?;
            readers.note(alloc, *u, reads.as_slice())?;
            put(&mut targets, u, affects)?;
        }
        Ok(Links { readers, targets })
    }

    /// The readers of an unknown.
    pub fn readers<'a>(&'a self, u: &Unknown) -> &'a [Unknown]
        ensures { (q : TheUnknown) → Contains result.now q ↔ Contains (reads_of self.now.readers q) u.now }
    {
        self.readers.readers(u)
    }

    /// What an unknown contributes to, in the order of its edges; nothing where it isn't in the table.
    pub fn targets<'a>(&'a self, u: &Unknown) -> &'a [Unknown]
        ensures { result.now ≡ targets_at self.now.targets.entries u.now }
    {
        match self.targets.get(u) {
            Some(targets) => targets.as_slice(),
            None => &[],
        }
    }
}

/// Notes what an unknown contributes to.
fn put(
    targets: &mut IndexMap<Unknown, Seq<Unknown>>,
    u: &Unknown,
    affects: Seq<Unknown>,
) -> Result<(), Memory>
    ensures { OnOk result (targets.new.entries ≡ with_targets targets.old.entries u.now affects) }
{
    targets.insert(*u, affects)?;
    Ok(())
}

/// What the right side of an unknown of the table reads, and what it contributes to.
fn given_at(
    alloc: Global,
    program: &Program,
    system: &System,
    table: &Table,
    u: &Unknown,
) -> Result<(Seq<Unknown>, Seq<Unknown>), Memory>
    requires formed { IsFormed program.now }
    requires system { IsSystemOf program.now system.now }
    requires shaped { IsShaped program.now table.now }
    requires there { IsThere table.now u.now }
    ensures reads { IfOk result (λ both. both.0 ≡ read_by program.now table.now u.now) }
    ensures targets { IfOk result (λ both. both.1 ≡ targets_of program.now table.now u.now) }
{
    if !is_inner(u) {
        return Ok((Seq::new(alloc), Seq::new(alloc)));
    }
    let Contribution {
        value: _,
        effects,
        reads,
    } = contribution(alloc, program, system, table, *u)?;
    let targets = targets_among(alloc, effects.as_slice())?;
    Ok((reads, targets))
}

fn targets_among(alloc: Global, effects: &[Effect]) -> Result<Seq<Unknown>, Memory>
    ensures { IfOk result (λ us. us ≡ map (λ (e : TheEffect). e.target) effects.now) }
{
    let mut targets = Seq::new(alloc);
    for e in effects {
        targets.push(e.target)?;
    }
    Ok(targets)
}

/// Whether an unknown is a point of another node than a start.
fn is_inner(u: &Unknown) -> bool
    ensures { IsTrue result ↔ IsInner u.now }
{
    match u {
        Unknown::Point { node, .. } => *node != 0,
        Unknown::Global(_) => false,
    }
}

/// Whether an unknown is a function's start in a context.
pub(crate) fn is_start(u: &Unknown) -> bool
    ensures { IsTrue result ↔ IsStart u.now }
{
    match u {
        Unknown::Point { node, .. } => *node == 0,
        Unknown::Global(_) => false,
    }
}

/// What is removed with an unknown: its readers, what it contributes to, and its nodes. There may be
/// some that the table lacks.
pub(crate) fn taken_along(
    alloc: Global,
    program: &Program,
    links: &Links,
    u: &Unknown,
) -> Result<Vec<Unknown>, Memory>
    requires formed { IsFormed program.now }
    requires of_program { IsOfProgram program.now u.now }
    ensures { (v : TheUnknown) → IfOk result (λ vs. Contains vs.items v ↔ (Contains (reads_of links.now.readers v) u.now ⊎ (Contains (targets_at links.now.targets.entries u.now) v ⊎ IsNumberedNode program.now u.now v))) }
{
    let mut found = Vec::from_slice(alloc, links.readers(u))?;
    push_each(&mut found, links.targets(u))?;
    push_nodes(program, &mut found, u)?;
    Ok(found)
}

/// What is reached with an unknown: the starts that it contributes to, and its nodes. There may be some
/// that the table lacks.
pub(crate) fn reached_with(
    alloc: Global,
    program: &Program,
    links: &Links,
    u: &Unknown,
) -> Result<Vec<Unknown>, Memory>
    requires formed { IsFormed program.now }
    requires of_program { IsOfProgram program.now u.now }
    ensures { (v : TheUnknown) → IfOk result (λ vs. Contains vs.items v ↔ ((Contains (targets_at links.now.targets.entries u.now) v × IsStart v) ⊎ IsNumberedNode program.now u.now v)) }
{
    let mut found = starts_among(alloc, links.targets(u))?;
    push_nodes(program, &mut found, u)?;
    Ok(found)
}

fn starts_among(alloc: Global, us: &[Unknown]) -> Result<Vec<Unknown>, Memory>
    ensures { (v : TheUnknown) → IfOk result (λ vs. Contains vs.items v ↔ (Contains us.now v × IsStart v)) }
{
    let mut found = Vec::new(alloc);
    for u in us {
        push_if(&mut found, u, is_start(u))?;
    }
    Ok(found)
}

fn push_each(found: &mut Vec<Unknown>, us: &[Unknown]) -> Result<(), Memory>
    ensures { (v : TheUnknown) → OnOk result (Contains found.new.items v ↔ (Contains found.old.items v ⊎ Contains us.now v)) }
{
    for u in us {
        push_one(found, u)?;
    }
    Ok(())
}

fn push_one(found: &mut Vec<Unknown>, u: &Unknown) -> Result<(), Memory>
    ensures { (v : TheUnknown) → OnOk result (Contains found.new.items v ↔ (Contains found.old.items v ⊎ (v ≡ u.now))) }
{
    found.push(*u)?;
    Ok(())
}

/// Adds an unknown where it is wanted.
pub(crate) fn push_if(found: &mut Vec<Unknown>, u: &Unknown, wanted: bool) -> Result<(), Memory>
    ensures { (v : TheUnknown) → OnOk result (Contains found.new.items v ↔ (Contains found.old.items v ⊎ ((v ≡ u.now) × IsTrue wanted))) }
{
    if wanted {
        found.push(*u)?;
    }
    Ok(())
}

/// Adds the nodes of a start of the program.
fn push_nodes(program: &Program, found: &mut Vec<Unknown>, u: &Unknown) -> Result<(), Memory>
    requires formed { IsFormed program.now }
    requires of_program { IsOfProgram program.now u.now }
    ensures { (v : TheUnknown) → OnOk result (Contains found.new.items v ↔ (Contains found.old.items v ⊎ IsNumberedNode program.now u.now v)) }
{
    match u {
        Unknown::Point { func, key, node } => {
            push_nodes_at(program, found, *func, key, *node)?;
            Ok(())
        }
        Unknown::Global(_) => Ok(()),
    }
}

fn push_nodes_at(
    program: &Program,
    found: &mut Vec<Unknown>,
    func: u16,
    key: &Key,
    node: u16,
) -> Result<(), Memory>
    requires formed { IsFormed program.now }
    requires in_range { func < length program.now.funcs }
    ensures { (v : TheUnknown) → OnOk result (Contains found.new.items v ↔ (Contains found.old.items v ⊎ IsNumberedNode program.now (Point func key.now node) v)) }
{
    if node > 0 {
        return Ok(());
    }
    let nodes = function_at(program, func).nodes.len();
    push_points(found, func, key, nodes as u16)?;
    Ok(())
}

/// Adds the points of so many nodes of a function in a context.
fn push_points(found: &mut Vec<Unknown>, func: u16, key: &Key, nodes: u16) -> Result<(), Memory>
    ensures { (v : TheUnknown) → OnOk result (Contains found.new.items v ↔ (Contains found.old.items v ⊎ ((node : ℕ) × (node < nodes) × (v ≡ Point func key.now node)))) }
{
    for node in 0..nodes {
        let v = Unknown::Point {
            func,
            key: *key,
            node,
        };
        push_one(found, &v)?;
    }
    Ok(())
}
