//! The order in which a run takes its dirty points. Any order would be as right, so nothing is
//! promised of it: it only makes few turns do.
ghost use Rattle.std.specs.Prelude.{◌≡◌, [], Contains, IfSome, None};

use crate::loops::{Spot, number_at, spots_of};
use constraint_sys::{Dirty, Key, System, Table, Unknown};
use gob_tree::{Action, Edge, FuncGraph, Memory, Program};
use std::alloc::Global;
use std::collections::BinaryHeap;

/// Where a point stands in the order: the greatest is taken first. Callees stand above their callers,
/// and in a function what an outermost loop repeats above what stands behind it, with the loop's head
/// on top.
#[derive(Clone, Copy, Debug, PartialEq, Eq, PartialOrd, Ord)]
struct Place {
    layer: u16,
    context: Key,
    outermost: u16,
    /// Below the greatest number by as many loops as the point is put off for.
    nearness: u16,
    rank: u16,
    point: Unknown,
}

/// Points that wait for their turn, each with its place. A point may stand here more than once, and
/// after its turn.
#[derive(Drop)]
pub(crate) struct Order {
    numbers: Vec<u16>,
    spots: Vec<Vec<Spot>>,
    waiting: BinaryHeap<Place>,
}

impl Order {
    /// The order of a program's points, none of which waits; `Memory` is want of memory. It takes a
    /// look at each edge.
    pub(crate) fn of(alloc: Global, program: &Program, system: &System) -> Result<Order, Memory> {
        let numbers = numbers_of(alloc, program)?;
        let mut spots = Vec::new(alloc);
        let mut func = 0_u16;
        for function in program.funcs.as_slice() {
            let ranks = ranks_of(alloc, function, system, func)?;
            spots.push(spots_of(alloc, function.edges.as_slice(), ranks.as_slice())?)?;
            func = func.saturating_add(1);
        }
        Ok(Order {
            numbers,
            spots,
            waiting: BinaryHeap::new(alloc),
        })
    }

    /// Lets a point wait; a global never does. Where memory is wanting the point isn't noted.
    pub(crate) fn push(&mut self, u: &Unknown) {
        let Unknown::Point { func, key, node } = u else {
            return;
        };
        let Some(spot) = spot_at(self.spots.as_slice(), *func, *node) else {
            return;
        };
        let _noted = self.waiting.push(Place {
            layer: u16::MAX - number_at(self.numbers.as_slice(), *func),
            context: *key,
            outermost: spot.outermost,
            nearness: u16::MAX - put_off(self.spots.as_slice(), *func, &spot),
            rank: spot.rank,
            point: *u,
        });
    }

    pub(crate) fn push_each(&mut self, us: &[Unknown]) {
        for u in us {
            self.push(u);
        }
    }

    /// Lets the dirty points wait that stand in the table at a place from one on.
    pub(crate) fn push_dirty(&mut self, table: &Table, dirty: &Dirty, from: usize) {
        for i in from..table.len() {
            if let Some(u) = table.unknown(i) {
                if dirty.contains(&u) {
                    self.push(&u);
                }
            }
        }
    }

    /// Takes the first of the points that wait and are dirty; where none is noted, the first dirty one.
    pub(crate) fn next(&mut self, dirty: &Dirty) -> Option<Unknown>
        ensures dirty { IfSome result (λ u. Contains dirty.now u) }
        ensures none { result ≡ None → dirty.now ≡ [] }
    {
        for _i in 0..self.waiting.len() {
            let Some(u) = self.pop() else {
                break;
            };
            if dirty.contains(&u) {
                self.count(&u);
                return Some(u);
            }
        }
        dirty.first()
    }

    /// Counts that a point is taken.
    fn count(&mut self, u: &Unknown) {
        let Unknown::Point { func, node, .. } = u else {
            return;
        };
        if let Some(of_func) = self.spots.get_mut(*func as usize) {
            if let Some(spot) = of_func.get_mut(*node as usize) {
                spot.taken = spot.taken.saturating_add(1);
            }
        }
    }

    /// Takes the first of the points that wait.
    fn pop(&mut self) -> Option<Unknown> {
        match self.waiting.pop() {
            Some(place) => Some(place.point),
            None => None,
        }
    }
}

fn spot_at(spots: &[Vec<Spot>], func: u16, node: u16) -> Option<Spot> {
    match spots.get(func as usize) {
        Some(of_func) => of_func.get(node as usize).copied(),
        None => None,
    }
}

/// For how many loops a node is put off: for all around it once the loop around its innermost one has
/// come to its second round, else for none.
fn put_off(spots: &[Vec<Spot>], func: u16, spot: &Spot) -> u16 {
    match spot.around {
        Some(head) => match spot_at(spots, func, head) {
            Some(of_head) if of_head.taken > 1 => spot.depth,
            _ => 0,
        },
        None => 0,
    }
}

/// A walk over a graph that goes down first.
#[derive(Drop)]
struct Walk {
    /// What was come to.
    seen: Vec<bool>,
    /// The numbers in which it was left again; 0 before.
    numbers: Vec<u16>,
    /// The way from where the walk began, each with how many of its edges are still to be gone.
    way: Vec<(u16, usize)>,
    /// How many were left so far.
    count: u16,
}

impl Walk {
    fn of(alloc: Global, count: usize) -> Result<Walk, Memory> {
        let mut seen = Vec::new(alloc);
        let mut numbers = Vec::new(alloc);
        for _i in 0..count {
            seen.push(false)?;
            numbers.push(0_u16)?;
        }
        Ok(Walk {
            seen,
            numbers,
            way: Vec::new(alloc),
            count: 0,
        })
    }

    /// Goes down, unless it was here before.
    fn enter(&mut self, at: u16, edges: usize) -> Result<(), Memory> {
        if let Some(seen) = self.seen.get_mut(at as usize) {
            if !*seen {
                *seen = true;
                self.way.push((at, edges))?;
            }
        }
        Ok(())
    }

    /// Goes up again.
    fn leave(&mut self, at: u16) {
        self.count = self.count.saturating_add(1);
        if let Some(number) = self.numbers.get_mut(at as usize) {
            *number = self.count;
        }
    }
}

/// The ranks of a function's nodes: they are numbered as a walk from the entry leaves them, which goes
/// the last of a node's edges first. So the way out of a loop, which is the last edge of its condition,
/// is left before the loop's body is, and the body before the head.
fn ranks_of(
    alloc: Global,
    function: &FuncGraph,
    system: &System,
    func: u16,
) -> Result<Vec<u16>, Memory> {
    let edges = function.edges.as_slice();
    let steps = edges.len().saturating_add(function.nodes.len());
    let mut walk = Walk::of(alloc, function.nodes.len())?;
    walk.enter(0, system.out_of(func, 0).len())?;
    for _step in 0..steps {
        let Some((node, left)) = walk.way.pop() else {
            break;
        };
        match left.checked_sub(1) {
            Some(left) => {
                walk.way.push((node, left))?;
                let to = end_of(edges, system.out_of(func, node), left);
                walk.enter(to, system.out_of(func, to).len())?;
            }
            None => walk.leave(node),
        }
    }
    Ok(walk.numbers)
}

/// Where one of these edges ends.
fn end_of(edges: &[Edge], numbers: &[u32], i: usize) -> u16 {
    match numbers.get(i) {
        Some(number) => match edges.get(*number as usize) {
            Some(edge) => edge.to,
            None => 0,
        },
        None => 0,
    }
}

/// The numbers of a program's functions, as a walk from `main` along calls and started threads leaves
/// them: each is left before all that call it, but for recursion.
fn numbers_of(alloc: Global, program: &Program) -> Result<Vec<u16>, Memory> {
    let funcs = program.funcs.as_slice();
    let mut walk = Walk::of(alloc, funcs.len())?;
    walk.enter(program.main, edges_of(funcs, program.main).len())?;
    for _step in 0..steps_of(funcs) {
        let Some((func, left)) = walk.way.pop() else {
            break;
        };
        match left.checked_sub(1) {
            Some(left) => {
                walk.way.push((func, left))?;
                if let Some(callee) = callee_of(edges_of(funcs, func), left) {
                    walk.enter(callee, edges_of(funcs, callee).len())?;
                }
            }
            None => walk.leave(func),
        }
    }
    Ok(walk.numbers)
}

/// As many steps as a walk over the functions takes at most.
fn steps_of(funcs: &[FuncGraph]) -> usize {
    let mut steps = funcs.len();
    for function in funcs {
        steps = steps.saturating_add(function.edges.len());
    }
    steps
}

fn edges_of(funcs: &[FuncGraph], func: u16) -> &[Edge] {
    match funcs.get(func as usize) {
        Some(function) => function.edges.as_slice(),
        None => &[],
    }
}

/// The function that an edge calls, or starts as a thread.
fn callee_of(edges: &[Edge], i: usize) -> Option<u16> {
    match edges.get(i) {
        Some(edge) => match &edge.act {
            Action::Call(_, f, _) => Some(*f),
            Action::Create(_, f) => Some(*f),
            _ => None,
        },
        None => None,
    }
}
