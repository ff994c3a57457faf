ghost use Rattle.std.specs.Prelude.{◌≡◌, ◌∷◌, ◌++◌, ◌≤◌, List, Option, length, take, option_map, slice_get};
ghost use Rattle.c_meaning.specs.declared.config.Todo.{Todo};
ghost use Rattle.c_meaning.specs.Tree.{unrolling, with_front, statements};
ghost use Rattle.tree_run.specs.Stack.{todo_of, part_todo, next_todo};
ghost use Rattle.tree_run.specs.Looking.{Picks, Unrolled};

use crate::todo::{Next, Part, split};
use gob_tree::{Placed, Stmt};

/// The k-th of one thing to do and what follows it, or its number among what follows.
fn nth_alone<'u>(next: Next<'u>, k: usize) -> Result<Next<'u>, usize>
    ensures { Picks (λ rest. next_todo next.entry ∷ rest) k result }
{
    if k == 0 { Ok(next) } else { Err(k - 1) }
}

/// The k-th of a list of statements and what follows it, or its number among what follows.
fn nth_in<'u>(all: &'u [Placed], k: usize) -> Result<Next<'u>, usize>
    ensures { Picks (λ rest. statements all.now ++ rest) k result }
{
    match all.get(k) {
        Some(p) => Ok(Next::Stmt(p)),
        None => Err(k - all.len()),
    }
}

/// The k-th of a list of statements, its first unrolled, and what follows it.
#[cycle(nth_of)]
fn nth_opened<'u>(first: &'u Placed, more: &'u [Placed], k: usize) -> Result<Next<'u>, usize>
    ensures { Picks (λ rest. with_front first.now (statements more.now ++ rest)) k result }
{
    match nth_of(first, k) {
        Ok(next) => Ok(next),
        Err(left) => nth_in(more, left),
    }
}

/// The k-th of what a statement in front unrolls into and what follows it.
#[cycle(nth_of)]
fn nth_of<'u>(p: &'u Placed, k: usize) -> Result<Next<'u>, usize>
    ensures { Picks (with_front p.now) k result }
{
    match &p.stmt {
        Stmt::Block(all) => match split(all.as_slice()) {
            None => nth_alone(Next::Stmt(p), k),
            Some((first, more)) => nth_opened(first, more, k),
        },
        Stmt::DoWhile(body, _) => match nth_of(body.get(), k) {
            Ok(next) => Ok(next),
            Err(left) => nth_alone(Next::Test(p), left),
        },
        Stmt::For(list, _, _, _) => match split(list.as_slice()) {
            None => nth_alone(Next::Test(p), k),
            Some((first, more)) => match nth_opened(first, more, k) {
                Ok(next) => Ok(next),
                Err(left) => nth_alone(Next::Test(p), left),
            },
        },
        Stmt::Declare(_, _)
        | Stmt::DeclareThread(_)
        | Stmt::Assign(_, _)
        | Stmt::CallOnly(_, _)
        | Stmt::If(_, _, _)
        | Stmt::While(_, _)
        | Stmt::Break
        | Stmt::Continue
        | Stmt::Return(_)
        | Stmt::Create(_, _)
        | Stmt::Join(_)
        | Stmt::Lock(_)
        | Stmt::Unlock(_)
        | Stmt::Assert(_)
        | Stmt::Empty => nth_alone(Next::Stmt(p), k),
    }
}

/// The k-th of a part and what follows it, which isn't in front.
fn nth_in_part<'u>(part: Part<'u>, k: usize) -> Result<Next<'u>, usize>
    ensures { Picks (λ rest. part_todo part.entry ++ rest) k result }
{
    match part {
        Part::Rest(all) => nth_in(all, k),
        Part::One(p) => nth_alone(Next::Stmt(p), k),
        Part::Test(l) => nth_alone(Next::Test(l), k),
        Part::Last(l) => match nth_alone(Next::Last(l), k) {
            Ok(next) => Ok(next),
            Err(left) => nth_alone(Next::Test(l), left),
        },
    }
}

/// The k-th of what a part in front unrolls into and what follows it; none where the part is empty.
fn nth_in_front<'u>(part: Part<'u>, k: usize) -> Option<Result<Next<'u>, usize>>
    ensures { Unrolled part.entry k result }
{
    match part {
        Part::Rest(all) => match split(all) {
            None => None,
            Some((first, more)) => Some(nth_opened(first, more, k)),
        },
        Part::One(p) => Some(nth_of(p, k)),
        Part::Test(_) | Part::Last(_) => Some(nth_in_part(part, k)),
    }
}

/// The k-th of what the first `parts` parts show, none of which is in front.
#[tactic(auto, using(crate::proofs::Picking::todo_more))]
fn nth_below<'u>(todo: &[Part<'u>], parts: usize, k: usize) -> Option<Next<'u>>
    requires { parts ≤ length todo.now }
    ensures { option_map next_todo result ≡ slice_get (todo_of (take parts todo.now)) k }
{
    let mut left = k;
    let mut place = parts;
    while place > 0 {
        place -= 1;
        match nth_in_part(todo[place], left) {
            Ok(next) => return Some(next),
            Err(behind) => left = behind,
        }
    }
    None
}

/// The k-th of what is still to do, from 0, unrolled.
#[tactic(auto, using(crate::proofs::Picking::todo_more))]
pub(crate) fn nth<'u>(todo: &[Part<'u>], k: usize) -> Option<Next<'u>>
    ensures { option_map next_todo result ≡ slice_get (unrolling (todo_of todo.now)) k }
{
    let mut place = todo.len();
    while place > 0 {
        place -= 1;
        match nth_in_front(todo[place], k) {
            None => {}
            Some(Ok(next)) => return Some(next),
            Some(Err(left)) => return nth_below(todo, place, left),
        }
    }
    None
}
