ghost use Rattle.std.specs.Prelude.{◌≡◌, option_map, slice_get};
ghost use Rattle.tree_run.specs.Framing.{shown};
ghost use Rattle.tree_run.specs.Looking.{todo_place, front_place, last_place};
ghost use Rattle.tree_run.specs.Stack.{next_todo};
ghost use Rattle.c_meaning.specs.Tree.{layer_of};
ghost use Rattle.tree_run.specs.Viewing.{top_seen, top_of};

use crate::frame::Frame;
use crate::look::nth;
use crate::todo::Next;
use gob_tree::{Place, Placed, Stmt};
use std::marker::Model;

/// The topmost frame of a thread: its function, the place of what comes next, and its slots. The
/// place is that of the statement in front, of the loop where its test comes next, and of the last
/// part of a `for` where that comes next.
#[derive(Clone, Copy)]
pub struct TopView<'m> {
    pub func: u16,
    pub place: Place,
    pub slots: &'m [i64],
}

/// A frame of a thread, which contracts see as the definition's.
#[derive(Drop)]
pub struct FrameView<'m, 'u> {
    frame: &'m Frame<'u>,
}

impl<'m, 'u> Model for FrameView<'m, 'u> {
    ghost use Rattle.std.specs.Coded.{codes};
    ghost use Rattle.gob_tree.specs.contracts.expr.Expr as expr;
    ghost use Rattle.gob_tree.specs.contracts.stmt.Stmt as stmt;
    ghost use Rattle.gob_tree.specs.contracts.stmt.Placed as placed;
    ghost use Rattle.c_meaning.specs.Tree.{Frame as TreeFrame};
    ghost use Rattle.tree_run.specs.Framing.{shown};

    ghost Value = { TreeFrame };

    ghost coded = { Prim.hlevel (codes, expr.the_row.coded, stmt.the_row.coded, placed.the_row.coded) };

    ghost view = { λ v. shown v.frame.now };
}

impl<'m, 'u> FrameView<'m, 'u> {
    pub(crate) fn of(frame: &'m Frame<'u>) -> FrameView<'m, 'u>
        ensures { result ≡ shown frame.now }
    {
        FrameView { frame }
    }

    /// The number of its function.
    pub fn func(&self) -> u16
        ensures { result ≡ self.now.func }
    {
        self.frame.func
    }

    /// The values of its slots.
    pub fn slots(&self) -> &'m [i64]
        ensures { result.now ≡ self.now.slots }
    {
        self.frame.slots.as_slice()
    }

    /// The thread that each of its thread variables has.
    pub fn threads(&self) -> &'m [Option<u32>]
        ensures { result.now ≡ self.now.vars }
    {
        self.frame.vars.as_slice()
    }

    /// The inputs that it got for what stands in front.
    pub fn ins(&self) -> &'m [i64]
        ensures { result.now ≡ self.now.ins }
    {
        self.frame.ins.as_slice()
    }

    /// The k-th thing that it has still to do, from 0, which stands in front; None exactly where
    /// there are no more than k.
    pub fn todo(&self, k: usize) -> Option<Next<'u>>
        ensures { option_map next_todo result ≡ slice_get self.now.todo k }
    {
        nth(self.frame.todo.as_slice(), k)
    }
}

/// The place of the last part of a `for`.
fn place_of_last(p: &Placed) -> Place
    ensures { result ≡ last_place (layer_of p.now) p.now.place }
{
    match &p.stmt {
        Stmt::For(_, _, Some(last), _) => last.get().place,
        _ => p.place,
    }
}

/// The place of a thing to do.
fn place_of(next: Next<'_>) -> Place
    ensures { result ≡ todo_place (next_todo next.entry) }
{
    match next {
        Next::Stmt(p) => p.place,
        Next::Test(l) => l.place,
        Next::Last(l) => place_of_last(l),
    }
}

/// The place of what comes next in a frame.
fn place_in_front(frame: &Frame<'_>) -> Place
    ensures { result ≡ front_place (shown frame.now).todo }
{
    match nth(frame.todo.as_slice(), 0) {
        None => Place { line: 1, column: 1 },
        Some(next) => place_of(next),
    }
}

/// What is seen of a topmost frame.
pub(crate) fn top_view<'m>(frame: &'m Frame<'_>) -> TopView<'m>
    ensures { top_seen result ≡ top_of (shown frame.now) }
{
    TopView {
        func: frame.func,
        place: place_in_front(frame),
        slots: frame.slots.as_slice(),
    }
}
