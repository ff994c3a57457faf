ghost use Rattle.std.specs.Prelude.{◌≡◌, ◌∷◌, [], List, map, IfOk, Err, None, false, length, nat_eq, slice_get, slice_index_or};
ghost use Rattle.c_meaning.specs.declared.config.Todo.{Todo};
ghost use Rattle.c_meaning.specs.Config.{global_width, owner_after_unlock, thread_at};
ghost use Rattle.std.specs.Option.{option_map_or};
ghost use Rattle.c_meaning.specs.Tree as Tree;
ghost use Rattle.c_meaning.specs.Tree.{layer_of, stmt_step, todo_step, front_step, frame_step, join_step, owner_step, return_value, after_test, after_branch, rest_of, only, is_over, Fails as Faults};
ghost use Rattle.tree_run.specs.Framing.{shown};
ghost use Rattle.tree_run.specs.Stack.{IsReady, next_todo};
ghost use Rattle.tree_run.specs.Deeds.{after_way, deed_step, stack_of};
ghost use Rattle.tree_run.specs.Placing.{site_of};

use crate::frame::{Frame, slots_of};
use crate::todo::{Next, Part};
use crate::value::{converted, number_at, width_at};
use c_meaning::Demand;
use gob_tree::{Boxed, Expr, Memory, Placed, Stmt, Target, Unit, Width};
use std::alloc::Global;

/// What is left to do after a statement: what comes behind it, a branch and then that, a loop's
/// body and then the loop and that, what comes after the loop, or the loop's next turn.
#[derive(Clone, Copy)]
pub(crate) enum Way<'u> {
    Pass,
    Branch(&'u Placed),
    Turn(Part<'u>, &'u Placed),
    Break,
    Continue,
}

/// What a step makes of the frames of its thread: the topmost one gets an input, a call is entered,
/// the topmost one returns this number, what stands in front goes this way, or is done with a number
/// for a slot, or with a new thread for a thread variable.
#[derive(Drop)]
pub(crate) enum Act<'u> {
    Gets(i64),
    Calls(Frame<'u>),
    Returns(i64),
    Goes(Way<'u>),
    Stores(u16, i64),
    Keeps(u16),
}

/// What a step does beside: nothing, a number for a global, an owner for a mutex, a new thread.
#[derive(Drop)]
pub(crate) enum Effect<'u> {
    Nothing,
    Global(u16, i64),
    Owner(u16, Option<u32>),
    Starts(Frame<'u>),
}

/// What a step does: nothing yet, a fault, or a move.
#[derive(Drop)]
pub(crate) enum Deed<'u> {
    Waits,
    Fails,
    Moves(Act<'u>, Effect<'u>),
}

/// Where a step is made: the unit, what the threads share, the thread with its input, and its
/// topmost frame.
#[derive(Drop)]
pub(crate) struct Here<'m, 'u> {
    pub unit: &'u Unit,
    pub globals: &'m [i64],
    pub owners: &'m [Option<u32>],
    pub threads: &'m [Vec<Frame<'u>>],
    pub thread: u32,
    pub input: i64,
    pub frame: &'m Frame<'u>,
}

/// The value of the one expression.
fn only_of(values: &[i64]) -> i64
    ensures { result ≡ only values.now }
{
    number_at(values, 0)
}

/// The width of a global.
fn width_of_global(unit: &Unit, g: u16) -> Width
    ensures { result ≡ global_width unit.now.globals g }
{
    match unit.globals.as_slice().get(g as usize) {
        Some(decl) => decl.width,
        None => Width::W32,
    }
}

/// The owner of a mutex.
pub(crate) fn owner_of(owners: &[Option<u32>], m: u16) -> Option<u32>
    ensures { result ≡ slice_index_or owners.now m None }
{
    match owners.get(m as usize) {
        Some(owner) => *owner,
        None => None,
    }
}

/// Whether there is such a list of frames and it is empty.
fn is_empty_at(threads: &[Vec<Frame<'_>>], place: usize) -> bool
    ensures { result ≡ option_map_or (λ v. nat_eq (length v.items) 0) (slice_get threads.now place) false }
{
    match threads.get(place) {
        Some(frames) => frames.is_empty(),
        None => false,
    }
}

/// Whether there is such a thread and it has ended.
pub(crate) fn has_ended_in(threads: &[Vec<Frame<'_>>], thread: u32) -> bool
    ensures { result ≡ option_map_or is_over (thread_at (map (λ v. stack_of v.items) threads.now) thread) false }
{
    if thread == 0 {
        return false;
    }
    is_empty_at(threads, thread as usize - 1)
}

/// A branch by the number of its condition.
fn branch<'u>(number: i64, yes: &'u Placed, no: &'u Option<Boxed<Placed>>) -> Way<'u>
    ensures { (todo : List Todo) → after_way result todo ≡ after_branch number yes.now no.now (rest_of todo) }
{
    if number != 0 {
        return Way::Branch(yes);
    }
    match no {
        None => Way::Pass,
        Some(no) => Way::Branch(no.get()),
    }
}

/// What comes after the test of a loop, by the number of its condition.
pub(crate) fn after_loop<'u>(number: i64, l: &'u Placed) -> Way<'u>
    ensures { (todo : List Todo) → after_way result todo ≡ after_test number l.now (rest_of todo) }
{
    if number == 0 {
        return Way::Pass;
    }
    match &l.stmt {
        Stmt::While(_, body) => Way::Turn(Part::Test(l), body.get()),
        Stmt::DoWhile(body, _) => Way::Turn(Part::Test(l), body.get()),
        Stmt::For(_, _, None, body) => Way::Turn(Part::Test(l), body.get()),
        Stmt::For(_, _, Some(_), body) => Way::Turn(Part::Last(l), body.get()),
        Stmt::Declare(_, _)
        | Stmt::DeclareThread(_)
        | Stmt::Assign(_, _)
        | Stmt::CallOnly(_, _)
        | Stmt::If(_, _, _)
        | Stmt::Block(_)
        | Stmt::Break
        | Stmt::Continue
        | Stmt::Return(_)
        | Stmt::Create(_, _)
        | Stmt::Join(_)
        | Stmt::Lock(_)
        | Stmt::Unlock(_)
        | Stmt::Assert(_)
        | Stmt::Empty => Way::Pass,
    }
}

impl<'u> Here<'_, 'u> {
    /// The number that a `return` hands to the caller, at the width of the function's result.
    fn returned(&self, e: &Option<Expr>, values: &[i64]) -> i64
        ensures { (below : List Tree.Frame) → result ≡ return_value (site_of self.now below) e.now values.now }
    {
        match e {
            None => 0,
            Some(_) => converted(
                width_at(slots_of(self.unit, self.frame.func), 0),
                only_of(values) as i128,
            ),
        }
    }

    /// What a join of this variable comes to.
    fn join(&self, var: u16) -> Deed<'u>
        ensures { (below : List Tree.Frame) → join_step (site_of self.now below) (slice_index_or (shown self.now.frame.now).vars var None) (rest_of (shown self.now.frame.now).todo) ≡ deed_step result (site_of self.now below) }
    {
        match owner_of(self.frame.vars.as_slice(), var) {
            None => Deed::Fails,
            Some(thread) => {
                if has_ended_in(self.threads, thread) {
                    Deed::Moves(Act::Goes(Way::Pass), Effect::Nothing)
                } else {
                    Deed::Waits
                }
            }
        }
    }

    /// What an unlock of this mutex comes to.
    fn unlock(&self, m: u16) -> Deed<'u>
        ensures { (below : List Tree.Frame) → owner_step (site_of self.now below) m (rest_of (shown self.now.frame.now).todo) Faults (owner_after_unlock self.now.thread (slice_index_or self.now.owners.now m None)) ≡ deed_step result (site_of self.now below) }
    {
        match owner_of(self.owners, m) {
            None => Deed::Fails,
            Some(owner) => {
                if owner == self.thread {
                    Deed::Moves(Act::Goes(Way::Pass), Effect::Owner(m, None))
                } else {
                    Deed::Fails
                }
            }
        }
    }

    /// What a statement does with the values of its expressions.
    pub(crate) fn statement(
        &self,
        alloc: Global,
        p: &'u Placed,
        values: &[i64],
    ) -> Result<Deed<'u>, Memory>
        ensures { IfOk result (λ d. (below : List Tree.Frame) → stmt_step (layer_of p.now) p.now (rest_of (shown self.now.frame.now).todo) (site_of self.now below) values.now ≡ deed_step d (site_of self.now below)) }
    {
        let number = only_of(values);
        match &p.stmt {
            Stmt::Declare(x, None) => Ok(Deed::Moves(Act::Stores(*x, self.input), Effect::Nothing)),
            Stmt::Declare(x, Some(_)) => Ok(Deed::Moves(Act::Stores(*x, number), Effect::Nothing)),
            Stmt::Assign(Target::Local(x), _) => Ok(Deed::Moves(
                Act::Stores(*x, number),
                Effect::Nothing,
            )),
            Stmt::Assign(Target::Global(g), _) => {
                let width = width_of_global(self.unit, *g);
                Ok(Deed::Moves(
                    Act::Goes(Way::Pass),
                    Effect::Global(*g, converted(width, number as i128)),
                ))
            }
            Stmt::CallOnly(f, _) => Ok(Deed::Moves(
                Act::Calls(Frame::new(alloc, self.unit, *f, values)?),
                Effect::Nothing,
            )),
            Stmt::If(_, yes, no) => Ok(Deed::Moves(
                Act::Goes(branch(number, yes.get(), no)),
                Effect::Nothing,
            )),
            Stmt::While(_, _) => Ok(Deed::Moves(Act::Goes(after_loop(number, p)), Effect::Nothing)),
            Stmt::Break => Ok(Deed::Moves(Act::Goes(Way::Break), Effect::Nothing)),
            Stmt::Continue => Ok(Deed::Moves(Act::Goes(Way::Continue), Effect::Nothing)),
            Stmt::Return(e) => Ok(Deed::Moves(
                Act::Returns(self.returned(e, values)),
                Effect::Nothing,
            )),
            Stmt::Create(var, f) => Ok(Deed::Moves(
                Act::Keeps(*var),
                Effect::Starts(Frame::new(alloc, self.unit, *f, &[])?),
            )),
            Stmt::Join(var) => Ok(self.join(*var)),
            Stmt::Lock(m) => match owner_of(self.owners, *m) {
                None => Ok(Deed::Moves(Act::Goes(Way::Pass), Effect::Owner(*m, Some(self.thread)))),
                Some(_) => Ok(Deed::Waits),
            },
            Stmt::Unlock(m) => Ok(self.unlock(*m)),
            Stmt::Assert(_) => {
                if number == 0 {
                    Ok(Deed::Fails)
                } else {
                    Ok(Deed::Moves(Act::Goes(Way::Pass), Effect::Nothing))
                }
            }
            Stmt::DeclareThread(_)
            | Stmt::DoWhile(_, _)
            | Stmt::For(_, _, _, _)
            | Stmt::Block(_)
            | Stmt::Empty => Ok(Deed::Moves(Act::Goes(Way::Pass), Effect::Nothing)),
        }
    }

    /// What comes next does with the values of its expressions.
    fn front(&self, alloc: Global, next: Next<'u>, values: &[i64]) -> Result<Deed<'u>, Memory>
        ensures { IfOk result (λ d. (below : List Tree.Frame) → todo_step (next_todo next.entry) (rest_of (shown self.now.frame.now).todo) (site_of self.now below) values.now ≡ deed_step d (site_of self.now below)) }
    {
        match next {
            Next::Stmt(p) => self.statement(alloc, p, values),
            Next::Test(l) => Ok(Deed::Moves(
                Act::Goes(after_loop(only_of(values), l)),
                Effect::Nothing,
            )),
            Next::Last(l) => match &l.stmt {
                Stmt::For(_, _, Some(last), _) => self.statement(alloc, last.get(), values),
                _ => Ok(Deed::Moves(Act::Goes(Way::Pass), Effect::Nothing)),
            },
        }
    }

    /// What is missing is got: a global's value, the input, or a call.
    fn missing(&self, alloc: Global, demand: Demand) -> Result<Deed<'u>, Memory>
        ensures { IfOk result (λ d. (todo : Todo) (rest : List Todo) (below : List Tree.Frame) → front_step todo rest (site_of self.now below) (Err demand) ≡ deed_step d (site_of self.now below)) }
    {
        match demand {
            Demand::Global(g) => Ok(Deed::Moves(
                Act::Gets(number_at(self.globals, g)),
                Effect::Nothing,
            )),
            Demand::Nondet(width) => Ok(Deed::Moves(
                Act::Gets(converted(width, self.input as i128)),
                Effect::Nothing,
            )),
            Demand::Call(f, args) => {
                Ok(Deed::Moves(
                    Act::Calls(Frame::new(alloc, self.unit, f, args.as_slice())?),
                    Effect::Nothing,
                ))
            }
            Demand::Fault => Ok(Deed::Fails),
        }
    }

    /// What the topmost frame does, where this comes next in it.
    pub(crate) fn decide(&self, alloc: Global, next: Option<Next<'u>>) -> Result<Deed<'u>, Memory>
        requires { IsReady self.now.frame.now.todo.items next }
        ensures { IfOk result (λ d. (below : List Tree.Frame) → frame_step (shown self.now.frame.now).todo (site_of self.now below) ≡ deed_step d (site_of self.now below)) }
    {
        match next {
            None => Ok(Deed::Moves(Act::Returns(0), Effect::Nothing)),
            Some(front) => match self.frame.demand(alloc, self.unit, next)? {
                Err(demand) => self.missing(alloc, demand),
                Ok(values) => self.front(alloc, front, values.as_slice()),
            },
        }
    }
}
