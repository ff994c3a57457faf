ghost use Rattle.std.specs.Prelude.{◌≡◌, ◌++◌, ◌<◌, [], ◌∷◌, length, OnOk, OnErr, MatchOption};
ghost use Rattle.c_meaning.specs.Tree.{unrolling, after_break, after_continue};
ghost use Rattle.tree_run.specs.Stack.{todo_of, below, EndsIn, IsReady, Settles};
ghost use Rattle.tree_run.specs.declared.todo.Part.TheVariants as parts;

use gob_tree::{Memory, Placed, Stmt};

/// A part of what a frame has still to do: the statements that are left of a list, a statement
/// alone, a loop whose test comes next, or a `for` whose last part comes next and then its test.
#[derive(Clone, Copy)]
pub(crate) enum Part<'u> {
    Rest(&'u [Placed]),
    One(&'u Placed),
    Test(&'u Placed),
    Last(&'u Placed),
}

/// A thing that a frame has still to do, by reference: a statement, a loop that has begun and whose
/// test comes next, or a `for` that has begun and whose last part comes next (C17, 6.8.5).
#[derive(Clone, Copy)]
pub enum Next<'u> {
    Stmt(&'u Placed),
    Test(&'u Placed),
    Last(&'u Placed),
}

/// Puts another part in the place of the topmost one.
#[tactic(auto, using(crate::proofs::Tops::set_top))]
pub(crate) fn replace<'u>(todo: &mut Vec<Part<'u>>, part: Part<'u>)
    requires { 0 < length todo.old.items }
    ensures { todo.new.items ≡ below todo.old.items ++ part.entry ∷ [] }
{
    let top = todo.len() - 1;
    todo[top] = part;
}

/// Puts two parts in the place of the topmost one; after want of memory all is as before.
#[tactic(auto, using(crate::proofs::Tops::set_under))]
pub(crate) fn replace_by_two<'u>(
    todo: &mut Vec<Part<'u>>,
    lower: Part<'u>,
    upper: Part<'u>,
) -> Result<(), Memory>
    requires { 0 < length todo.old.items }
    ensures ok { OnOk result (todo.new.items ≡ (below todo.old.items ++ lower.entry ∷ []) ++ upper.entry ∷ []) }
    ensures err { OnErr result (todo.new.items ≡ todo.old.items) }
{
    let top = todo.len() - 1;
    todo.push(upper)?;
    todo[top] = lower;
    Ok(())
}

/// The first statement of a list and the rest, if there is one.
pub(crate) fn split<'u>(all: &'u [Placed]) -> Option<(&'u Placed, &'u [Placed])>
    ensures { MatchOption result (all.now ≡ []) (λ r. all.now ≡ r.0.now ∷ r.1.now) }
{
    all.split_first()
}

/// Unrolls what stands in front as a statement alone, and what it unrolls into.
#[cycle(unroll)]
fn unroll<'u>(todo: &mut Vec<Part<'u>>, p: &'u Placed) -> Result<Option<Next<'u>>, Memory>
    requires { EndsIn todo.old.items (parts.One p) }
    ensures { Settles todo.old.items todo.new.items result }
{
    match &p.stmt {
        Stmt::Block(all) => match split(all.as_slice()) {
            None => Ok(Some(Next::Stmt(p))),
            Some((first, more)) => {
                replace_by_two(todo, Part::Rest(more), Part::One(first))?;
                unroll(todo, first)
            }
        },
        Stmt::DoWhile(body, _) => {
            let body = body.get();
            replace_by_two(todo, Part::Test(p), Part::One(body))?;
            unroll(todo, body)
        }
        Stmt::For(list, _, _, _) => {
            let list = list.as_slice();
            match split(list) {
                None => {
                    replace(todo, Part::Test(p));
                    Ok(Some(Next::Test(p)))
                }
                Some((first, more)) => {
                    replace_by_two(todo, Part::Test(p), Part::Rest(list))?;
                    replace_by_two(todo, Part::Rest(more), Part::One(first))?;
                    unroll(todo, first)
                }
            }
        }
        Stmt::Declare(_, _)
        | Stmt::DeclareThread(_)
        | Stmt::Assign(_, _)
        | Stmt::CallOnly(_, _)
        | Stmt::If(_, _, _)
        | Stmt::While(_, _)
        | Stmt::Break
        | Stmt::Continue
        | Stmt::Return(_)
        | Stmt::Create(_, _)
        | Stmt::Join(_)
        | Stmt::Lock(_)
        | Stmt::Unlock(_)
        | Stmt::Assert(_)
        | Stmt::Empty => Ok(Some(Next::Stmt(p))),
    }
}

/// Unrolls what stands in front, which then is the topmost part, and gives it. What is to do shows
/// the same before and after; after want of memory too.
pub(crate) fn settle<'u>(todo: &mut Vec<Part<'u>>) -> Result<Option<Next<'u>>, Memory>
    ensures { Settles todo.old.items todo.new.items result }
{
    while todo.len() > 0 {
        match todo[todo.len() - 1] {
            Part::Rest(all) => match split(all) {
                None => drop_top(todo),
                Some((first, more)) => {
                    replace_by_two(todo, Part::Rest(more), Part::One(first))?;
                    return unroll(todo, first);
                }
            },
            Part::One(p) => return unroll(todo, p),
            Part::Test(l) => return Ok(Some(Next::Test(l))),
            Part::Last(l) => return Ok(Some(Next::Last(l))),
        }
    }
    Ok(None)
}

/// Takes the topmost part away.
pub(crate) fn drop_top<'u>(todo: &mut Vec<Part<'u>>)
    requires { 0 < length todo.old.items }
    ensures below { todo.new.items ≡ below todo.old.items }
    ensures less { length todo.new.items < length todo.old.items }
{
    todo.pop();
}

/// Takes away all parts up to the test of the innermost loop that has begun.
pub(crate) fn drop_to_loop<'u>(todo: &mut Vec<Part<'u>>)
    ensures { todo_of todo.new.items ≡ after_continue (todo_of todo.old.items) }
{
    while todo.len() > 0 {
        match todo[todo.len() - 1] {
            Part::Rest(_) | Part::One(_) => drop_top(todo),
            Part::Test(_) | Part::Last(_) => return,
        }
    }
}

/// Takes away all parts up to the test of the innermost loop that has begun, and that test.
pub(crate) fn drop_loop<'u>(todo: &mut Vec<Part<'u>>)
    ensures { todo_of todo.new.items ≡ after_break (todo_of todo.old.items) }
{
    while let Some(part) = todo.pop() {
        match part {
            Part::Rest(_) | Part::One(_) => {}
            Part::Test(_) | Part::Last(_) => return,
        }
    }
}
