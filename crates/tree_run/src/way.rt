ghost use Rattle.std.specs.Prelude.{◌≡◌, ◌++◌, ◌<◌, ◌∷◌, [], length, OnOk, OnErr, Some};
ghost use Rattle.c_meaning.specs.Tree.{rest_of};
ghost use Rattle.tree_run.specs.Deeds.{after_way};
ghost use Rattle.tree_run.specs.Stack.{todo_of, below, EndsIn, next_part};

use crate::deed::Way;
use crate::todo::{Next, Part, drop_loop, drop_to_loop, drop_top, replace, replace_by_two};
use gob_tree::Memory;

/// Puts three parts in the place of the topmost one; after want of memory all is as before.
#[tactic(auto, using(crate::proofs::Tops::set_under_two))]
fn replace_by_three<'u>(
    todo: &mut Vec<Part<'u>>,
    lowest: Part<'u>,
    lower: Part<'u>,
    upper: Part<'u>,
) -> Result<(), Memory>
    requires { 0 < length todo.old.items }
    ensures ok { OnOk result (todo.new.items ≡ ((below todo.old.items ++ lowest.entry ∷ []) ++ lower.entry ∷ []) ++ upper.entry ∷ []) }
    ensures err { OnErr result (todo.new.items ≡ todo.old.items) }
{
    let top = todo.len() - 1;
    todo.push(lower)?;
    match todo.push(upper) {
        Ok(()) => {
            todo[top] = lowest;
            Ok(())
        }
        Err(_) => {
            todo.pop();
            Err(Memory)
        }
    }
}

/// Takes away what comes next.
#[tactic(auto, using(crate::proofs::Tops::todo_top, crate::proofs::Tops::todo_push))]
pub(crate) fn take_front<'u>(todo: &mut Vec<Part<'u>>, next: Next<'u>)
    requires { EndsIn todo.old.items (next_part next) }
    ensures { todo_of todo.new.items ≡ rest_of (todo_of todo.old.items) }
{
    match next {
        Next::Stmt(_) | Next::Test(_) => drop_top(todo),
        Next::Last(l) => replace(todo, Part::Test(l)),
    }
}

/// What is left to do after this way; after want of memory all is as before.
#[tactic(auto, using(crate::proofs::Tops::todo_top, crate::proofs::Tops::todo_push, crate::proofs::Tops::todo_two, crate::proofs::Tops::todo_three))]
pub(crate) fn go<'u>(todo: &mut Vec<Part<'u>>, next: Next<'u>, way: Way<'u>) -> Result<(), Memory>
    requires { EndsIn todo.old.items (next_part next) }
    ensures ok { OnOk result (todo_of todo.new.items ≡ after_way way.entry (todo_of todo.old.items)) }
    ensures err { OnErr result (todo_of todo.new.items ≡ todo_of todo.old.items) }
{
    match way {
        Way::Pass => take_front(todo, next),
        Way::Break => {
            take_front(todo, next);
            drop_loop(todo);
        }
        Way::Continue => {
            take_front(todo, next);
            drop_to_loop(todo);
        }
        Way::Branch(p) => match next {
            Next::Stmt(_) | Next::Test(_) => replace(todo, Part::One(p)),
            Next::Last(l) => replace_by_two(todo, Part::Test(l), Part::One(p))?,
        },
        Way::Turn(lower, body) => match next {
            Next::Stmt(_) | Next::Test(_) => replace_by_two(todo, lower, Part::One(body))?,
            Next::Last(l) => replace_by_three(todo, Part::Test(l), lower, Part::One(body))?,
        },
    }
    Ok(())
}
