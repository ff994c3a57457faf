//! Two threads that stand at one node.
ghost use Rattle.std.specs.Prelude.{◌≡◌, IfOk, IfSome, Some};
ghost use Rattle.arg_graph.specs.Following.{top_of};

use crate::begin::program_of;
use crate::unanswered::Unanswered;
use abs_stepper::{Position, Thread};
use arg_chain::chain;
use arg_graph::{Stack, Vertex};
use edition_core::Edition;
use gob_tree::{Memory, Seq};
use std::alloc::Global;

/// Threads 1 and 2 with the least chains of two vertices of one node.
pub(crate) fn pair(
    alloc: Global,
    edition: &Edition,
    one: Vertex,
    other: Vertex,
) -> Result<Position, Unanswered> {
    if one.func != other.func || one.node != other.node {
        return Err(Unanswered::NoVertex);
    }
    let Some(first) = least_chain(alloc, edition, one)? else {
        return Err(Unanswered::NoVertex);
    };
    let Some(second) = least_chain(alloc, edition, other)? else {
        return Err(Unanswered::NoVertex);
    };
    Ok(together(alloc, first, second, one, other)?)
}

/// The least chain of a vertex, if it has one.
fn least_chain(alloc: Global, edition: &Edition, v: Vertex) -> Result<Option<Stack>, Memory>
    ensures { IfOk result (λ chain. IfSome chain (λ stack. top_of stack ≡ Some v)) }
{
    let program = program_of(edition);
    chain(alloc, program, edition.graph(), v)
}

/// Threads 1 and 2 with these stacks.
fn together(
    alloc: Global,
    first: Stack,
    second: Stack,
    one: Vertex,
    other: Vertex,
) -> Result<Position, Memory>
    requires first { top_of first ≡ Some one }
    requires second { top_of second ≡ Some other }
    requires func { other.func ≡ one.func }
    requires node { other.node ≡ one.node }
{
    let mut threads = Seq::new(alloc);
    threads.push(Thread {
        id: 1,
        stack: first,
    })?;
    threads.push(Thread {
        id: 2,
        stack: second,
    })?;
    Ok(Position::of(threads))
}
