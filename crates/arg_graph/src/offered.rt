//! The steps that are offered at a vertex.
ghost use Rattle.std.specs.Prelude.{◌≡◌, ◌<◌, ◌++◌, ◌+◌, ℕ, IfOk, OnOk, length};
ghost use Rattle.gob_tree.specs.Formed.{IsFormed};
ghost use Rattle.constraint_sys.specs.Index.{IsSystemOf};
ghost use Rattle.constraint_sys.specs.Sound.{IsShaped};
ghost use Rattle.arg_graph.specs.Offered.{beginning, offered, passed, passing, start, starts, steps_by};

use crate::vertex::{Label, Step, Vertex};
use constraint_sys::{Effect, Outcome, System, Table, Unknown, outcome};
use gob_tree::{Action, Edge, Memory, Program, Seq};
use state_dom::State;
use std::alloc::Global;

/// The steps that are offered at a vertex, by the edges that begin at its node, in order; `Memory` is
/// want of memory.
pub(crate) fn offered(
    alloc: Global,
    program: &Program,
    system: &System,
    table: &Table,
    v: &Vertex,
) -> Result<Seq<Step>, Memory>
    requires formed { IsFormed program.now }
    requires system { IsSystemOf program.now system.now }
    requires shaped { IsShaped program.now table.now }
    requires within { v.now.func < length program.now.funcs }
    ensures { IfOk result (λ ss. ss ≡ offered program.now table.now v.now) }
{
    let edges = program.funcs.as_slice()[v.func as usize].edges.as_slice();
    let mut steps = Seq::new(alloc);
    for i in system.out_of(v.func, v.node) {
        let n = *i as usize;
        let edge = &edges[n];
        let outcome = outcome(alloc, program, table, v.func, &v.key, edge)?;
        push_steps(&mut steps, v, *i, edge, &outcome)?;
    }
    Ok(steps)
}

/// Adds the steps by an edge, of which the number and the outcome are given.
fn push_steps(
    steps: &mut Seq<Step>,
    v: &Vertex,
    n: u32,
    edge: &Edge,
    outcome: &Outcome,
) -> Result<(), Memory>
    ensures { OnOk result (steps.new ≡ steps.old ++ steps_by v.now n edge.now outcome.now) }
{
    push_passed(steps, v, edge, passing(n, &edge.act), &outcome.value)?;
    match beginning(n, &edge.act) {
        Some(label) => push_begun(steps, label, outcome.effects.as_slice()),
        None => Ok(()),
    }
}

fn passing(n: u32, act: &Action) -> Label
    ensures { result ≡ passing n act.now }
{
    match act {
        Action::Call(..) => Label::Over(n),
        _ => Label::Do(n),
    }
}

fn beginning(n: u32, act: &Action) -> Option<Label>
    ensures { result ≡ beginning n act.now }
{
    match act {
        Action::Call(..) => Some(Label::Enter(n)),
        Action::Create(..) => Some(Label::Thread(n)),
        _ => None,
    }
}

/// Adds the step to the edge's end, unless the state there is Bottom.
fn push_passed(
    steps: &mut Seq<Step>,
    v: &Vertex,
    edge: &Edge,
    label: Label,
    value: &State,
) -> Result<(), Memory>
    ensures { OnOk result (steps.new ≡ steps.old ++ passed v.now edge.now label value.now) }
{
    if value.is_bottom() {
        return Ok(());
    }
    let to = Vertex {
        func: v.func,
        key: v.key,
        node: edge.to,
    };
    steps.push(Step { label, to })
}

/// Adds the step to each start that an edge contributes to.
fn push_begun(steps: &mut Seq<Step>, label: Label, effects: &[Effect]) -> Result<(), Memory>
    ensures { OnOk result (steps.new ≡ steps.old ++ starts label effects.now) }
{
    for effect in effects {
        push_start(steps, label, &effect.target)?;
    }
    Ok(())
}

fn push_start(steps: &mut Seq<Step>, label: Label, target: &Unknown) -> Result<(), Memory>
    ensures { OnOk result (steps.new ≡ steps.old ++ start label target.now) }
{
    match *target {
        Unknown::Point { func, key, node } => {
            let to = Vertex { func, key, node };
            steps.push(Step { label, to })
        }
        Unknown::Global(_) => Ok(()),
    }
}
