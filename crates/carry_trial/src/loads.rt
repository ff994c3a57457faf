//! Generated texts with their eight edits, each solved from what the one before leaves.
ghost use Rattle.std.specs.Prelude.{◌<◌, ◌≤◌, IfSome};
ghost use Rattle.carry_trial.specs.Solutions.{IsSolution};

use crate::begin::{first_job, next_job, solved_from};
use crate::shown::is_at_end;
use gen_load::{edits_of, program_of};
use gob_tree::Text;
use std::alloc::Global;
use td_solver::Solved;

/// Whether the printed table of the last edit of a generated text ends so; false too where a text is
/// refused, isn't solved within 100,000 turns, or memory is wanting.
pub fn globals_end(alloc: Global, number: u64, functions: u32, wanted: &[u8]) -> bool
    requires some { 0 < functions }
    requires few { functions ≤ 120 }
{
    let Ok(edits) = edits_of(alloc, number, functions) else {
        return false;
    };
    let Some(first) = first_of(alloc, number, functions) else {
        return false;
    };
    match last_of(alloc, first, edits.as_slice()) {
        Some(last) => is_at_end(alloc, last.source.program(), &last.table, wanted),
        None => false,
    }
}

/// The generated text itself, solved.
fn first_of(alloc: Global, number: u64, functions: u32) -> Option<Solved>
    requires some { 0 < functions }
    requires few { functions ≤ 120 }
    ensures { IfSome result IsSolution }
{
    let Ok(text) = program_of(alloc, number, functions) else {
        return None;
    };
    let job = first_job(alloc, text.as_slice())?;
    solved_from(alloc, job)
}

/// The last of some texts, each solved from what the one before it leaves.
fn last_of(alloc: Global, first: Solved, texts: &[Text]) -> Option<Solved>
    requires { IsSolution first }
    ensures { IfSome result IsSolution }
{
    let mut last = first;
    for text in texts {
        last = solved_on(alloc, &last, text)?;
    }
    Some(last)
}

/// A text solved from what another one leaves.
fn solved_on(alloc: Global, last: &Solved, text: &Text) -> Option<Solved>
    requires { IsSolution last.now }
    ensures { IfSome result IsSolution }
{
    let job = next_job(alloc, last, text.as_bytes())?;
    solved_from(alloc, job)
}

#[cfg(test)]
mod tests {
    use super::*;
    use std::test::Fail;

    #[test]
    fn eight_edits_of_the_one_function(rt: HostRuntime) -> Result<(), Fail> {
        let wanted = b"global g0=[0,61]
global g1=[0,0]
global g2=[0,0]
global g3=[0,0]
";
        assert!(rt; globals_end(rt.alloc(), 1, 1, wanted));
        Ok(())
    }

    // The greatest constant that a function of the last text writes to each global.
    #[test]
    fn eight_edits_among_forty_functions(rt: HostRuntime) -> Result<(), Fail> {
        let wanted = b"global g0=[0,69]
global g1=[0,83]
global g2=[0,99]
global g3=[0,69]
";
        assert!(rt; globals_end(rt.alloc(), 1, 40, wanted));
        Ok(())
    }
}
