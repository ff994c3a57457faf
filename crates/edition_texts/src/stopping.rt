//! Where breakpoints stop in the edition of a text.
ghost use Rattle.std.specs.Prelude.{◌≡◌, ◌<◌, ◌^◌, IfOk, length};

use crate::asking::opened;
use crate::begin::program_of;
use crate::unanswered::Unanswered;
use arg_graph::Vertex;
use breakpoint_eval::{Break, Stop, resolve, stops};
use c_parse::parse_expr;
use edition_core::Edition;
use gob_tree::Memory;
use std::alloc::Global;

/// A breakpoint that is asked for: a line, and the text of a condition, if there is one.
#[derive(Clone, Copy)]
pub struct Asked<'a> {
    pub line: u32,
    pub cond: Option<&'a [u8]>,
}

/// Whether breakpoints have just these stops, in this order: each with the number of its break, from 0
/// on, and its vertices.
pub fn stops_at(
    alloc: Global,
    text: &[u8],
    asked: &[Asked<'_>],
    wanted: &[(u32, &[Vertex])],
) -> Result<bool, Unanswered>
    requires { length asked.now < 2 ^ 32 }
{
    let edition = opened(alloc, text)?;
    let breaks = breaks_of(alloc, &edition, asked)?;
    let found = stops_of(alloc, &edition, breaks.as_slice())?;
    Ok(are_stops(found.as_slice(), wanted))
}

fn breaks_of(
    alloc: Global,
    edition: &Edition,
    asked: &[Asked<'_>],
) -> Result<Vec<Break>, Unanswered>
    ensures { IfOk result (λ breaks. length breaks.items ≡ length asked.now) }
{
    let mut breaks = Vec::new(alloc);
    for one in asked {
        let stop = break_of(alloc, edition, one)?;
        if breaks.push(stop).is_err() {
            return Err(Unanswered::Memory);
        }
    }
    Ok(breaks)
}

fn break_of(alloc: Global, edition: &Edition, asked: &Asked<'_>) -> Result<Break, Unanswered> {
    let Some((func, node)) = resolve(program_of(edition), asked.line) else {
        return Err(Unanswered::NoNode);
    };
    let cond = match asked.cond {
        Some(text) => Some(parse_expr(alloc, text)?),
        None => None,
    };
    Ok(Break { func, node, cond })
}

fn stops_of(alloc: Global, edition: &Edition, breaks: &[Break]) -> Result<Vec<Stop>, Memory>
    requires { length breaks.now < 2 ^ 32 }
{
    let program = program_of(edition);
    stops(alloc, program, edition.table(), edition.graph(), breaks)
}

fn are_stops(stops: &[Stop], wanted: &[(u32, &[Vertex])]) -> bool {
    if stops.len() != wanted.len() {
        return false;
    }
    for (i, stop) in stops.iter().enumerate() {
        let (index, at) = wanted[i];
        if stop.index != index || stop.at.as_slice() != at {
            return false;
        }
    }
    true
}

/// Whether a line of a text has this function and node; `None` stands for no node.
pub fn resolves(
    alloc: Global,
    text: &[u8],
    line: u32,
    wanted: Option<(u16, u16)>,
) -> Result<bool, Unanswered> {
    let edition = opened(alloc, text)?;
    Ok(resolve(program_of(&edition), line) == wanted)
}
