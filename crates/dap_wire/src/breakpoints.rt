ghost use Rattle.std.specs.Prelude.{◌≡◌, ◌≤◌, [], Some, None, option_map, length, IfOk, IfSome, All};
ghost use Rattle.serde_json.specs.View.{view, items_view};
ghost use Rattle.dap_wire.specs.Breakpoints.{condition, breakpoint, each_breakpoint, breakpoint_list, breakpoints};
ghost use Rattle.dap_wire.specs.Fields.{defaulted};
ghost use Rattle.dap_wire.specs.Readings.{IsReading};
ghost use Rattle.dap_wire.specs.Sound.{IsBreakText, AreBreakpoints};
ghost use Rattle.dap_wire.specs.Texts.{IsText};

use crate::arguments::whole_from;
use crate::field::Field;
use crate::request::BreakAsk;
use crate::unread::Unread;
use gob_tree::{Memory, Seq, Text};
use serde_json::Value;
use std::alloc::Global;

/// The most breakpoints of a request.
const MOST_BREAKPOINTS: usize = 256;

/// The breakpoints of a request, none where they are missing.
pub(crate) fn breakpoints(alloc: Global, arguments: &Value) -> Result<Seq<BreakAsk>, Unread>
    ensures reading { IsReading result (defaulted breakpoints [] Field.Breakpoints (view arguments.now)) }
    ensures sound { IfOk result AreBreakpoints }
{
    let Some(value) = arguments.get(Field::Breakpoints.key()) else {
        return Ok(Seq::new(alloc));
    };
    let Some(items) = value.as_array() else {
        return Err(Unread::Wrong(Field::Breakpoints));
    };
    match breakpoint_list(alloc, items.as_slice())? {
        Some(list) => Ok(list),
        None => Err(Unread::Wrong(Field::Breakpoints)),
    }
}

/// The same of at most 256 items.
#[tactic(auto, using(crate::proofs::Breaks::count_of_items))]
fn breakpoint_list(alloc: Global, items: &[Value]) -> Result<Option<Seq<BreakAsk>>, Memory>
    ensures reading { IfOk result (λ o. o ≡ breakpoint_list (items_view items.now)) }
    ensures sound { IfOk result (λ o. IfSome o AreBreakpoints) }
{
    if items.len() > MOST_BREAKPOINTS {
        return Ok(None);
    }
    each_breakpoint(alloc, items)
}

/// The breakpoints that the items are, if each is one.
#[tactic(auto, using(crate::proofs::Breaks::nothing_before, crate::proofs::Breaks::one_more))]
fn each_breakpoint(alloc: Global, items: &[Value]) -> Result<Option<Seq<BreakAsk>>, Memory>
    ensures reading { IfOk result (λ o. o ≡ each_breakpoint (items_view items.now)) }
    ensures utf8 { IfOk result (λ o. IfSome o (λ list. All IsBreakText list)) }
    ensures few { IfOk result (λ o. IfSome o (λ list. length list ≤ length items.now)) }
{
    let mut list = Seq::new(alloc);
    for item in items {
        let Some(breakpoint) = breakpoint(alloc, item)? else {
            return Ok(None);
        };
        list.push(breakpoint)?;
    }
    Ok(Some(list))
}

/// The breakpoint that an item is.
fn breakpoint(alloc: Global, item: &Value) -> Result<Option<BreakAsk>, Memory>
    ensures reading { IfOk result (λ o. o ≡ breakpoint (view item.now)) }
    ensures utf8 { IfOk result (λ o. IfSome o IsBreakText) }
{
    let Some(line) = item.get("line").and_then(|line| whole_from(0, line)) else {
        return Ok(None);
    };
    match condition(alloc, item.get("condition"))? {
        Some(condition) => Ok(Some(BreakAsk { line, condition })),
        None => Ok(None),
    }
}

/// The condition of a breakpoint, which may be missing.
#[tactic(auto, using(crate::proofs::TextFacts::utf8_text))]
fn condition(alloc: Global, found: Option<&Value>) -> Result<Option<Option<Text>>, Memory>
    ensures reading { IfOk result (λ o. o ≡ condition (option_map (λ v. view v.now) found.entry)) }
    ensures utf8 { IfOk result (λ o. IfSome o (λ c. IfSome c IsText)) }
{
    let Some(value) = found else {
        return Ok(Some(None));
    };
    match value.as_str() {
        Some(text) => Ok(Some(Some(Text::of(alloc, text.as_bytes())?))),
        None => Ok(None),
    }
}
