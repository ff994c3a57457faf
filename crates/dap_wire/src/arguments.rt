ghost use Rattle.std.specs.Prelude.{◌≡◌, true, IfOk};
ghost use Rattle.serde_json.specs.View.{view};
ghost use Rattle.dap_wire.specs.declared.request.Granularity.TheVariants.{Statement};
ghost use Rattle.dap_wire.specs.Fields.{needed, defaulted, optional};
ghost use Rattle.dap_wire.specs.Kinds.{whole, whole_from, flag, yes, text, granularity_named, granularity};
ghost use Rattle.dap_wire.specs.Readings.{IsReading};
ghost use Rattle.dap_wire.specs.Texts.{IsText};

use crate::field::Field;
use crate::request::Granularity;
use crate::unread::Unread;
use gob_tree::Text;
use serde_json::Value;
use std::alloc::Global;

/// The largest whole number of the protocol.
const MOST: u64 = 2147483647;

/// The whole number from `low` that a value is.
pub(crate) fn whole_from(low: u32, value: &Value) -> Option<u32>
    ensures { result ≡ whole_from low (view value.now) }
{
    let n = value.as_u64()?;
    if n < u64::from(low) || n > MOST {
        return None;
    }
    Some(n as u32)
}

/// A whole number from `low` that has to be there.
pub(crate) fn needed_whole(arguments: &Value, field: Field, low: u32) -> Result<u32, Field>
    ensures { result ≡ needed (whole_from low) field (view arguments.now) }
{
    let Some(value) = arguments.get(field.key()) else {
        return Err(field);
    };
    whole_from(low, value).ok_or(field)
}

/// A whole number that is 0 where it is missing.
pub(crate) fn whole_or_zero(arguments: &Value, field: Field) -> Result<u32, Field>
    ensures { result ≡ defaulted whole 0 field (view arguments.now) }
{
    let Some(value) = arguments.get(field.key()) else {
        return Ok(0);
    };
    whole_from(0, value).ok_or(field)
}

/// A whole number that may be missing.
pub(crate) fn optional_whole(arguments: &Value, field: Field) -> Result<Option<u32>, Field>
    ensures { result ≡ optional whole field (view arguments.now) }
{
    let Some(value) = arguments.get(field.key()) else {
        return Ok(None);
    };
    match whole_from(0, value) {
        Some(n) => Ok(Some(n)),
        None => Err(field),
    }
}

/// A flag that is true where it is missing.
pub(crate) fn flag_or_true(arguments: &Value, field: Field) -> Result<bool, Field>
    ensures { result ≡ defaulted flag true field (view arguments.now) }
{
    let Some(value) = arguments.get(field.key()) else {
        return Ok(true);
    };
    value.as_bool().ok_or(field)
}

/// A flag that is true where it is there.
pub(crate) fn only_true(arguments: &Value, field: Field) -> Result<bool, Field>
    ensures { result ≡ defaulted yes true field (view arguments.now) }
{
    let Some(value) = arguments.get(field.key()) else {
        return Ok(true);
    };
    match value.as_bool() {
        Some(true) => Ok(true),
        _ => Err(field),
    }
}

fn granularity_named(name: &str) -> Option<Granularity>
    ensures { result ≡ granularity_named name.now }
{
    match name {
        "statement" | "line" => Some(Granularity::Statement),
        "instruction" => Some(Granularity::Instruction),
        _ => None,
    }
}

/// The granularity of a step.
pub(crate) fn granularity(arguments: &Value) -> Result<Granularity, Field>
    ensures { result ≡ defaulted granularity Statement Field.Granularity (view arguments.now) }
{
    let Some(value) = arguments.get(Field::Granularity.key()) else {
        return Ok(Granularity::Statement);
    };
    match value.as_str() {
        Some(name) => granularity_named(name).ok_or(Field::Granularity),
        None => Err(Field::Granularity),
    }
}

/// A text that has to be there.
#[tactic(auto, using(crate::proofs::TextFacts::utf8_text))]
pub(crate) fn needed_text(alloc: Global, arguments: &Value, field: Field) -> Result<Text, Unread>
    ensures reading { IsReading result (needed text field (view arguments.now)) }
    ensures utf8 { IfOk result IsText }
{
    let Some(value) = arguments.get(field.key()) else {
        return Err(Unread::Wrong(field));
    };
    match value.as_str() {
        Some(text) => Ok(Text::of(alloc, text.as_bytes())?),
        None => Err(Unread::Wrong(field)),
    }
}
