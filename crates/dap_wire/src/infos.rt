ghost use Rattle.std.specs.Prelude.{◌≡◌, IfOk, All};
ghost use Rattle.serde_json.specs.Data.{string, array};
ghost use Rattle.serde_json.specs.View.{view, items_of};
ghost use Rattle.dap_wire.specs.Messages.{list, breakpoint_data, thread_data, frame_data, variable_data, target_data, targets_from};
ghost use Rattle.dap_wire.specs.MessageTexts.{IsBreakInfoText, IsThreadText, IsFrameName, IsFrameFile, IsVariableName, IsVariableValue};
ghost use Rattle.dap_wire.specs.Texts.{IsText};

use crate::message::{BreakInfo, FrameInfo, ThreadInfo, VariableInfo};
use gob_tree::Text;
use serde_json::{Value, json};
use std::alloc::{AllocError, Global};

/// A text as JSON.
#[tactic(auto, using(crate::proofs::TextFacts::text_utf8))]
pub(crate) fn text_value(alloc: Global, text: &Text) -> Result<Value, AllocError>
    requires { IsText text.now }
    ensures { IfOk result (λ v. view v ≡ string text.now) }
{
    match text.as_str() {
        Some(text) => Value::try_from_str(alloc, text),
        None => unreachable!(),
    }
}

/// A breakpoint as JSON.
pub(crate) fn breakpoint_value(alloc: Global, info: &BreakInfo) -> Result<Value, AllocError>
    requires { IsBreakInfoText info.now }
    ensures { IfOk result (λ v. view v ≡ breakpoint_data info.now) }
{
    let (id, line) = (info.id, info.line);
    match &info.message {
        None => json!(in alloc; {"id": id, "line": line, "verified": true}),
        Some(message) => {
            let message = text_value(alloc, message)?;
            json!(in alloc; {"id": id, "line": line, "message": message, "verified": false})
        }
    }
}

fn thread_value(alloc: Global, info: &ThreadInfo) -> Result<Value, AllocError>
    requires { IsThreadText info.now }
    ensures { IfOk result (λ v. view v ≡ thread_data info.now) }
{
    let id = info.id;
    let name = text_value(alloc, &info.name)?;
    json!(in alloc; {"id": id, "name": name})
}

fn frame_value(alloc: Global, info: &FrameInfo) -> Result<Value, AllocError>
    requires name { IsFrameName info.now }
    requires file { IsFrameFile info.now }
    ensures { IfOk result (λ v. view v ≡ frame_data info.now) }
{
    let (id, line, column) = (info.id, info.line, info.column);
    let name = text_value(alloc, &info.name)?;
    let file = text_value(alloc, &info.file)?;
    let path = text_value(alloc, &info.file)?;
    json!(in alloc; {
        "column": column,
        "id": id,
        "line": line,
        "name": name,
        "source": {"name": file, "path": path},
    })
}

fn variable_value(alloc: Global, info: &VariableInfo) -> Result<Value, AllocError>
    requires name { IsVariableName info.now }
    requires value { IsVariableValue info.now }
    ensures { IfOk result (λ v. view v ≡ variable_data info.now) }
{
    let name = text_value(alloc, &info.name)?;
    let value = text_value(alloc, &info.value)?;
    json!(in alloc; {"name": name, "value": value, "variablesReference": 0u32})
}

fn target_value(alloc: Global, id: u64, label: &Text) -> Result<Value, AllocError>
    requires { IsText label.now }
    ensures { IfOk result (λ v. view v ≡ target_data id label.now) }
{
    let label = text_value(alloc, label)?;
    json!(in alloc; {"id": id, "label": label})
}

pub(crate) fn breakpoints_value(alloc: Global, infos: &[BreakInfo]) -> Result<Value, AllocError>
    requires { All IsBreakInfoText infos.now }
    ensures { IfOk result (λ v. view v ≡ list breakpoint_data infos.now) }
{
    let mut values = Vec::new(alloc);
    for info in infos {
        values.push(breakpoint_value(alloc, info)?)?;
    }
    Ok(Value::Array(values))
}

pub(crate) fn threads_value(alloc: Global, infos: &[ThreadInfo]) -> Result<Value, AllocError>
    requires { All IsThreadText infos.now }
    ensures { IfOk result (λ v. view v ≡ list thread_data infos.now) }
{
    let mut values = Vec::new(alloc);
    for info in infos {
        values.push(thread_value(alloc, info)?)?;
    }
    Ok(Value::Array(values))
}

pub(crate) fn frames_value(alloc: Global, infos: &[FrameInfo]) -> Result<Value, AllocError>
    requires names { All IsFrameName infos.now }
    requires files { All IsFrameFile infos.now }
    ensures { IfOk result (λ v. view v ≡ list frame_data infos.now) }
{
    let mut values = Vec::new(alloc);
    for info in infos {
        values.push(frame_value(alloc, info)?)?;
    }
    Ok(Value::Array(values))
}

pub(crate) fn variables_value(alloc: Global, infos: &[VariableInfo]) -> Result<Value, AllocError>
    requires names { All IsVariableName infos.now }
    requires values { All IsVariableValue infos.now }
    ensures { IfOk result (λ v. view v ≡ list variable_data infos.now) }
{
    let mut values = Vec::new(alloc);
    for info in infos {
        values.push(variable_value(alloc, info)?)?;
    }
    Ok(Value::Array(values))
}

/// The targets of the labels, numbered from 1.
pub(crate) fn targets_value(alloc: Global, labels: &[Text]) -> Result<Value, AllocError>
    requires { All IsText labels.now }
    ensures { IfOk result (λ v. view v ≡ array (items_of (targets_from 1 labels.now))) }
{
    let mut values = Vec::new(alloc);
    for (i, label) in labels.iter().enumerate() {
        values.push(target_value(alloc, i as u64 + 1, label)?)?;
    }
    Ok(Value::Array(values))
}
