ghost use Rattle.std.specs.Prelude.{◌≡◌, ◌≢◌, Some, None, Ok, Err, option_map, IfOk, IfErr};
ghost use Rattle.serde_json.specs.View.{view};
ghost use Rattle.dap_wire.specs.Names.{command_named};
ghost use Rattle.dap_wire.specs.Requests.{value_of, head_of, by_name, request_of};
ghost use Rattle.dap_wire.specs.Sound.{IsSoundCommand, IsSoundFault};

use crate::arguments::whole_from;
use crate::command::command_of;
use crate::fault::WireFault;
use crate::name::command_named;
use crate::request::Ask;
use crate::unread::Unread;
use gob_tree::Text;
use serde_json::Value;
use std::alloc::Global;

/// The request of a message's content.
///
/// It is the one that `request_of` gives, and so is the fault; `Memory` is want of memory, and leaves
/// nothing behind. Fields that no command names are passed over.
pub fn read_request(alloc: Global, content: &[u8]) -> Result<Ask, WireFault>
    ensures ok { IfOk result (λ ask. request_of content.now ≡ Ok ask) }
    ensures err { IfErr result (λ fault. fault ≢ WireFault.Memory → request_of content.now ≡ Err fault) }
    ensures sound { IfOk result (λ ask. IsSoundCommand ask.command) }
    ensures sound_fault { IfErr result IsSoundFault }
{
    let value = value_of(alloc, content)?;
    let Some((seq, name)) = head_of(&value) else {
        return Err(WireFault::NotARequest);
    };
    let nothing = Value::Null;
    let arguments = value.get("arguments").unwrap_or(&nothing);
    request_by_name(alloc, seq, name, arguments)
}

/// The value of a content.
#[tactic(auto, using(crate::proofs::Contents::content_of_utf8, crate::proofs::Contents::content_of_none))]
fn value_of(alloc: Global, content: &[u8]) -> Result<Value, WireFault>
    ensures ok { IfOk result (λ v. value_of content.now ≡ Some (view v)) }
    ensures err { IfErr result (λ fault. fault ≢ WireFault.Memory → value_of content.now ≡ None) }
    ensures json { IfErr result (λ fault. fault ≢ WireFault.Memory → fault ≡ WireFault.NotJson) }
    ensures sound_fault { IfErr result IsSoundFault }
{
    match Value::from_slice(alloc, content) {
        Ok(value) => Ok(value),
        Err(error) => {
            if error.is_memory() {
                return Err(WireFault::Memory);
            }
            Err(WireFault::NotJson)
        }
    }
}

/// The number and the command's name of a request.
fn head_of(value: &Value) -> Option<(u32, &str)>
    ensures { option_map (λ head. (head.0, head.1.now)) result ≡ head_of (view value.now) }
{
    let kind = value.get("type").and_then(Value::as_str)?;
    if kind != "request" {
        return None;
    }
    let seq = value.get("seq").and_then(|seq| whole_from(1, seq))?;
    let name = value.get("command").and_then(Value::as_str)?;
    Some((seq, name))
}

/// The request of this number and name.
#[tactic(auto, using(crate::proofs::TextFacts::utf8_text))]
fn request_by_name(alloc: Global, seq: u32, name: &str, arguments: &Value) -> Result<Ask, WireFault>
    ensures ok { IfOk result (λ ask. by_name seq name.now (command_named name.now) (view arguments.now) ≡ Ok ask) }
    ensures err { IfErr result (λ fault. fault ≢ WireFault.Memory
        → by_name seq name.now (command_named name.now) (view arguments.now) ≡ Err fault) }
    ensures sound { IfOk result (λ ask. IsSoundCommand ask.command) }
    ensures sound_fault { IfErr result IsSoundFault }
{
    let Some(command) = command_named(name) else {
        let command = Text::of(alloc, name.as_bytes())?;
        return Err(WireFault::UnknownCommand { seq, command });
    };
    match command_of(alloc, command, arguments) {
        Ok(command) => Ok(Ask { seq, command }),
        Err(Unread::Wrong(field)) => {
            let command = Text::of(alloc, name.as_bytes())?;
            let field = Text::of(alloc, field.key().as_bytes())?;
            Err(WireFault::BadArguments {
                seq,
                command,
                field,
            })
        }
        Err(Unread::Memory) => Err(WireFault::Memory),
    }
}
