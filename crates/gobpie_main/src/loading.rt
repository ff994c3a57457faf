//! From the name of a file to its source, for every command that has one.
ghost use Rattle.std.specs.Prelude.{◌≡◌, ◌≤◌, ℕ, List, IfOk, IfErr, IfSome, IsUtf8, vec_len};
ghost use Rattle.c_check.specs.Faults.{fault_at, whole_text};
ghost use Rattle.c_check.specs.Front.{IsSourceOf};
ghost use Rattle.c_check.specs.declared.fault.FrontKind.TheVariants.{TooLong};
ghost use Rattle.gobpie_main.specs.Loading.{AsksFor, IsLoadFault, IsLoadOf, IsSourceFault, LoadsText};

use crate::fault::Fault;
use c_check::{FrontFault, FrontKind, front};
use c_lex::TEXT_LIMIT;
use c_source::Source;
use gob_outside::{FileFail, Files};
use gob_tree::{Place, Text};
use std::alloc::Global;

/// The bytes of a file; `None` where they are more than `limit`. Its faults are `ReadFault` and
/// `Memory`.
pub fn load<F: Files>(
    alloc: Global,
    name: &Text,
    limit: usize,
    files: &mut F,
) -> Result<Option<Vec<u8>>, Fault>
    requires { IsUtf8 name.now }
    ensures loaded { IfOk result (LoadsText (F.seen files.old) name.now limit) }
    ensures within { IfOk result (λ found. IfSome found (λ bytes. vec_len bytes ≤ limit)) }
    ensures fault { IfErr result (IsLoadFault name.now (F.seen files.old) (F.seen files.new)) }
    ensures asks { AsksFor name.now (F.seen files.old) (F.seen files.new) }
{
    let Some(name) = name.as_str() else {
        return Err(Fault::ReadFault);
    };
    match files.load(alloc, name, limit) {
        Ok(bytes) => Ok(Some(bytes)),
        Err(FileFail::TooLong { limit: _ }) => Ok(None),
        Err(FileFail::Failed) => Err(Fault::ReadFault),
        Err(FileFail::Memory) => Err(Fault::Memory),
    }
}

/// The source of a text that was loaded. Its faults are `Refused`, at the first fault of the text,
/// and `Memory`.
pub fn source_in(alloc: Global, found: Option<Vec<u8>>) -> Result<Source, Fault>
    ensures source { (text : List ℕ) → IsLoadOf TEXT_LIMIT text found
        → IfOk result (IsSourceOf text) }
    ensures fault { (text : List ℕ) → IsLoadOf TEXT_LIMIT text found
        → IfErr result (IsSourceFault text) }
{
    match found {
        Some(text) => source_of(alloc, text.as_slice()),
        None => Err(Fault::Refused(too_long())),
    }
}

/// The fault of a text over its limit.
fn too_long() -> FrontFault
    ensures { result ≡ fault_at TooLong whole_text }
{
    FrontFault {
        kind: FrontKind::TooLong,
        place: Place { line: 1, column: 1 },
    }
}

/// The source of a text.
fn source_of(alloc: Global, text: &[u8]) -> Result<Source, Fault>
    ensures source { IfOk result (IsSourceOf text.now) }
    ensures fault { IfErr result (IsSourceFault text.now) }
{
    match front(alloc, text) {
        Ok(source) => Ok(source),
        Err(fault) => {
            if fault.kind == FrontKind::Memory {
                Err(Fault::Memory)
            } else {
                Err(Fault::Refused(fault))
            }
        }
    }
}
