//! What a command answers: its lines, or the fault for which there are none.
ghost use Rattle.std.specs.Prelude.{◌≡◌, ◌++◌, IfOk, codes, decimal};
ghost use Rattle.gobpie_main.specs.Fault.{fault_line, kind_text, refused_line, status_of};

use crate::status::Status;
use c_check::{FrontFault, FrontKind};
use gob_tree::Memory;
use std::alloc::Global;

/// Why a command has no lines, or no more of them.
#[derive(Clone, Copy, Debug, PartialEq, Eq)]
pub enum Fault {
    /// The words have no reading.
    Usage,
    /// A file that the words name couldn't be read.
    ReadFault,
    /// The first fault of a text.
    Refused(FrontFault),
    /// The first bad line of a schedule, counted from 1; 0 where the schedule is too long.
    BadLine(u64),
    /// So many turns left something to do.
    Spent(u64),
    /// Want of memory.
    Memory,
}

/// What a command has to say: its lines, or why there are none.
pub type Answer = Result<Vec<u8>, Fault>;

impl From<Memory> for Fault {
    ghost use Rattle.gobpie_main.specs.declared.fault.Fault.TheVariants.{Memory as WantOfMemory};

    ghost from_gives = { λ _ fault. fault ≡ WantOfMemory };

    fn from(_want: Memory) -> Fault {
        Fault::Memory
    }
}

impl Fault {
    /// The status of a command that ends with this fault.
    pub fn status(self) -> Status
        ensures { result ≡ status_of self }
    {
        match self {
            Fault::Usage => Status::Usage,
            Fault::ReadFault => Status::ReadFault,
            Fault::Refused(_) => Status::SourceRefused,
            Fault::BadLine(_) => Status::ScriptRefused,
            Fault::Spent(_) => Status::Spent,
            Fault::Memory => Status::Memory,
        }
    }

    /// The line that tells the fault. `Memory` is want of memory.
    pub fn line(self, alloc: Global) -> Result<Vec<u8>, Memory>
        ensures { IfOk result (λ line. line.items ≡ fault_line self) }
    {
        match self {
            Fault::Usage => {
                let line = b"usage: gobpie analyse|run|replay|load|debug|serve\n";
                Ok(Vec::from_slice(alloc, line)?)
            }
            Fault::ReadFault => Ok(Vec::from_slice(alloc, b"read fault\n")?),
            Fault::Refused(fault) => refused_line(alloc, fault),
            Fault::BadLine(line) => numbered_line(alloc, b"script ", line),
            Fault::Spent(turns) => numbered_line(alloc, b"spent ", turns),
            Fault::Memory => Ok(Vec::from_slice(alloc, b"memory\n")?),
        }
    }
}

/// A line of a word and a number. `Memory` is want of memory.
fn numbered_line(alloc: Global, word: &[u8], number: u64) -> Result<Vec<u8>, Memory>
    ensures { IfOk result (λ line. line.items ≡ word.now ++ decimal number ++ codes "\n") }
{
    let mut line = Vec::from_slice(alloc, word)?;
    let mut buffer = itoa::Buffer::new();
    line.extend_from_slice(buffer.format(number).as_bytes())?;
    line.extend_from_slice(b"\n")?;
    Ok(line)
}

/// The line of a refused text. `Memory` is want of memory.
fn refused_line(alloc: Global, fault: FrontFault) -> Result<Vec<u8>, Memory>
    ensures { IfOk result (λ line. line.items ≡ refused_line fault) }
{
    let mut line = Vec::from_slice(alloc, b"refused ")?;
    let mut buffer = itoa::Buffer::new();
    line.extend_from_slice(buffer.format(fault.place.line).as_bytes())?;
    line.extend_from_slice(b":")?;
    line.extend_from_slice(buffer.format(fault.place.column).as_bytes())?;
    line.extend_from_slice(b" ")?;
    line.extend_from_slice(kind_text(fault.kind))?;
    line.extend_from_slice(b"\n")?;
    Ok(line)
}

/// The name of a kind of fault.
fn kind_text(kind: FrontKind) -> &'static [u8]
    ensures { result.now ≡ kind_text kind }
{
    match kind {
        FrontKind::TooLong => b"TooLong",
        FrontKind::NotText => b"NotText",
        FrontKind::BadCharacter => b"BadCharacter",
        FrontKind::OpenComment => b"OpenComment",
        FrontKind::BadLiteral => b"BadLiteral",
        FrontKind::Unsupported => b"Unsupported",
        FrontKind::Unexpected => b"Unexpected",
        FrontKind::TooDeep => b"TooDeep",
        FrontKind::Undeclared => b"Undeclared",
        FrontKind::Redeclared => b"Redeclared",
        FrontKind::WrongKind => b"WrongKind",
        FrontKind::WrongArity => b"WrongArity",
        FrontKind::NoMain => b"NoMain",
        FrontKind::Limit => b"Limit",
        FrontKind::Memory => b"Memory",
    }
}
